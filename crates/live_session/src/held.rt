//! Bytes that were read and not yet answered.
ghost use Rattle.std.specs.Prelude.{◌≡◌, ◌≤◌, ◌<◌, ◌+◌, ◌-◌, ◌^◌, ◌++◌, [], IfOk, MatchOption, OnOk, drop, length};
ghost use Rattle.io_edge.specs.Edge.{SinkView, SourceView};
ghost use Rattle.live_session.specs.Sessions.{Session};
ghost use Rattle.live_session.specs.Internal.Held.{HasNewlineAt, HasNoNewline, TakesMore, Turns, kept};
ghost use Rattle.live_session.specs.Internal.Talking.{FindsLine, IsTalking, Talked};

use crate::giving::give_answers;
use crate::status::Status;
use io_edge::{Failed, Sink, Source};
use memchr::memchr;
use mm_types::NoMemory;
use std::alloc::Global;
use std::marker::Model;
use text_lexer::LINE_LIMIT;

/// How many bytes a read asks for at most: as many as two of the longest lines have.
const PIECE: usize = 8_192;

/// How many bytes of a line are kept while its end was not read: as many as show that it is too long.
const MOST_KEPT: usize = LINE_LIMIT + 1;

/// Bytes that were read and not yet answered: what is kept of a line whose end was not read, and one read more at most. Contracts see them,
/// how many of them were searched, and how many lines and reads there were.
#[derive(Drop)]
pub(crate) struct Held {
    bytes: Vec<u8>,
    /// Where those begin that were not answered.
    at: usize,
    /// How many of those were searched: none is a newline.
    searched: usize,
    turns: u64,
}

impl Model for Held {
    ghost use Rattle.std.specs.Prelude.{drop};
    ghost use Rattle.live_session.specs.Internal.Held.{HeldLineView, AreBytesHeld};

    ghost Value = { HeldLineView };

    ghost view = { λ held. record { bytes = drop held.at held.bytes.items; searched = held.searched; turns = held.turns } };

    ghost invariant = { λ held. AreBytesHeld held.bytes.items held.at held.searched };
}

impl Held {
    /// No byte, before the first read.
    pub(crate) fn new(alloc: Global) -> Held
        ensures { result ≡ record { bytes = []; searched = 0; turns = 0 } }
    {
        Held {
            bytes: Vec::new(alloc),
            at: 0,
            searched: 0,
            turns: 0,
        }
    }

    /// The bytes.
    pub(crate) fn bytes(&self) -> &[u8]
        ensures { result.now ≡ self.now.bytes }
    {
        &self.bytes[self.at..]
    }

    /// Takes a line of so many bytes and its newline off the front.
    pub(crate) fn pass(&mut self, len: usize)
        requires { len < length self.old.bytes }
        ensures { self.new ≡ record { bytes = drop (len + 1) self.old.bytes; searched = 0; turns = self.old.turns } }
    {
        let line_end = self.at + len;
        self.at = line_end + 1;
        self.searched = 0;
    }

    /// The length of the first line, if a newline ends one. Only what was not searched yet is.
    fn line_len(&self) -> Option<usize>
        ensures { MatchOption result (HasNoNewline self.now.bytes) (HasNewlineAt self.now.bytes) }
    {
        match memchr(b'\n', &self.bytes()[self.searched..]) {
            Some(len) => Some(self.searched + len),
            None => None,
        }
    }

    /// Counts a turn.
    fn turn(&mut self)
        requires { self.old.turns < 2 ^ 64 - 1 }
        ensures { self.new ≡ record { bytes = self.old.bytes; searched = self.old.searched; turns = self.old.turns + 1 } }
    {
        self.turns += 1;
    }

    /// Keeps of a line whose end was not read no more than shows that it is too long. All of that was searched.
    fn keep_front(&mut self)
        requires { HasNoNewline self.old.bytes }
        ensures { self.new ≡ record { bytes = kept self.old.bytes; searched = length (kept self.old.bytes); turns = self.old.turns } }
    {
        self.searched = MOST_KEPT.min(self.bytes().len());
        self.bytes.truncate(self.at + self.searched);
    }

    /// Appends the bytes of a read, none of which was searched. Fails only where memory runs out.
    fn append(&mut self, more: &[u8]) -> Result<(), NoMemory>
        requires kept { length self.old.bytes ≤ MOST_KEPT }
        requires read { length more.now ≤ PIECE }
        ensures { OnOk result (self.new ≡ record { bytes = self.old.bytes ++ more.now; searched = self.old.searched; turns = self.old.turns }) }
    {
        drop_front(&mut self.bytes, self.at);
        self.at = 0;
        self.bytes.extend_from_slice(more)?;
        Ok(())
    }

    /// Takes more bytes from a source, and tells whether there are any: there are none only at the end of the input.
    fn take_more<S: Source>(&mut self, source: &mut S) -> Result<bool, Status>
        requires count_has_room { (S.seen source.old).faults < 2 ^ 64 - 1 }
        requires kept { length self.old.bytes ≤ MOST_KEPT }
        ensures { TakesMore (S.seen source.old) (S.seen source.new) self.old self.new result }
    {
        let mut chunk = [0u8; PIECE];
        match source.take(&mut chunk) {
            Ok(0) => Ok(false),
            Ok(count) => {
                self.append(&chunk[..count])?;
                Ok(true)
            }
            Err(Failed) => Err(Status::ReadFault),
        }
    }

    /// Finds the next whole line, and answers its length. Where none is held, the answers in the piece are given to the sink, and then more
    /// is read. There is no next line only at the end of the input.
    pub(crate) fn find_line<S: Source, K: Sink>(
        &mut self,
        source: &mut S,
        sink: &mut K,
        piece: &mut Vec<u8>,
    ) -> Result<Option<usize>, Status>
        requires { (session : Session) × IsTalking (S.seen source.old) (K.seen sink.old) self.old piece.old.items session }
        ensures found { (s : SourceView) (k : SinkView) (session : Session) → Talked s (S.seen source.old) k (K.seen sink.old) self.old piece.old.items session
            → FindsLine s (S.seen source.new) k (K.seen sink.new) self.new piece.new.items session result }
        ensures turns { IfOk result (λ len. Turns self.old self.new) }
    {
        'turns: while self.turns < u64::MAX {
            self.turn();
            if let Some(len) = self.line_len() {
                return Ok(Some(len));
            }
            self.keep_front();
            give_answers(sink, piece)?;
            if !self.take_more(source)? {
                return Ok(None);
            }
        }
        Err(Status::TooMany)
    }
}

/// Drops so many bytes from the front.
fn drop_front(bytes: &mut Vec<u8>, count: usize)
    requires { count ≤ length bytes.old.items }
    ensures { bytes.new.items ≡ drop count bytes.old.items }
{
    let rest = bytes.len() - count;
    if rest == 0 {
        bytes.clear();
    } else {
        bytes.rotate_left(count);
        bytes.truncate(rest);
    }
}
