//! What a line of a session asks for.
ghost use Rattle.std.specs.Prelude.{◌≡◌, ◌+◌, slice_get, vec_capacity};
ghost use Rattle.text_lexer.specs.Reading.{Gives, line_view};
ghost use Rattle.trace_reader.specs.Grammar.{nothing};
ghost use Rattle.trace_reader.specs.Reading.{HasRoomForWords, StaysIfBad, so_far};
ghost use Rattle.trace_reader.specs.Values.{AreNumbered};
ghost use Rattle.live_session.specs.Asking.{asked_of, asked_of_new};
ghost use Rattle.live_session.specs.Internal.Lacking.{MayBeKept};

use crate::own_lines::{beyond, is_fork_line, is_new, is_query_line, list_read, query_of};
use std::alloc::Global;
use text_lexer::{CallError, Cause, RawLine, set_words, text_of};
use trace_reader::{TraceBuilder, TraceLine};

/// What a line asks for.
#[derive(Clone, Copy, Debug, PartialEq, Eq)]
pub(crate) enum Asked {
    /// Nothing: it is a header, a setting, a comment or blank.
    Nothing,
    /// The list of areas, for which the lines of the trace have no room.
    Areas(TraceLine),
    /// An operation.
    Operation(TraceLine),
    /// The first area that ends above an address, in bytes.
    Query(u64),
    /// The end of the address space, and another.
    New,
}

/// What the lines of a session say since the last `new`.
#[derive(Debug, Drop)]
pub(crate) struct Says {
    /// The lines as those of a trace.
    pub(crate) builder: TraceBuilder,
    /// The number of the last line: 0 before the header.
    pub(crate) count: u64,
}

impl Says {
    /// Before the first line.
    pub(crate) fn new(alloc: Global) -> Says
        ensures lines { so_far result.builder ≡ nothing }
        ensures count { result.count ≡ 0 }
    {
        Says {
            builder: TraceBuilder::new(alloc),
            count: 0,
        }
    }

    /// What a line asks for behind the lines so far, which say with it what it adds to a trace. A bad line adds nothing, and has its cause.
    /// Its words come into `words`. Where that has room for them, memory runs out only for a line that a trace keeps.
    #[tactic(auto, unfolding(crate::specs::Asking::asked_of, crate::specs::Asking::asked_by_words))]
    pub(crate) fn ask<'a>(
        &mut self,
        alloc: Global,
        words: &mut Vec<&'a str>,
        line: &RawLine<'a>,
    ) -> Result<Asked, CallError>
        requires { AreNumbered (so_far self.old.builder).lines }
        ensures asked { Gives (λ asked. (asked, so_far self.new.builder)) result
            (asked_of (so_far self.old.builder) (line_view line.now)) }
        ensures kept { StaysIfBad result (so_far self.old.builder) (so_far self.new.builder) }
        ensures count { self.new.count ≡ self.old.count }
        ensures memory { HasRoomForWords (vec_capacity words.old) (line_view line.now) → result ≡ Err CallError.NoMemory
            → MayBeKept (asked_of (so_far self.old.builder) (line_view line.now)) }
    {
        let text = text_of(line)?;
        set_words(words, text)?;
        if is_new(words.as_slice()) {
            return Ok(Asked::New);
        }
        if is_query_line(line.number, words.as_slice()) {
            return Ok(Asked::Query(query_of(words.as_slice())?));
        }
        if is_fork_line(line.number, words.as_slice()) {
            return Err(CallError::Bad(Cause::Child));
        }
        let list = list_read(line.number, words.as_slice());
        let before = self.builder.lines().len();
        match self.builder.add(alloc, words, line) {
            Ok(()) => Ok(self.added(before)),
            Err(CallError::Bad(cause)) => Ok(beyond(cause, list)?),
            Err(CallError::NoMemory) => Err(CallError::NoMemory),
        }
    }

    /// What a line asked for behind this many operations: the one that it added, if it added one.
    fn added(&self, before: usize) -> Asked
        ensures { result ≡ asked_of_new (slice_get (so_far self.now.builder).lines before) }
    {
        match self.builder.lines().get(before) {
            Some(line) => Asked::Operation(*line),
            None => Asked::Nothing,
        }
    }
}
