//! Standard input and output, each with a count of its failures. A read or a write that a signal interrupted is tried again. A clause
//! sees of their bytes what the reader and the writer below them tell: the system's own tell nothing.
ghost use Rattle.std.specs.Prelude.{◌≡◌, ◌↔◌, ◌<◌, length, false, true, Some, IfOk, IfErr, OnErr, IsErr, IsErrAnd, IsTrue, MatchResult};
ghost use Rattle.std.specs.Io.{ReadsAtMost, WritesAtMost};
ghost use Rattle.std.specs.Io.KnownBytes.{ReadConsumes, WriteAppends};
ghost use Rattle.std.specs.IoError.{error_kind};
ghost use Rattle.io_edge.specs.Edge.{HasCause, HasGiveCause, TellsFault, TellsGiveFault, counted};
ghost use Rattle.io_edge.specs.declared.error.GiveError.TheVariants.{Failed as failed};

use crate::{Failed, GiveError, Sink, Source};
use std::io::{self, ErrorKind, Read, Write};
use std::marker::Model;

/// How the calls of a reader or a writer ended so far.
#[derive(Drop)]
struct Calls {
    /// How many were a fault, up to 2^64 - 1.
    faults: u64,
    /// Whether the last call was one.
    just_failed: bool,
}

impl Calls {
    /// Before the first call.
    fn new() -> Calls
        ensures { result ≡ record { faults = 0; just_failed = false } }
    {
        Calls {
            faults: 0,
            just_failed: false,
        }
    }

    /// Counts a call. An error is one fault.
    fn count(&mut self, ended: io::Result<usize>) -> Result<usize, Failed>
        ensures ended { MatchResult ended (λ count. result ≡ Ok count) (λ _. IsErr result) }
        ensures cause { HasCause self.old.faults self.new.faults result }
        ensures told { TellsFault (Some self.new.just_failed) result }
    {
        match ended {
            Ok(count) => {
                self.just_failed = false;
                Ok(count)
            }
            Err(_) => {
                self.just_failed = true;
                self.faults = self.faults.saturating_add(1);
                Err(Failed)
            }
        }
    }
}

/// A reader as a source, as that of standard input. It reads as read(2) does, and keeps no buffer. A clause sees the
/// reader, the count of faults, and whether the last call failed.
#[derive(Drop)]
pub struct StdSource<I> {
    input: I,
    calls: Calls,
}

impl<I> Model for StdSource<I> {
    ghost use Rattle.io_edge.specs.Standard.{Stream, stream_of};

    ghost Value = { Stream I };

    ghost view = { λ source. stream_of source.input source.calls };
}

impl<I: Read + Drop> StdSource<I> {
    /// This reader as it is, with no fault so far.
    pub fn new(input: I) -> StdSource<I>
        ensures { result ≡ record { end = input; faults = 0; just_failed = false } }
    {
        StdSource {
            input,
            calls: Calls::new(),
        }
    }
}

impl<I: Read + Drop> Source for StdSource<I> {
    ghost seen = { λ source. record { left = I.remaining source.end; faults = source.faults; just_failed = Some source.just_failed } };

    /// One read, which is tried again as often as a signal interrupts it, up to 2^64 - 1 times. Each other error is one fault.
    fn take(&mut self, into: &mut [u8]) -> Result<usize, Failed>
        ensures bound { ReadsAtMost result into.new }
        ensures bytes { ReadConsumes (I.remaining self.old.end) (I.remaining self.new.end) result into.new }
        ensures cause { HasCause self.old.faults self.new.faults result }
        ensures told { TellsFault (Some self.new.just_failed) result }

        ensures faults { OnErr result (self.new.faults ≡ counted self.old.faults) }
    {
        let ended = read_again(&mut self.input, into);
        self.calls.count(ended)
    }
}

/// A writer as a sink, as that of standard output. It writes as write(2) does, and keeps no buffer: what it took has
/// left the program. A clause sees the writer and how its calls ended, as of a source.
#[derive(Drop)]
pub struct StdSink<W> {
    output: W,
    calls: Calls,
}

impl<W> Model for StdSink<W> {
    ghost use Rattle.io_edge.specs.Standard.{Stream, stream_of};

    ghost Value = { Stream W };

    ghost view = { λ sink. stream_of sink.output sink.calls };
}

impl<W: Write + Drop> StdSink<W> {
    /// This writer as it is, with no fault so far.
    pub fn new(output: W) -> StdSink<W>
        ensures { result ≡ record { end = output; faults = 0; just_failed = false } }
    {
        StdSink {
            output,
            calls: Calls::new(),
        }
    }
}

impl<W: Write + Drop> Sink for StdSink<W> {
    ghost seen = { λ sink. record { written = W.contents sink.end; faults = sink.faults; just_failed = Some sink.just_failed } };

    /// One write, which is tried again as often as a signal interrupts it, up to 2^64 - 1 times. Each other error, and a write of no
    /// byte of a piece that is not empty, is one fault.
    fn give(&mut self, piece: &[u8]) -> Result<usize, GiveError>
        ensures bound { WritesAtMost result piece.now }
        ensures some { IfOk result (λ count. 0 < length piece.now → 0 < count) }
        ensures bytes { WriteAppends (W.contents self.old.end) (W.contents self.new.end) result piece.now }
        ensures cause { HasGiveCause self.old.faults self.new.faults result }
        ensures told { TellsGiveFault (Some self.new.just_failed) result }

        ensures error { IfErr result (λ fault. fault ≡ failed) }
        ensures faults { OnErr result (self.new.faults ≡ counted self.old.faults) }
    {
        let ended = write_again(&mut self.output, piece);
        match self.calls.count(ended) {
            Ok(count) => Ok(count),
            Err(Failed) => Err(GiveError::Failed),
        }
    }
}

/// Whether a signal interrupted a try. Only then is it tried again.
fn is_interrupted(ended: &io::Result<usize>) -> bool
    ensures { IsTrue result ↔ IsErrAnd ended.now (λ error. error_kind error ≡ ErrorKind.Interrupted) }
{
    match ended {
        Ok(_) => false,
        Err(error) => error.kind() == ErrorKind::Interrupted,
    }
}

/// One read, tried again as often as a signal interrupts it, up to 2^64 - 1 times, and at no other error: what a read that would block
/// gives is a fault, since nobody here could wait for it.
fn read_again<I: Read>(input: &mut I, into: &mut [u8]) -> io::Result<usize>
    ensures bound { ReadsAtMost result into.new }
    ensures bytes { ReadConsumes (I.remaining input.old) (I.remaining input.new) result into.new }
{
    let mut ended = input.read(into);
    for _ in 0..u64::MAX {
        if !is_interrupted(&ended) {
            return ended;
        }
        ended = input.read(into);
    }
    ended
}

/// One write, tried again in the same way. A write of no byte of a piece that is not empty is an error.
fn write_again<W: Write>(output: &mut W, piece: &[u8]) -> io::Result<usize>
    ensures bound { WritesAtMost result piece.now }
    ensures some { IfOk result (λ count. 0 < length piece.now → 0 < count) }
    ensures bytes { WriteAppends (W.contents output.old) (W.contents output.new) result piece.now }
{
    let mut ended = write_some(output, piece);
    for _ in 0..u64::MAX {
        if !is_interrupted(&ended) {
            return ended;
        }
        ended = write_some(output, piece);
    }
    ended
}

/// One write. One of no byte of a piece that is not empty is an error.
fn write_some<W: Write>(output: &mut W, piece: &[u8]) -> io::Result<usize>
    ensures bound { WritesAtMost result piece.now }
    ensures some { IfOk result (λ count. 0 < length piece.now → 0 < count) }
    ensures bytes { WriteAppends (W.contents output.old) (W.contents output.new) result piece.now }
{
    match output.write(piece) {
        Ok(0) if !piece.is_empty() => Err(io::Error::from(ErrorKind::WriteZero)),
        ended => ended,
    }
}

#[cfg(test)]
mod tests;
