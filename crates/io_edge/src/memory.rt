//! A source and a sink over memory that fail at chosen calls and move few bytes at a call: for tests of how a
//! caller bears faults and short moves.
ghost use Rattle.std.specs.Prelude.{◌≡◌, ◌↔◌, ◌<◌, ◌≤◌, ℕ, false, List, [], min, length, drop, Contains, Some, IfOk, OnErr, IsErr, IsErrOf};
ghost use Rattle.std.specs.Io.{ReadsAtMost, WritesAtMost};
ghost use Rattle.std.specs.Io.KnownBytes.{ReadConsumes, WriteAppends};
ghost use Rattle.io_edge.specs.Edge.{HasCause, HasGiveCause, TellsFault, TellsGiveFault, counted};
ghost use Rattle.io_edge.specs.Memory.{Failing, CountsCall};
ghost use Rattle.io_edge.specs.declared.error.GiveError.TheVariants.{Failed as failed};

use crate::piece::fill_piece;
use crate::schedule::FailureSchedule;
use crate::{Failed, GiveError, Sink, Source};
use std::alloc::Global;
use std::marker::Model;

/// The most bytes that one call of a `MemSource` or a `MemSink` moves.
pub const MOST_AT_A_CALL: usize = 64;

/// A source over bytes in memory, which fails at the calls whose numbers, counted from 0, are in a list, and
/// moves at most `MOST_AT_A_CALL` bytes at any other. Each call counts, one with an empty piece too. The call
/// after number 2^64 - 1 has that number again.
#[derive(Debug, Drop)]
pub struct MemSource {
    bytes: Vec<u8>,
    at: usize,
    schedule: FailureSchedule,
}

impl Model for MemSource {
    ghost Value = { Failing };

    ghost view = { λ source. record {
      bytes = drop source.at source.bytes.items;
      fail = source.schedule.fail.items;
      calls = source.schedule.calls;
      faults = source.schedule.faults;
      just_failed = source.schedule.just_failed;
    } };

    ghost invariant = { λ source. source.at ≤ length source.bytes.items };
}

impl MemSource {
    /// A source with all of these bytes left, which fails at the calls with these numbers.
    pub fn new(bytes: Vec<u8>, fail: Vec<u64>) -> MemSource
        ensures { result ≡ record { bytes = bytes.items; fail = fail.items; calls = 0; faults = 0; just_failed = false } }
    {
        MemSource {
            bytes,
            at: 0,
            schedule: FailureSchedule::new(fail),
        }
    }
}

impl Source for MemSource {
    ghost seen = { λ source. record { left = Some source.bytes; faults = source.faults; just_failed = Some source.just_failed } };

    /// Fails at a call in the list. Else moves as many bytes as the piece holds or all that are left, and at
    /// most `MOST_AT_A_CALL`.
    fn take(&mut self, into: &mut [u8]) -> Result<usize, Failed>
        ensures bound { ReadsAtMost result into.new }
        ensures bytes { ReadConsumes (Some self.old.bytes) (Some self.new.bytes) result into.new }
        ensures cause { HasCause self.old.faults self.new.faults result }
        ensures told { TellsFault (Some self.new.just_failed) result }

        ensures fails { IsErr result ↔ Contains self.old.fail self.old.calls }
        ensures count { IfOk result (λ k. k ≡ min MOST_AT_A_CALL (min (length self.old.bytes) (length into.old))) }
        ensures rest { IfOk result (λ count. drop count into.new ≡ drop count into.old) }
        ensures calls { CountsCall self.old self.new }
        ensures faults { OnErr result (self.new.faults ≡ counted self.old.faults) }
        ensures error { OnErr result (into.new ≡ into.old) }
    {
        if self.schedule.is_fault() {
            return Err(Failed);
        }
        let count = fill_piece(self.bytes.as_slice(), self.at, MOST_AT_A_CALL, into);
        self.at += count;
        Ok(count)
    }
}

/// A sink that keeps its bytes in memory, fails at the calls whose numbers, counted from 0, are in a list, and
/// takes at most `MOST_AT_A_CALL` bytes at any other. Each call counts, one with an empty piece and one that
/// runs out of memory too. The call after number 2^64 - 1 has that number again.
#[derive(Debug, Drop)]
pub struct MemSink {
    bytes: Vec<u8>,
    schedule: FailureSchedule,
}

impl Model for MemSink {
    ghost Value = { Failing };

    ghost view = { λ sink. record {
      bytes = sink.bytes.items;
      fail = sink.schedule.fail.items;
      calls = sink.schedule.calls;
      faults = sink.schedule.faults;
      just_failed = sink.schedule.just_failed;
    } };
}

impl MemSink {
    /// A sink to which nothing was written, which fails at the calls with these numbers. It allocates when bytes
    /// come.
    pub fn new(alloc: Global, fail: Vec<u64>) -> MemSink
        ensures { result ≡ record { bytes = []; fail = fail.items; calls = 0; faults = 0; just_failed = false } }
    {
        MemSink {
            bytes: Vec::new(alloc),
            schedule: FailureSchedule::new(fail),
        }
    }

    /// The bytes that were written.
    pub fn bytes(&self) -> &[u8]
        ensures { result.now ≡ self.now.bytes }
    {
        self.bytes.as_slice()
    }
}

impl Sink for MemSink {
    ghost seen = { λ sink. record { written = Some sink.bytes; faults = sink.faults; just_failed = Some sink.just_failed } };

    /// Fails at a call in the list. Else takes the piece, or of a longer one its first `MOST_AT_A_CALL` bytes, or
    /// answers that it is out of memory and takes nothing.
    fn give(&mut self, piece: &[u8]) -> Result<usize, GiveError>
        ensures bound { WritesAtMost result piece.now }
        ensures some { IfOk result (λ count. 0 < length piece.now → 0 < count) }
        ensures bytes { WriteAppends (Some self.old.bytes) (Some self.new.bytes) result piece.now }
        ensures cause { HasGiveCause self.old.faults self.new.faults result }
        ensures told { TellsGiveFault (Some self.new.just_failed) result }

        ensures fails { IsErrOf result failed ↔ Contains self.old.fail self.old.calls }
        ensures count { IfOk result (λ count. count ≡ min MOST_AT_A_CALL (length piece.now)) }
        ensures calls { CountsCall self.old self.new }
        ensures faults { IsErrOf result failed → self.new.faults ≡ counted self.old.faults }
    {
        if self.schedule.is_fault() {
            return Err(GiveError::Failed);
        }
        let count = piece.len().min(MOST_AT_A_CALL);
        self.bytes.extend_from_slice(&piece[..count])?;
        Ok(count)
    }
}
