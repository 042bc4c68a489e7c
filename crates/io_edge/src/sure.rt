//! A source and a sink over memory that never fail.
ghost use Rattle.std.specs.Prelude.{◌≡◌, ◌<◌, ◌≤◌, ℕ, false, List, [], min, length, drop, Some, Ok, IfOk, IfErr};
ghost use Rattle.std.specs.Io.{ReadsAtMost, WritesAtMost};
ghost use Rattle.std.specs.Io.KnownBytes.{ReadConsumes, WriteAppends};
ghost use Rattle.io_edge.specs.Edge.{HasCause, HasGiveCause, TellsFault, TellsGiveFault};
ghost use Rattle.io_edge.specs.declared.error.GiveError.TheVariants.{NoMemory};

use crate::piece::fill_piece;
use crate::{Failed, GiveError, Sink, Source};
use std::alloc::Global;
use std::marker::Model;

/// A source over bytes in memory, which never fails. A clause sees the bytes that are left.
#[derive(Debug, Drop)]
pub struct SureSource {
    bytes: Vec<u8>,
    at: usize,
}

impl Model for SureSource {
    ghost Value = { List ℕ };

    ghost view = { λ source. drop source.at source.bytes.items };

    ghost invariant = { λ source. source.at ≤ length source.bytes.items };
}

impl SureSource {
    /// A source with all of these bytes left.
    pub fn new(bytes: Vec<u8>) -> SureSource
        ensures { result ≡ bytes.items }
    {
        SureSource { bytes, at: 0 }
    }
}

impl Source for SureSource {
    ghost seen = { λ source. record { left = Some source; faults = 0; just_failed = Some false } };

    /// Moves as many bytes as the piece holds, or all that are left.
    fn take(&mut self, into: &mut [u8]) -> Result<usize, Failed>
        ensures bound { ReadsAtMost result into.new }
        ensures bytes { ReadConsumes (Some self.old) (Some self.new) result into.new }
        ensures cause { HasCause 0 0 result }
        ensures told { TellsFault (Some false) result }
        ensures count { result ≡ Ok (min (length self.old) (length into.old)) }
        ensures rest { IfOk result (λ count. drop count into.new ≡ drop count into.old) }
    {
        let count = fill_piece(self.bytes.as_slice(), self.at, usize::MAX, into);
        self.at += count;
        Ok(count)
    }
}

/// A sink that keeps its bytes in memory and never answers `Failed`. A clause sees the bytes that were written.
#[derive(Debug, Drop)]
pub struct SureSink {
    bytes: Vec<u8>,
}

impl Model for SureSink {
    ghost Value = { List ℕ };

    ghost view = { λ sink. sink.bytes.items };
}

impl SureSink {
    /// A sink to which nothing was written. It allocates when bytes come.
    pub fn new(alloc: Global) -> SureSink
        ensures { result ≡ [] }
    {
        SureSink {
            bytes: Vec::new(alloc),
        }
    }

    /// The bytes that were written.
    pub fn bytes(&self) -> &[u8]
        ensures { result.now ≡ self.now }
    {
        self.bytes.as_slice()
    }
}

impl Sink for SureSink {
    ghost seen = { λ sink. record { written = Some sink; faults = 0; just_failed = Some false } };

    /// Takes the whole piece, or answers that it is out of memory and takes nothing.
    fn give(&mut self, piece: &[u8]) -> Result<usize, GiveError>
        ensures bound { WritesAtMost result piece.now }
        ensures some { IfOk result (λ count. 0 < length piece.now → 0 < count) }
        ensures bytes { WriteAppends (Some self.old) (Some self.new) result piece.now }
        ensures cause { HasGiveCause 0 0 result }
        ensures told { TellsGiveFault (Some false) result }
        ensures whole { IfOk result (λ count. count ≡ length piece.now) }
        ensures error { IfErr result (λ fault. fault ≡ NoMemory) }
    {
        self.bytes.extend_from_slice(piece)?;
        Ok(piece.len())
    }
}
