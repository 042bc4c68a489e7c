ghost use Rattle.std.specs.Prelude.{◌≡◌, ◌<◌, ◌≤◌, ◌^◌, ◌↔◌, IfOk, IsTrue, length};
ghost use Rattle.grace_core.specs.Core.{pin_at, is_free_row, waits, root_of};
ghost use Rattle.grace_core.specs.Facts.{GraceFacts};
ghost use Rattle.grace_core.specs.States.{grace_opening, HasReader, HasRow};

use crate::protocol::GraceProtocol;
use mm_types::{NoMemory, Row};
use std::alloc::Global;
use std::marker::Model;

/// A state of the grace protocol, in which each row has one word.
#[derive(Debug, Drop)]
pub struct GraceState {
    pub(crate) protocol: GraceProtocol,
}

impl Model for GraceState {
    ghost use Rattle.grace_core.specs.Core.{GraceCore};

    ghost Value = { GraceCore };

    ghost use Rattle.grace_core.specs.Internal.Kept.{IsGraceKept};

    ghost view = { λ state. state.protocol };

    ghost invariant = { IsGraceKept };
}

impl GraceState {
    /// The state before anything happened, with so many readers, which are closed, and rows, both numbered from 0: tree 0
    /// has row 0 alone, and every word is 0.
    pub fn new(alloc: Global, readers: u32, rows: u32) -> Result<GraceState, NoMemory>
        requires readers { readers < 2 ^ 31 }
        requires rows { 0 < rows }
        ensures { IfOk result (λ state. state ≡ grace_opening readers rows) }
    {
        let protocol = GraceProtocol::new(alloc, readers, rows)?;
        Ok(GraceState { protocol })
    }

    /// The number of the present tree. Of every state the four facts hold.
    pub fn tree(&self) -> u64
        ensures tree { result ≡ self.now.writer_state.tree.number }
        ensures facts { GraceFacts self.now }
    {
        self.protocol.writer_state().tree().number()
    }

    /// The root of the present tree.
    pub fn root(&self) -> Row
        ensures { result.0 ≡ root_of self.now.writer_state.tree }
    {
        self.protocol.writer_state().tree().root()
    }

    /// How many readers were made.
    pub fn readers(&self) -> u32
        ensures readers { result ≡ length self.now.pins }
        ensures few { result ≤ 2 ^ 31 }
    {
        self.protocol.readers() as u32
    }

    /// How many rows there are.
    pub fn rows(&self) -> u32
        ensures { result ≡ length self.now.writer_state.words }
    {
        self.protocol.writer_state().rows()
    }

    /// Whether this is a reader: one that was made, and was not joined away.
    pub fn has_reader(&self, reader: u32) -> bool
        ensures { IsTrue result ↔ HasReader self.now reader }
    {
        !self.protocol.writer_state().clearing(reader).joined
    }

    /// A reader's pin.
    pub fn pin(&self, reader: u32) -> u64
        requires { HasReader self.now reader }
        ensures { result ≡ pin_at self.now.pins reader }
    {
        self.protocol.pin(reader)
    }

    /// Whether a row is free.
    pub fn is_free(&self, row: Row) -> bool
        requires { HasRow self.now row.0 }
        ensures { result ≡ is_free_row self.now.writer_state row.0 }
    {
        self.protocol.writer_state().is_free(row)
    }

    /// Whether a row waits.
    pub fn waits(&self, row: Row) -> bool
        requires { HasRow self.now row.0 }
        ensures { result ≡ waits self.now.writer_state row.0 }
    {
        self.protocol.writer_state().waits(row)
    }
}
