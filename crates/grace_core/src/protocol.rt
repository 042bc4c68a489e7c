ghost use Rattle.std.specs.Prelude.{◌≡◌, ◌<◌, All, IfOk, MatchResult, length};
ghost use Rattle.grace_core.specs.Core.{pin_at, snapshot_at, is_open, numbers_of};
ghost use Rattle.grace_core.specs.Events.{snapshot_word, after_open, after_root, after_close, after_fill, after_publish, after_scan, after_grace_split, after_grace_join};
ghost use Rattle.grace_core.specs.Refusals.{shows};
ghost use Rattle.grace_core.specs.States.{grace_opening};

use crate::tree::GraceTree;
use crate::writer_state::GraceWriter;
use mm_types::{NoMemory, Row};
use std::alloc::Global;
use std::marker::Model;

/// The events, without their refusals.
#[derive(Debug, Drop)]
pub(crate) struct GraceProtocol {
    writer_state: GraceWriter,
    pins: Vec<u64>,
    /// The tree whose root each reader loaded last since it opened.
    snapshots: Vec<Option<GraceTree>>,
}

impl Model for GraceProtocol {
    ghost use Rattle.grace_core.specs.Core.{GraceCore};

    ghost Value = { GraceCore };

    ghost use Rattle.grace_core.specs.Internal.Kept.{grace_core_of};

    ghost view = { grace_core_of };
}

impl GraceProtocol {
    /// The state before anything happened.
    pub(crate) fn new(alloc: Global, readers: u32, rows: u32) -> Result<GraceProtocol, NoMemory>
        requires { 0 < rows }
        ensures { IfOk result (λ state. state ≡ grace_opening readers rows) }
    {
        let mut snapshots = Vec::new(alloc);
        for _ in 0..readers {
            snapshots.push(None)?;
        }
        Ok(GraceProtocol {
            writer_state: GraceWriter::new(alloc, readers, rows)?,
            pins: vec![in alloc; 0; readers as usize]?,
            snapshots,
        })
    }

    /// What the writer knows.
    pub(crate) fn writer_state(&self) -> &GraceWriter
        ensures { result.now ≡ self.now.writer_state }
    {
        &self.writer_state
    }

    /// How many readers were made.
    pub(crate) fn readers(&self) -> usize
        ensures { result ≡ length self.now.pins }
    {
        self.pins.len()
    }

    /// A reader's pin.
    pub(crate) fn pin(&self, reader: u32) -> u64
        ensures { result ≡ pin_at self.now.pins reader }
    {
        self.pins.get(reader as usize).copied().unwrap_or(0)
    }

    /// Whether a reader is open.
    pub(crate) fn is_open(&self, reader: u32) -> bool
        ensures { result ≡ is_open (pin_at self.now.pins reader) }
    {
        self.pin(reader) % 2 == 1
    }

    /// Whether a reader's snapshot has a row.
    pub(crate) fn shows(&self, reader: u32, row: Row) -> bool
        ensures { result ≡ shows (snapshot_at self.now.snapshots reader) row.0 }
    {
        match self.snapshots.get(reader as usize) {
            Some(Some(tree)) => tree.has(row),
            _ => false,
        }
    }

    /// The word that a row has in a reader's snapshot.
    pub(crate) fn word(&self, reader: u32, row: Row) -> u64
        ensures { result ≡ snapshot_word (snapshot_at self.now.snapshots reader) row.0 }
    {
        match self.snapshots.get(reader as usize) {
            Some(Some(tree)) => tree.word(row),
            _ => 0,
        }
    }

    /// Makes a reader's pin odd.
    pub(crate) fn open(&mut self, reader: u32)
        requires { reader < length self.old.pins }
        ensures { self.new ≡ after_open self.old reader }
    {
        let pin = self.pin(reader);
        self.pins[reader as usize] = pin.wrapping_add(1);
    }

    /// Loads the root of the present tree.
    pub(crate) fn root(&mut self, reader: u32) -> Result<(), NoMemory>
        requires { reader < length self.old.snapshots }
        ensures { MatchResult result (λ _. self.new ≡ after_root self.old reader) (λ _. self.new ≡ self.old) }
    {
        let tree = self.writer_state.tree().copy()?;
        self.snapshots[reader as usize] = Some(tree);
        Ok(())
    }

    /// Makes a reader's pin even, and ends its snapshot.
    pub(crate) fn close(&mut self, reader: u32)
        requires pins { reader < length self.old.pins }
        requires snapshots { reader < length self.old.snapshots }
        ensures { self.new ≡ after_close self.old reader }
    {
        let pin = self.pin(reader);
        self.pins[reader as usize] = pin.wrapping_add(1);
        self.snapshots[reader as usize] = None;
    }

    /// Stores the word of a row.
    pub(crate) fn fill(&mut self, row: Row, word: u64)
        requires { row.0 < length self.old.writer_state.words }
        ensures { self.new ≡ after_fill self.old row.0 word }
    {
        self.writer_state.fill(row, word);
    }

    /// Makes the tree of this number and these rows the present one.
    pub(crate) fn publish(&mut self, number: u64, rows: Vec<Row>) -> Result<(), NoMemory>
        requires { All (λ row. row.0 < length self.old.writer_state.words) rows.items }
        ensures { MatchResult result (λ _. self.new ≡ after_publish self.old number (numbers_of rows.items)) (λ _. self.new ≡ self.old) }
    {
        self.writer_state.publish(number, rows)
    }

    /// Finds a reader's pin.
    pub(crate) fn scan(&mut self, reader: u32)
        requires { reader < length self.old.writer_state.clearings }
        ensures { self.new ≡ after_scan self.old reader }
    {
        let pin = self.pin(reader);
        self.writer_state.scan(reader, pin);
    }

    /// Makes one reader more.
    pub(crate) fn split(&mut self) -> Result<(), NoMemory>
        ensures { MatchResult result (λ _. self.new ≡ after_grace_split self.old) (λ _. self.new ≡ self.old) }
    {
        let (pins, snapshots) = (self.pins.len(), self.snapshots.len());
        self.pins.push(0)?;
        let pushed = self.snapshots.push(None).is_ok();
        if pushed && self.writer_state.split().is_ok() {
            return Ok(());
        }
        self.pins.truncate(pins);
        self.snapshots.truncate(snapshots);
        Err(NoMemory)
    }

    /// No longer counts a reader.
    pub(crate) fn join(&mut self, reader: u32)
        requires { reader < length self.old.writer_state.clearings }
        ensures { self.new ≡ after_grace_join self.old reader }
    {
        self.writer_state.join(reader);
    }
}
