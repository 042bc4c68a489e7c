//! What the writer knows, which nobody else changes.

ghost use Rattle.std.specs.Prelude.{◌≡◌, ◌<◌, ◌+◌, ◌^◌, nat_eq, All, find, IfOk, MatchResult, length};
ghost use Rattle.grace_core.specs.Core.{times, is_free_row, waits, since_at, clearing_at, numbers_of};
ghost use Rattle.grace_core.specs.Steps.{since_from, elapsed, filled, published, scanned, split, joined};
ghost use Rattle.grace_core.specs.Refusals.{is_unfit};
ghost use Rattle.grace_core.specs.States.{opening_writer_state};

use crate::clearing::{Clearing, NEW_CLEARING, least};
use crate::tree::GraceTree;
use mm_types::{NoMemory, Row};
use std::alloc::Global;
use std::marker::Model;

/// What stands for a reader that is none. It counts as joined, so that it holds no row back.
const NO_CLEARING: Clearing = Clearing {
    cleared: 0,
    pin: 0,
    tree: 0,
    joined: true,
};

/// What the writer knows: the present tree, the word of each row, the tree that left each row out, and what the scans of
/// each reader found.
#[derive(Debug, Drop)]
pub struct GraceWriter {
    tree: GraceTree,
    words: Vec<u64>,
    /// For each row the number of the tree whose publish left it out last, or 0.
    since: Vec<u64>,
    clearings: Vec<Clearing>,
    /// The number of the tree whose grace period has passed: every reader was cleared up to it.
    passed: u64,
}

impl Model for GraceWriter {
    ghost use Rattle.grace_core.specs.Core.{WriterState};

    ghost Value = { WriterState };

    ghost use Rattle.grace_core.specs.Internal.Trees.{writer_state_of, AreRowsNumbered};

    ghost view = { writer_state_of };

    ghost invariant = { AreRowsNumbered };
}

impl GraceWriter {
    /// The writer's state before anything happened, with so many readers and rows.
    pub(crate) fn new(alloc: Global, readers: u32, rows: u32) -> Result<GraceWriter, NoMemory>
        requires { 0 < rows }
        ensures { IfOk result (λ writer_state. writer_state ≡ opening_writer_state readers rows) }
    {
        let mut root = Vec::new(alloc);
        root.push(Row(0))?;
        let words = vec![in alloc; 0; rows as usize]?;
        Ok(GraceWriter {
            tree: GraceTree::of(alloc, 0, root, words.as_slice())?,
            words,
            since: vec![in alloc; 0; rows as usize]?,
            clearings: vec![in alloc; NEW_CLEARING; readers as usize]?,
            passed: 0,
        })
    }

    /// The present tree.
    pub(crate) fn tree(&self) -> &GraceTree
        ensures { result.now ≡ self.now.tree }
    {
        &self.tree
    }

    /// Whether this is the number after that of the present tree.
    pub(crate) fn is_next(&self, number: u64) -> bool
        ensures { result ≡ nat_eq number (self.now.tree.number + 1) }
    {
        self.tree.number().checked_add(1) == Some(number)
    }

    /// How many rows there are.
    pub(crate) fn rows(&self) -> u32
        ensures { result ≡ length self.now.words }
    {
        self.words.len() as u32
    }

    /// What the scans of a reader found.
    pub(crate) fn clearing(&self, reader: u32) -> Clearing
        ensures { result ≡ clearing_at self.now.clearings reader }
    {
        self.clearings
            .get(reader as usize)
            .copied()
            .unwrap_or(NO_CLEARING)
    }

    /// The number of the tree that left a row out last.
    fn since(&self, row: Row) -> u64
        ensures { result ≡ since_at self.now.since row.0 }
    {
        self.since.get(row.0 as usize).copied().unwrap_or(0)
    }

    /// Whether a row is free.
    pub(crate) fn is_free(&self, row: Row) -> bool
        ensures { result ≡ is_free_row self.now row.0 }
    {
        !self.tree.has(row) && self.since(row) <= self.passed
    }

    /// Whether a row waits.
    pub(crate) fn waits(&self, row: Row) -> bool
        ensures { result ≡ waits self.now row.0 }
    {
        !self.tree.has(row) && self.passed < self.since(row)
    }

    /// Whether a row cannot be published in a list of rows: it is neither free nor of the present tree, or is listed twice.
    fn is_unfit(&self, rows: &[Row], row: Row) -> bool
        ensures { result ≡ is_unfit self.now (numbers_of rows.now) row.0 }
    {
        !(self.is_free(row) || self.tree.has(row)) || times(row, rows) > 1
    }

    /// The first row of a list that cannot be published in it.
    pub(crate) fn first_unfit(&self, rows: &[Row]) -> Option<Row>
        ensures { result ≡ find (λ row. is_unfit self.now (numbers_of rows.now) row.0) rows.now }
    {
        rows.iter().copied().find(|row| self.is_unfit(rows, *row))
    }

    /// Stores the word of a row.
    pub(crate) fn fill(&mut self, row: Row, word: u64)
        requires { row.0 < length self.old.words }
        ensures { self.new ≡ filled self.old row.0 0 word }
    {
        self.words[row.0 as usize] = word;
    }

    /// Makes the tree of this number and these rows the present one.
    pub(crate) fn publish(&mut self, number: u64, rows: Vec<Row>) -> Result<(), NoMemory>
        requires { All (λ row. row.0 < length self.old.words) rows.items }
        ensures { MatchResult result (λ _. self.new ≡ published self.old number (numbers_of rows.items)) (λ _. self.new ≡ self.old) }
    {
        let alloc = *self.words.allocator();
        let tree = GraceTree::of(alloc, number, rows, self.words.as_slice())?;
        leave_out(&mut self.since, &self.tree, &tree);
        self.tree = tree;
        self.settle();
        Ok(())
    }

    /// Finds a reader's pin, which may clear the reader.
    pub(crate) fn scan(&mut self, reader: u32, pin: u64)
        requires { reader < length self.old.clearings }
        ensures { self.new ≡ scanned self.old reader pin }
    {
        let clearing = self.clearing(reader).looked(self.tree.number(), pin);
        self.clearings[reader as usize] = clearing;
        self.settle();
    }

    /// Makes one reader more.
    pub(crate) fn split(&mut self) -> Result<(), NoMemory>
        ensures { MatchResult result (λ _. self.new ≡ split self.old) (λ _. self.new ≡ self.old) }
    {
        self.clearings.push(NEW_CLEARING)?;
        Ok(())
    }

    /// No longer counts a reader.
    pub(crate) fn join(&mut self, reader: u32)
        requires { reader < length self.old.clearings }
        ensures { self.new ≡ joined self.old reader }
    {
        let clearing = self.clearing(reader);
        self.clearings[reader as usize] = Clearing {
            joined: true,
            ..clearing
        };
        self.settle();
    }

    /// Lets the grace periods pass up to which every reader is cleared.
    fn settle(&mut self)
        ensures { self.new ≡ elapsed self.old }
    {
        let least = least(self.tree.number(), self.clearings.as_slice());
        self.passed = self.passed.max(least);
    }
}

/// Lets the rows of the old tree that the new one leaves out wait since the new one.
fn leave_out(since: &mut [u64], old: &GraceTree, new: &GraceTree)
    requires { length since.old < 2 ^ 32 }
    ensures { since.new ≡ since_from 0 old.now new.now since.old }
{
    for (place, left_by) in since.iter_mut().enumerate() {
        let row = Row(place as u32);
        if new.leaves_out(old, row) {
            *left_by = new.number();
        }
    }
}

/// How often a row is listed.
fn times(row: Row, rows: &[Row]) -> usize
    ensures { result ≡ times row.0 (numbers_of rows.now) }
{
    let mut times = 0;
    for other in rows {
        if other.0 == row.0 {
            times += 1;
        }
    }
    times
}
