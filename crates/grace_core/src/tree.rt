//! A tree as it was published.

ghost use Rattle.std.specs.Prelude.{◌≡◌, ◌<◌, All, IfOk, slice_index, length};
ghost use Rattle.grace_core.specs.Core.{has_row, root_of, row_at, numbers_of};
ghost use Rattle.grace_core.specs.Internal.Trees.{rows_of_words, AreMarks};
ghost use Rattle.grace_core.specs.Steps.{leaves_out};

use mm_types::{NoMemory, Row};
use std::alloc::Global;
use std::marker::Model;

/// A tree with its number, its rows, and the words that all rows had when it was published.
#[derive(Debug, Drop)]
pub struct GraceTree {
    number: u64,
    /// Its rows, the root first.
    rows: Vec<Row>,
    words: Vec<u64>,
    /// Whether it has each row.
    marks: Vec<bool>,
}

impl Model for GraceTree {
    ghost use Rattle.grace_core.specs.Core.{GraceTreeView};

    ghost Value = { GraceTreeView };

    ghost use Rattle.grace_core.specs.Internal.Trees.{grace_tree_of, AreRowsMarked};

    ghost view = { grace_tree_of };

    ghost invariant = { AreRowsMarked };
}

/// For each of so many rows, whether it is among these.
fn marked(alloc: Global, count: usize, rows: &[Row]) -> Result<Vec<bool>, NoMemory>
    requires { All (λ row. row.0 < count) rows.now }
    ensures { IfOk result (λ marks. AreMarks marks.items rows.now) }
{
    let mut marks = vec![in alloc; false; count]?;
    for row in rows {
        marks[row.0 as usize] = true;
    }
    Ok(marks)
}

impl GraceTree {
    /// The tree of this number and these rows, where all rows have these words.
    pub(crate) fn of(
        alloc: Global,
        number: u64,
        rows: Vec<Row>,
        words: &[u64],
    ) -> Result<GraceTree, NoMemory>
        requires { All (λ row. row.0 < length words.now) rows.items }
        ensures { IfOk result (λ tree. tree ≡ record { number = number; rows = numbers_of rows.items; words = rows_of_words words.now }) }
    {
        let marks = marked(alloc, words.len(), rows.as_slice())?;
        let words = Vec::from_slice(alloc, words)?;
        Ok(GraceTree {
            number,
            rows,
            words,
            marks,
        })
    }

    /// The same tree once more.
    pub(crate) fn copy(&self) -> Result<GraceTree, NoMemory>
        ensures { IfOk result (λ tree. tree ≡ self.now) }
    {
        let alloc = *self.words.allocator();
        Ok(GraceTree {
            number: self.number,
            rows: Vec::from_slice(alloc, self.rows.as_slice())?,
            words: Vec::from_slice(alloc, self.words.as_slice())?,
            marks: Vec::from_slice(alloc, self.marks.as_slice())?,
        })
    }

    /// Its number.
    pub(crate) fn number(&self) -> u64
        ensures { result ≡ self.now.number }
    {
        self.number
    }

    /// Its root.
    pub(crate) fn root(&self) -> Row
        ensures { result.0 ≡ root_of self.now }
    {
        self.rows.first().copied().unwrap_or(Row(0))
    }

    /// Whether it has a row.
    pub(crate) fn has(&self, row: Row) -> bool
        ensures { result ≡ has_row self.now row.0 }
    {
        self.marks.get(row.0 as usize).copied().unwrap_or(false)
    }

    /// The word that a row had when the tree was published.
    pub(crate) fn word(&self, row: Row) -> u64
        ensures { result ≡ slice_index (row_at self.now.words row.0) 0 }
    {
        self.words.get(row.0 as usize).copied().unwrap_or(0)
    }

    /// Whether it leaves out a row of an older tree.
    pub(crate) fn leaves_out(&self, old: &GraceTree, row: Row) -> bool
        ensures { result ≡ leaves_out old.now self.now row.0 }
    {
        old.has(row) && !self.has(row)
    }
}
