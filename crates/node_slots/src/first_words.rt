//! The words from which new tables are copied. They are zeros but for the first, so tables of other crates can be copied from the
//! same ones.
ghost use Rattle.std.specs.Prelude.{◌≡◌, ◌≤◌, IfOk, replicate, slice_set};
ghost use Rattle.node_slots.specs.Opening.{most_words};

use crate::places::word_count;
use mm_types::NoMemory;
use std::alloc::Global;
use std::marker::Model;

/// The readers that a table has at most: as many as a trace may have threads.
const MOST_READERS: u32 = 64;

/// Words that are zeros but for the first, for new tables to be copied from.
#[derive(Drop)]
pub struct FirstWords {
    words: Vec<u64>,
}

impl Model for FirstWords {
    ghost use Rattle.std.specs.Prelude.{length, slice_index};
    ghost use Rattle.node_slots.specs.Opening.{FirstView, HasZeros};

    ghost Value = { FirstView };

    ghost view = { λ words. record { count = length words.words.items; first = slice_index words.words.items 0 } };

    ghost invariant = { λ words. HasZeros words.words.items };
}

impl FirstWords {
    /// The words for a table of so many rows and up to 64 readers.
    pub fn new(alloc: Global, rows: u32) -> Result<FirstWords, NoMemory>
        ensures { IfOk result (λ words. words ≡ record { count = most_words rows; first = 0 }) }
    {
        let words = vec![in alloc; 0; word_count(rows, MOST_READERS)]?;
        Ok(FirstWords { words })
    }

    /// Sets the first word.
    pub fn set_first(&mut self, first: u64)
        ensures { self.new ≡ record self.old { first = first } }
    {
        self.words[0] = first;
    }

    /// So many of them.
    pub fn take(&self, count: usize) -> &[u64]
        requires { count ≤ self.now.count }
        ensures { result.now ≡ slice_set (replicate count 0) 0 self.now.first }
    {
        &self.words[..count]
    }
}
