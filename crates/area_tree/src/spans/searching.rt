//! Searches of a tree of spans and slots: free pages, and the areas beside a page. Each reads at most 30 rows, on the count that it is
//! handed: it has no leave to begin another.
ghost use Rattle.std.specs.Prelude.{◌≡◌, ◌≤◌, ◌+◌, MatchOption};
ghost use Rattle.mm_types.specs.Searches.{IsGreatest, IsLeast, NonePasses};
ghost use Rattle.maple_gap.specs.Gaps.{fits, first_pair_from, last_pair_before, slot_in};

use super::SpanTree;
use maple_gap::{before_slot, highest, lowest, next_slot};
use mm_types::{Page, Slot};
use node_slots::Reads;

impl SpanTree {
    /// The greatest start of `len` pages without a slot that all lie from page `lo` up to page `hi`. None exactly where there is
    /// none.
    pub fn highest(&self, len: u64, lo: u64, hi: u64, reads: &mut Reads) -> Option<Page>
        requires some { 1 ≤ len }
        requires limit { hi ≤ self.now.limit }
        ensures start { MatchOption result (NonePasses (fits self.now.pairs len lo hi)) (λ start. IsGreatest (fits self.now.pairs len lo hi) start.0) }
        ensures reads { reads.new ≤ reads.old + 30 }
    {
        highest(&self.nodes, &self.writer, &self.tree, len, lo, hi, reads)
    }

    /// The least start of `len` pages without a slot that all lie from page `lo` up to page `hi`. None exactly where there is none.
    pub fn lowest(&self, len: u64, lo: u64, hi: u64, reads: &mut Reads) -> Option<Page>
        requires some { 1 ≤ len }
        requires limit { hi ≤ self.now.limit }
        ensures start { MatchOption result (NonePasses (fits self.now.pairs len lo hi)) (λ start. IsLeast (fits self.now.pairs len lo hi) start.0) }
        ensures reads { reads.new ≤ reads.old + 30 }
    {
        lowest(&self.nodes, &self.writer, &self.tree, len, lo, hi, reads)
    }

    /// The slot of the first pair that ends above a page. None exactly where there is none.
    pub fn next_slot(&self, page: Page, reads: &mut Reads) -> Option<Slot>
        ensures slot { result ≡ slot_in (first_pair_from self.now.pairs page.0) }
        ensures reads { reads.new ≤ reads.old + 30 }
    {
        next_slot(&self.nodes, &self.writer, &self.tree, page, reads)
    }

    /// The slot of the last pair that begins below a page. None exactly where there is none.
    pub fn before_slot(&self, page: Page, reads: &mut Reads) -> Option<Slot>
        ensures slot { result ≡ slot_in (last_pair_before self.now.pairs page.0) }
        ensures reads { reads.new ≤ reads.old + 30 }
    {
        before_slot(&self.nodes, &self.writer, &self.tree, page, reads)
    }
}
