//! Areas that get fewer pages, or more, in one store.
ghost use Rattle.std.specs.Prelude.{◌≡◌, ◌≤◌, ◌<◌, ◌-◌, ◌∷◌, ◌&&◌, ◌||◌, nat_le, true, List, length, slice_set, Contains, IsPermutation};
ghost use Rattle.mm_types.specs.Config.{slots_for};
ghost use Rattle.area_rules.specs.Placement.{is_free};
ghost use Rattle.area_tree.specs.declared.shown.ShownArea.{ShownArea};
ghost use Rattle.area_tree.specs.AreaTrees.{shown_of, areas_of, times_shown, beside, IsEndOf, IsRoomFor};

use crate::shown::ShownArea;
use crate::tree::AreaTree;
use mm_types::{Page, Record, Slot, Span};
use split_merge::Areas;

/// What a span has beside a part of it, which begins or ends where the span does.
pub fn beside(part: Span, whole: Span) -> Span
    ensures { result ≡ beside part whole }
{
    if part.lo == whole.lo {
        Span {
            lo: part.hi,
            hi: whole.hi,
        }
    } else {
        Span {
            lo: whole.lo,
            hi: part.lo,
        }
    }
}

impl AreaTree {
    /// Whether the pages from one on up to another are below the limit, and no area has one of them.
    pub fn has_free(&self, lo: u64, hi: u64) -> bool
        requires { lo ≤ hi }
        ensures { result ≡ (nat_le hi self.now.tree.limit && is_free (areas_of self.now) (hi - lo) lo) }
    {
        self.facts();
        if hi > self.bounds.limit {
            return false;
        }
        match self.from(Page(lo)) {
            Some(area) => hi <= area.span.lo,
            None => true,
        }
    }

    /// A slot of the tree shows an area with fewer pages than the one before: only the pages that it loses are stored.
    pub fn shrink(&mut self, old: &Record, shown: ShownArea)
        requires roomy { self.old.tree.roomy ≡ true }
        requires member { Contains (shown_of self.old) (record { slot = shown.slot; area = old.now }) }
        requires part { IsEndOf shown.area.span old.now.span }
        requires once { times_shown shown.slot (shown_of self.old) ≤ 1 }
        ensures shown { (rest : List ShownArea) × IsPermutation (record { slot = shown.slot; area = old.now } ∷ rest) (shown_of self.old)
            × IsPermutation (shown ∷ rest) (shown_of self.new) }
        ensures same { self.new ≡ record self.old {
          tree = record self.old.tree { pairs = self.new.tree.pairs; changed = true; free = self.new.tree.free };
          records = slice_set self.old.records shown.slot shown.area;
          sealed = self.old.sealed || shown.area.attr.sealed;
        } }
    {
        self.tree.facts();
        self.records.show(shown.slot, shown.area);
        self.sealed |= shown.area.attr.sealed;
        self.tree
            .store(self.may, beside(shown.area.span, old.span), None);
    }

    /// A slot of the tree shows an area with fewer pages than the one before, and a slot that shows none gets the pages that it loses: only
    /// these are stored.
    pub fn split(&mut self, old: &Record, shown: ShownArea, other: ShownArea)
        requires roomy { self.old.tree.roomy ≡ true }
        requires member { Contains (shown_of self.old) (record { slot = shown.slot; area = old.now }) }
        requires part { IsEndOf shown.area.span old.now.span }
        requires lost { other.area.span ≡ beside shown.area.span old.now.span }
        requires once { times_shown shown.slot (shown_of self.old) ≤ 1 }
        requires slot { other.slot < slots_for self.old.tree.areas }
        requires free { times_shown other.slot (shown_of self.old) ≡ 0 }
        requires few { length (areas_of self.old) < self.old.tree.areas }
        ensures shown { (rest : List ShownArea) × IsPermutation (record { slot = shown.slot; area = old.now } ∷ rest) (shown_of self.old)
            × IsPermutation (shown ∷ other ∷ rest) (shown_of self.new) }
        ensures same { self.new ≡ record self.old {
          tree = record self.old.tree { pairs = self.new.tree.pairs; changed = true; free = self.new.tree.free };
          records = slice_set (slice_set self.old.records shown.slot shown.area) other.slot other.area;
          sealed = (self.old.sealed || shown.area.attr.sealed) || other.area.attr.sealed;
        } }
    {
        self.tree.facts();
        self.records.show(shown.slot, shown.area);
        self.sealed |= shown.area.attr.sealed;
        self.records.show(other.slot, other.area);
        self.sealed |= other.area.attr.sealed;
        self.tree
            .store(self.may, other.area.span, Some(Slot(other.slot)));
        self.count += 1;
    }

    /// A slot of the tree shows an area with the pages of the one before and free ones beside them.
    pub fn grow(&mut self, old: &Record, shown: ShownArea)
        requires roomy { self.old.tree.roomy ≡ true }
        requires member { Contains (shown_of self.old) (record { slot = shown.slot; area = old.now }) }
        requires pages { IsRoomFor self.old.tree.limit (areas_of self.old) old.now.span shown.area.span }
        requires once { times_shown shown.slot (shown_of self.old) ≤ 1 }
        ensures shown { (rest : List ShownArea) × IsPermutation (record { slot = shown.slot; area = old.now } ∷ rest) (shown_of self.old)
            × IsPermutation (shown ∷ rest) (shown_of self.new) }
        ensures same { self.new ≡ record self.old {
          tree = record self.old.tree { pairs = self.new.tree.pairs; changed = true; free = self.new.tree.free };
          records = slice_set self.old.records shown.slot shown.area;
          sealed = self.old.sealed || shown.area.attr.sealed;
        } }
    {
        self.tree.facts();
        self.records.show(shown.slot, shown.area);
        self.sealed |= shown.area.attr.sealed;
        self.tree
            .store(self.may, shown.area.span, Some(Slot(shown.slot)));
    }
}
