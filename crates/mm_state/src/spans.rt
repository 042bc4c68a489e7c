//! Slots that are free again, and areas that moved, as a call needs them.
ghost use Rattle.std.specs.Prelude.{ℕ, ◌*◌, ◌≡◌, ◌↔◌, ◌≤◌, ◌<◌, ◌+◌, ◌++◌, ◌∷◌, [], true, false, List, Some, length, vec_capacity, option_to_list, IfSome, IsPermutation, IsTrue, All};
ghost use Rattle.node_slots.specs.Seats.{HasOpen};
ghost use Rattle.area_slots.specs.Slots.{slots_left, gone_by, gone_after};
ghost use Rattle.area_tree.specs.declared.shown.ShownArea.{ShownArea};
ghost use Rattle.area_tree.specs.AreaTrees.{shown_of, areas_of, IsEndOf, IsRoomFor};
ghost use Rattle.mm_state.specs.Internal.AreaStores.{adds_of, CanFree, IsFreed, IsAreaTreeScanned, CanStore, HasSameAreaTree};

use area_slots::AreaSlots;
use area_tree::{AreaTree, ShownArea};
use mm_types::Span;
use split_merge::Change;
use std::sync::Wait;
use std::thread;

/// How many areas some changes add.
pub(crate) fn count_adds(changes: &[Change]) -> usize
    ensures { result ≡ adds_of changes.now }
{
    let mut adds = 0;
    for change in changes {
        if let Change::Add(_) = change {
            adds += 1;
        }
    }
    adds
}

/// Frees the slots that left with trees up to the elapsed tree: no reader finds them in a tree any more.
fn free_elapsed(areas: &AreaTree, slots: &mut AreaSlots)
    ensures { slots.new ≡ record slots.old {
      free = slots.old.free ++ slots_left (gone_by areas.now.tree.elapsed slots.old.left);
      left = gone_after areas.now.tree.elapsed slots.old.left;
    } }
{
    slots.seen(areas.elapsed());
}

/// Scans once where too few slots are free, frees what has elapsed then, and answers whether so many are. Where they are not, it found
/// a reader inside, and lets other threads run.
fn scan_for(areas: &mut AreaTree, slots: &mut AreaSlots, wanted: usize) -> bool
    requires can { CanFree areas.old slots.old wanted }
    requires few { length slots.old.free < wanted }
    ensures areas { IsAreaTreeScanned areas.old areas.new }
    ensures scans { areas.new.tree.scans ≡ areas.old.tree.scans + length areas.old.tree.pins }
    ensures found { areas.new.tree.found ≡ areas.old.tree.found ++ length slots.old.free ∷ [] }
    ensures readers { length areas.new.tree.pins ≡ length areas.old.tree.pins }
    ensures elapsed { areas.old.tree.elapsed ≤ areas.new.tree.elapsed }
    ensures slots { IsFreed areas.new.tree.elapsed slots.old slots.new }
    ensures free { result ≡ true → wanted ≤ length slots.new.free }
    ensures few { result ≡ false → length slots.new.free < wanted }
    ensures inside { result ≡ false → HasOpen areas.new.tree.pins }
{
    let before = slots.count_free();
    areas.scan(before);
    free_elapsed(areas, slots);
    if slots.count_free() >= wanted {
        return true;
    }
    thread::yield_now();
    false
}

/// Waits until so many slots are free, for readers alone: once none is inside, so many are. It scans only while they are not.
pub(crate) fn wait_for_slots<R: Wait>(
    rt: &R,
    areas: &mut AreaTree,
    slots: &mut AreaSlots,
    wanted: usize,
)
    requires { CanFree areas.old slots.old wanted }
    ensures areas { IsAreaTreeScanned areas.old areas.new }
    ensures still { wanted ≤ length slots.old.free + length (gone_by areas.old.tree.elapsed slots.old.left) → areas.new ≡ areas.old }
    // each pin is looked at once in each of these rounds, before which too few slots were free
    ensures scans { (rounds : List ℕ) × (areas.new.tree.found ≡ areas.old.tree.found ++ rounds) × All (λ free. free < wanted) rounds
        × (areas.new.tree.scans ≡ areas.old.tree.scans + length rounds * length areas.old.tree.pins) }
    ensures readers { length areas.new.tree.pins ≡ length areas.old.tree.pins }
    ensures elapsed { areas.old.tree.elapsed ≤ areas.new.tree.elapsed }
    ensures slots { IsFreed areas.new.tree.elapsed slots.old slots.new }
    ensures free { wanted ≤ length slots.new.free }
{
    free_elapsed(areas, slots);
    if slots.count_free() >= wanted {
        return;
    }
    for _ in rt.forever() {
        if scan_for(areas, slots, wanted) {
            return;
        }
    }
    unreachable!()
}

/// The tree gets what moved.
pub(crate) fn store_moved(areas: &mut AreaTree, moved: &mut Vec<ShownArea>)
    requires { CanStore areas.old moved.old.items }
    ensures shown { IsPermutation (shown_of areas.old ++ moved.old.items) (shown_of areas.new) }
    ensures none { moved.new.items ≡ [] }
    ensures room { vec_capacity moved.new ≡ vec_capacity moved.old }
    ensures same { HasSameAreaTree areas.old areas.new }
{
    while let Some(shown) = moved.pop() {
        areas.insert(shown);
    }
}

/// The area that moved last, which goes out of those that moved, where it has these pages and the tree may have one area more.
pub(crate) fn pop_moved_at(
    areas: &AreaTree,
    moved: &mut Vec<ShownArea>,
    span: Span,
) -> Option<ShownArea>
    ensures items { moved.old.items ≡ moved.new.items ++ option_to_list result }
    ensures room { vec_capacity moved.new ≡ vec_capacity moved.old }
    ensures pages { IfSome result (λ other. other.area.span ≡ span) }
    ensures few { IfSome result (λ other. length (areas_of areas.now) < areas.now.tree.areas) }
    ensures found { (rest : List ShownArea) (last : ShownArea) → moved.old.items ≡ rest ++ last ∷ [] → last.area.span ≡ span
        → length (areas_of areas.now) < areas.now.tree.areas → result ≡ Some last }
{
    let last = *moved.as_slice().last()?;
    if last.area.span == span && !areas.is_full() {
        moved.pop()
    } else {
        None
    }
}

/// Whether a span is a part of another that has one of its ends.
pub(crate) fn is_end(part: Span, whole: Span) -> bool
    requires { part.lo < part.hi }
    ensures { IsTrue result ↔ IsEndOf part whole }
{
    if part.lo == whole.lo {
        part.hi < whole.hi
    } else {
        whole.lo < part.lo && part.hi == whole.hi
    }
}

/// Whether a span has the pages of another, and those that it adds are free.
pub(crate) fn has_room(areas: &AreaTree, old: Span, new: Span) -> bool
    ensures room { result ≡ true → IsRoomFor areas.now.tree.limit (areas_of areas.now) old new }
    ensures found { old.lo ≤ areas.now.tree.limit → IsRoomFor areas.now.tree.limit (areas_of areas.now) old new → result ≡ true }
{
    new.lo <= old.lo
        && old.hi <= new.hi
        && (new.lo == old.lo || areas.has_free(new.lo, old.lo))
        && (old.hi == new.hi || areas.has_free(old.hi, new.hi))
}
