//! A whole tree with one entry more: its levels from the leaves up, and its root.

ghost use Rattle.std.specs.Prelude.{◌≡◌, ◌≢◌, ◌⊎◌, ◌<◌, ◌≤◌, ◌+◌, ◌*◌, ◌^◌, true, false, Some, [], ◌∷◌, ◌++◌, length};
ghost use Rattle.maple_node.specs.Nodes.{items_end, Ascends};
ghost use Rattle.maple_node.specs.Levels.{below, level_of, IsTower, rows_below};
ghost use Rattle.maple_node.specs.Trees.{entries_of};
ghost use Rattle.maple_node.specs.Splices.{piece_of, overwrite};
ghost use Rattle.node_slots.specs.Seats.{free_of};
ghost use Rattle.node_slots.specs.Built.{words_at};
ghost use Rattle.maple_write.specs.Internal.Tables.{table_at, Stand, LeavesRows};
ghost use Rattle.maple_write.specs.Tables.{FillsRows};
ghost use Rattle.maple_write.specs.Internal.Stores.{upper_rows, IsShaped, tree_under, IsDescent, IsWriting};

use crate::descent::{Descent, find};
use crate::level::{leave_block, rebuild_level};
use crate::rows::{FewItems, Rooted, put};
use crate::state::{Replacement, WriteState};
use maple_node::{NodeItem, Place};
use mm_types::{Row, Span};
use node_slots::{MayCount, NodeWriter};

/// The new entries of a store from the beginning of the entry at its first page: the part of that entry before the page, if
/// there is one, and the entry of the store.
pub(crate) fn first(place: Place, span: Span, word: u64) -> Replacement
    ensures begin { result.begin ≡ place.start }
    ensures end { result.end ≡ span.hi }
    ensures items { result.items.items ≡ piece_of place.start span.lo (Some place.item) ++ record { end = span.hi; word = word; gap = 0 } ∷ [] }
{
    let mut items = FewItems::new();
    if place.start < span.lo {
        items.push(NodeItem {
            end: span.lo,
            word: place.item.word,
            gap: 0,
        });
    }
    items.push(NodeItem {
        end: span.hi,
        word,
        gap: 0,
    });
    Replacement {
        begin: place.start,
        end: span.hi,
        items,
    }
}

/// Whether what a store puts is one item that has all pages.
fn is_whole(new: &Replacement, limit: u64) -> bool
    ensures yes { result ≡ true → (new.now.begin ≡ 0) × ((new.now.end ≡ limit) × (length new.now.items.items ≡ 1)) }
    ensures no { result ≡ false → (new.now.begin ≢ 0) ⊎ ((new.now.end ≢ limit) ⊎ (length new.now.items.items ≢ 1)) }
{
    new.begin == 0 && new.end == limit && new.items.len() == 1
}

/// Leaves the nodes of the old tree above the level of a store.
fn leave_upper(writer: &mut NodeWriter, may: MayCount, state: &WriteState)
    requires { IsWriting writer.old state.now }
    ensures { LeavesRows writer.old writer.new (upper_rows (words_at writer.old) state.now.descent.now.tree state.now.level) }
{
    let tree = state.descent.tree;
    let all = Span {
        lo: 0,
        hi: tree.top.end,
    };
    let mut next = state.level;
    while next < tree.height {
        next += 1;
        leave_block(writer, may, state.descent, next, all);
    }
}

/// The tree under the items of a level, which have all pages: under the only one, or under a new root that lists them.
fn new_root(writer: &mut NodeWriter, level: u32, items: &FewItems) -> Rooted
    requires tall { 1 ≤ level }
    requires tower { IsTower (words_at writer.old) (items_end 0 items.now.items) 0 level items.now.items }
    requires ascends { Ascends 0 items.now.items }
    requires some { 1 ≤ length items.now.items }
    requires few { length items.now.items ≤ 3 }
    requires wide { length items.now.items ≡ 1 → 2 ≤ level → 2 ≤ length (below (words_at writer.old) false items.now.items) }
    requires stand { Stand (table_at writer.old) (rows_below (words_at writer.old) 0 level items.now.items) }
    requires free { 1 ≤ length (free_of writer.old) }
    requires fits { level < 2 ^ 31 }
    ensures same { FillsRows writer.old writer.new }
    ensures shaped { IsShaped (table_at writer.new) (tree_under result) }
    ensures entries { entries_of (words_at writer.new) (tree_under result) ≡ level_of (words_at writer.old) 0 level items.now.items }
    ensures limit { result.top.end ≡ items_end 0 items.now.items }
    ensures height { result.height ≤ level + 1 }
    ensures free { length (free_of writer.old) ≤ length (free_of writer.new) + 1 }
{
    if items.len() == 1 {
        return Rooted {
            top: items.as_slice()[0],
            height: level,
        };
    }
    Rooted {
        top: put(writer, Row(0), false, 0, items.as_slice()),
        height: level + 1,
    }
}

/// Builds the tree of a descent anew with one entry in the place of what it has in a span.
pub(crate) fn replace(
    writer: &mut NodeWriter,
    may: MayCount,
    descent: &Descent,
    span: Span,
    word: u64,
) -> Rooted
    requires shaped { IsShaped (table_at writer.old) (tree_under descent.now.tree) }
    requires descent { IsDescent (words_at writer.old) 0 descent.now }
    requires free { 4 * descent.now.tree.height + 4 ≤ length (free_of writer.old) }
    requires some { span.lo < span.hi }
    requires limit { span.hi ≤ descent.now.tree.top.end }
    requires fits { descent.now.tree.height < 2 ^ 31 }
    ensures same { FillsRows writer.old writer.new }
    ensures shaped { IsShaped (table_at writer.new) (tree_under result) }
    ensures entries { entries_of (words_at writer.new) (tree_under result)
        ≡ overwrite span.lo span.hi word (entries_of (words_at writer.old) (tree_under descent.now.tree)) }
    ensures limit { result.top.end ≡ descent.now.tree.top.end }
    ensures height { result.height ≤ descent.now.tree.height + 1 }
    ensures free { length (free_of writer.old) ≤ length (free_of writer.new) + 3 * descent.now.tree.height + 1 }
{
    let tree = descent.tree;
    let place = find(writer, may, descent, 0, span.lo);
    let mut state = WriteState {
        descent,
        level: 0,
        lo: span.lo,
        replacement: first(place, span, word),
    };
    let mut done = false;
    while state.level < tree.height && !done {
        rebuild_level(writer, may, &mut state);
        done = is_whole(&state.replacement, tree.top.end);
    }
    leave_upper(writer, may, &state);
    new_root(writer, state.level, &state.replacement.items)
}
