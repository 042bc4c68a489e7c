//! One level of a store: the items that are to stand anew, and the nodes that are made of them.

ghost use Rattle.std.specs.Prelude.{◌≡◌, ◌≢◌, ◌<◌, ◌≤◌, ◌+◌, ◌-◌, true, false, Some, [], ◌++◌, length, IfSome, IfNone};
ghost use Rattle.maple_node.specs.declared.item.NodeItem.{NodeItem};
ghost use Rattle.maple_node.specs.Nodes.{node_items, least_items, items_end, gap_of};
ghost use Rattle.maple_node.specs.Levels.{is_leaf, items_at, item_at};
ghost use Rattle.maple_node.specs.Splices.{ending_by, ending_after};
ghost use Rattle.maple_node.specs.Padding.{padded_node};
ghost use Rattle.node_slots.specs.Seats.{row_count};
ghost use Rattle.node_slots.specs.Built.{words_at};
ghost use Rattle.maple_write.specs.Internal.Tables.{table_at, rows_between, AreInUse, LeavesRows};
ghost use Rattle.maple_write.specs.Internal.Stores.{IsUpper, old_level, level_in, old_nodes, Cut, IsRenewed, HasPage, IsDescent, IsWriting, RebuildsLevel};

use crate::descent::{Descent, find};
use crate::rows::{pack, pack_words, words};
use crate::state::{Replacement, WriteState};
use maple_node::{
    ItemList, NodeWords, Part, Place, gap_in, least, push_all, push_part, spliced_words, swap_child,
};
use mm_types::{Row, Span};
use node_slots::{MayCount, NodeWriter};

/// The page where the items of whole nodes of a level begin, the page where they end, and the row of the first of these nodes.
#[derive(Clone, Copy)]
struct Edges {
    begin: u64,
    end: u64,
    first: Row,
}

/// Leaves the nodes of a level of an old tree that have pages of a span, which ends where one of them does.
pub(crate) fn leave_block(
    writer: &mut NodeWriter,
    may: MayCount,
    descent: &Descent,
    level: u32,
    span: Span,
)
    requires order { level ≤ descent.now.tree.height }
    requires limit { span.hi ≤ descent.now.tree.top.end }
    requires tower { IsUpper (words_at writer.old) descent.now.tree level }
    requires descent { IsDescent (words_at writer.old) level descent.now }
    requires edge { items_end 0 (ending_by span.hi (old_level (table_at writer.old) descent.now.tree level)) ≡ span.hi }
    requires apart { AreInUse writer.old (rows_between span.lo span.hi (old_level (table_at writer.old) descent.now.tree level)) }
    ensures { LeavesRows writer.old writer.new (rows_between span.lo span.hi (old_level (table_at writer.old) descent.now.tree level)) }
{
    let mut page = span.lo;
    while page < span.hi {
        let place = find(writer, may, descent, level, page);
        writer.leave(Row(place.item.word as u32));
        page = place.item.end;
    }
}

/// Leaves the one node where a level begins to change, in its row.
fn leave_one(writer: &mut NodeWriter, state: &WriteState, left: Place, row: Row)
    requires limit { 0 < state.now.descent.now.tree.top.end }
    requires tower { IsUpper (words_at writer.old) state.now.descent.now.tree (state.now.level + 1) }
    requires left { HasPage (words_at writer.old) state.now.descent.now.tree (state.now.level + 1) state.now.lo left }
    requires row { row.0 ≡ left.item.word }
    requires apart { AreInUse writer.old (rows_between state.now.lo left.item.end (old_nodes (table_at writer.old) (level_in state.now))) }
    ensures { LeavesRows writer.old writer.new (rows_between state.now.lo left.item.end (old_nodes (table_at writer.old) (level_in state.now))) }
{
    writer.leave(row);
}

/// Lists the items of two nodes with the new ones between: those of the left node up to the first page of the store, and those of
/// the right one above the page where the new ones end.
fn joined(
    writer: &NodeWriter,
    may: MayCount,
    state: &WriteState,
    left: u64,
    right: u64,
    items: &mut ItemList,
)
    requires left { left < row_count writer.now }
    requires right { right < row_count writer.now }
    requires few { length state.now.replacement.items.items ≤ 3 }
    requires none { items.old.items ≡ [] }
    ensures { items.new.items ≡ ending_by state.now.lo (items_at (words_at writer.now) (is_leaf state.now.level) left)
        ++ (state.now.replacement.items.items ++ ending_after state.now.replacement.end (items_at (words_at writer.now) (is_leaf state.now.level) right)) }
{
    let leaf = state.level == 0;
    push_part(
        items,
        Part::EndingBy(state.lo),
        leaf,
        words(writer, may, left),
    );
    push_all(items, state.replacement.items.as_slice());
    push_part(
        items,
        Part::EndingAfter(state.replacement.end),
        leaf,
        words(writer, may, right),
    );
}

/// The node where the new items end, of which the one where they begin is given. Most end in it.
fn last(writer: &NodeWriter, may: MayCount, state: &WriteState, left: Place) -> Place
    requires writing { IsWriting writer.now state.now }
    requires below { state.now.level < state.now.descent.now.tree.height }
    requires left { HasPage (words_at writer.now) state.now.descent.now.tree (state.now.level + 1) state.now.lo left }
    ensures { item_at (state.now.replacement.end - 1) (old_nodes (table_at writer.now) (level_in state.now)) ≡ Some result.item }
{
    if state.replacement.end <= left.item.end {
        left
    } else {
        find(
            writer,
            may,
            state.descent,
            state.level + 1,
            state.replacement.end - 1,
        )
    }
}

/// Lists the items of the level from the beginning of the node that has the first page to the end of the node where the new ones
/// end, and answers these pages.
fn cut(writer: &NodeWriter, may: MayCount, state: &WriteState, items: &mut ItemList) -> Edges
    requires writing { IsWriting writer.now state.now }
    requires below { state.now.level < state.now.descent.now.tree.height }
    requires none { items.old.items ≡ [] }
    ensures { Cut (table_at writer.now) (level_in state.now) result.begin result.end items.new.items }
{
    let left = find(writer, may, state.descent, state.level + 1, state.lo);
    let right = last(writer, may, state, left);
    joined(writer, may, state, left.item.word, right.item.word, items);
    Edges {
        begin: left.start,
        end: right.item.end,
        first: Row(left.item.word as u32),
    }
}

/// The same, with the whole of the next node where they are too few for a node of their own.
fn rebalanced(writer: &NodeWriter, may: MayCount, state: &WriteState, items: &mut ItemList) -> Edges
    requires writing { IsWriting writer.now state.now }
    requires below { state.now.level < state.now.descent.now.tree.height }
    requires none { items.old.items ≡ [] }
    ensures cut { Cut (table_at writer.now) (level_in state.now) result.begin result.end items.new.items }
    ensures least { result.end < state.now.descent.now.tree.top.end → least_items (is_leaf state.now.level) ≤ length items.new.items }
{
    let leaf = state.level == 0;
    let mut edges = cut(writer, may, state, items);
    if items.len() < least(leaf) && edges.end < state.descent.tree.top.end {
        let next = find(writer, may, state.descent, state.level + 1, edges.end);
        let next_words = words(writer, may, next.item.word);
        push_part(items, Part::Whole, leaf, next_words);
        edges.end = next.item.end;
    }
    edges
}

/// Leaves the nodes of a level where items of it are replaced, and packs their items anew.
fn rebuild_by_list(writer: &mut NodeWriter, may: MayCount, state: &mut WriteState)
    requires writing { IsWriting writer.old state.old }
    requires below { state.old.level < state.old.descent.now.tree.height }
    ensures { RebuildsLevel writer.old writer.new state.old state.new }
{
    let leaf = state.level == 0;
    let mut list = ItemList::new();
    let edges = rebalanced(writer, may, state, &mut list);
    let span = Span {
        lo: state.lo,
        hi: edges.end,
    };
    leave_block(writer, may, state.descent, state.level + 1, span);
    let items = pack(writer, edges.first, leaf, edges.begin, list.as_slice());
    state.level += 1;
    state.replacement = Replacement {
        begin: edges.begin,
        end: edges.end,
        items,
    };
}

/// Makes the words of a node anew, with the new items in the place of those that it lists there, and answers whether it did: not
/// where they end in another node, or where it must be split or joined with another one.
fn renewed(
    writer: &NodeWriter,
    may: MayCount,
    state: &WriteState,
    left: Place,
    made: &mut NodeWords,
) -> bool
    requires writing { IsWriting writer.now state.now }
    requires below { state.now.level < state.now.descent.now.tree.height }
    requires left { HasPage (words_at writer.now) state.now.descent.now.tree (state.now.level + 1) state.now.lo left }
    requires none { made.old ≡ [] }
    ensures { result ≡ true → IsRenewed (table_at writer.now) (level_in state.now) left (padded_node made.new) }
{
    if left.item.end < state.replacement.end {
        return false;
    }
    let leaf = state.level == 0;
    let limit = state.descent.tree.top.end;
    let fewest = if left.item.end < limit {
        least(leaf)
    } else {
        1
    };
    spliced_words(
        leaf,
        words(writer, may, left.item.word),
        left.item.end,
        fewest,
        state.lo,
        state.replacement.end,
        state.replacement.items.as_slice(),
        made,
    )
}

/// Puts the one new item of a level above the leaves in the place of one child in the words of the node that has it, and answers
/// the largest gap of the node then: none exactly where the child that has the first page doesn't end where the new item does.
fn swapped(
    writer: &NodeWriter,
    state: &WriteState,
    left: Place,
    words: &mut [u64; 32],
) -> Option<u64>
    requires writing { IsWriting writer.now state.now }
    requires below { state.now.level < state.now.descent.now.tree.height }
    requires inner { 0 < state.now.level }
    requires one { length state.now.replacement.items.items ≡ 1 }
    requires left { HasPage (words_at writer.now) state.now.descent.now.tree (state.now.level + 1) state.now.lo left }
    requires words { words.old ≡ words_at writer.now left.item.word }
    ensures renewed { IfSome result (λ gap. IsRenewed (table_at writer.now) (level_in state.now) left words.new) }
    ensures gap { IfSome result (λ gap. gap ≡ gap_of (is_leaf state.now.level) left.start (node_items (is_leaf state.now.level) words.new)) }
    ensures none { IfNone result ((child : NodeItem) → item_at state.now.lo (node_items false words.old) ≡ Some child → child.end ≢ state.now.replacement.end) }
{
    if left.item.end < state.replacement.end {
        return None;
    }
    swap_child(
        words,
        state.lo,
        state.replacement.items.as_slice()[0],
        left.item.gap,
    )
}

/// Leaves the one node of a level where items of it are replaced, and makes it anew of its new words, whose largest gap is given.
fn rebuild_by_words(
    writer: &mut NodeWriter,
    state: &mut WriteState,
    left: Place,
    words: &[u64; 32],
    gap: u64,
)
    requires writing { IsWriting writer.old state.old }
    requires below { state.old.level < state.old.descent.now.tree.height }
    requires renewed { IsRenewed (table_at writer.old) (level_in state.old) left words.now }
    requires gap { gap ≡ gap_of (is_leaf state.old.level) left.start (node_items (is_leaf state.old.level) words.now) }
    requires left { HasPage (words_at writer.old) state.old.descent.now.tree (state.old.level + 1) state.old.lo left }
    requires there { left.item.word < row_count writer.old }
    ensures { RebuildsLevel writer.old writer.new state.old state.new }
{
    let leaf = state.level == 0;
    let begin = left.start;
    let end = left.item.end;
    let row = Row(left.item.word as u32);
    leave_one(writer, state, left, row);
    let items = pack_words(writer, row, leaf, begin, end, words, gap);
    state.level += 1;
    state.replacement = Replacement { begin, end, items };
}

/// Leaves the nodes of a level where items of it are replaced, and makes them anew. A row that was taken since the last publish is
/// free at once, and is taken again. The store is then a level higher, where the items that stand for the new nodes are new.
pub(crate) fn rebuild_level(writer: &mut NodeWriter, may: MayCount, state: &mut WriteState)
    requires writing { IsWriting writer.old state.old }
    requires below { state.old.level < state.old.descent.now.tree.height }
    ensures { RebuildsLevel writer.old writer.new state.old state.new }
{
    let left = find(writer, may, state.descent, state.level + 1, state.lo);
    if state.level > 0 && state.replacement.items.len() == 1 {
        let mut words = *words(writer, may, left.item.word);
        if let Some(gap) = swapped(writer, state, left, &mut words) {
            rebuild_by_words(writer, state, left, &words, gap);
            return;
        }
    }
    let mut made = NodeWords::new();
    if renewed(writer, may, state, left, &mut made) {
        let words = made.words();
        let gap = gap_in(state.level == 0, left.start, words);
        rebuild_by_words(writer, state, left, words, gap);
    } else {
        rebuild_by_list(writer, may, state);
    }
}
