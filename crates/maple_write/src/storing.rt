//! Stores into the writer's tree, and its publish.

ghost use Rattle.std.specs.Prelude.{◌≡◌, ◌<◌, ◌≤◌, ◌+◌, ◌-◌, ◌*◌, ◌^◌, ℕ, [], length, nat_eq};
ghost use Rattle.maple_node.specs.Trees.{entries_of, pairs_of};
ghost use Rattle.maple_node.specs.Words.{slot_word};
ghost use Rattle.maple_node.specs.Splices.{overwrite, widened_lo, widened_hi};
ghost use Rattle.maple_node.specs.Pairs.{overwritten};
ghost use Rattle.node_slots.specs.Views.{publish_at};
ghost use Rattle.node_slots.specs.Seats.{WritesNodeTable, node_sight, writer_state, row_count, free_of, retired_rows, is_kept, next_root};
ghost use Rattle.node_slots.specs.Built.{words_at, built, IsBuilt, IsWriters, pairs_now};
ghost use Rattle.maple_write.specs.Internal.Tables.{table_at};
ghost use Rattle.maple_write.specs.Tables.{FillsRows};
ghost use Rattle.maple_write.specs.Internal.Stores.{IsShaped, IsWholeTree, FindsTree, tree_under, all_gap, IsDescent};

use crate::descent::{Descent, LEVELS, NO_PLACE, find};
use crate::rows::{Rooted, put, words};
use crate::tree::{first, replace};
use maple_node::{
    ItemList, NodeItem, Place, gap_in, lists_nothing, push_all, push_ending_after, slot_word,
};
use mm_types::{Row, Slot, Span};
use node_slots::{MayCount, NodeTable, NodeWriter, Tree};

/// Gives the pages of a span a slot, or makes them a gap, in the writer's tree. The nodes on the paths to them are made anew in
/// free rows, at most three for each level and one for a root, and the rows of the old nodes are left. An empty span changes
/// nothing.
pub fn store(
    nodes: &NodeTable,
    writer: &mut NodeWriter,
    may: MayCount,
    tree: &mut Tree,
    span: Span,
    slot: Option<Slot>,
)
    requires table { WritesNodeTable writer.old nodes.now }
    requires tree { IsWriters writer.old tree.old }
    requires free { 4 * tree.old.height + 4 ≤ length (free_of writer.old) }
    requires limit { span.hi ≤ tree.old.limit.0 }
    requires slot { slot_word slot ≤ (node_sight writer.old).size.slots }
    ensures table { WritesNodeTable writer.new nodes.now }
    ensures tree { IsWriters writer.new tree.new }
    ensures built { span.lo < span.hi → IsBuilt writer.new tree.new }
    ensures pairs { span.lo < span.hi → pairs_now writer.new tree.new
        ≡ overwritten span.lo span.hi (slot_word slot) (pairs_now writer.old tree.old) }
    ensures empty { span.hi ≤ span.lo → (writer.new ≡ writer.old) × (tree.new ≡ tree.old) }
    ensures limit { tree.new.limit ≡ tree.old.limit }
    ensures height { tree.new.height ≤ tree.old.height + 1 }
    ensures rows { length (free_of writer.old) ≤ length (free_of writer.new) + 3 * tree.old.height + 1 }
    ensures same { FillsRows writer.old writer.new }
{
    if span.lo >= span.hi {
        return;
    }
    let old = rooted(writer, may, tree);
    let new = stored(writer, may, old, tree.limit.0, span, slot_word(slot));
    tree.root = Row(new.top.word as u32);
    tree.height = new.height;
}

/// Publishes the writer's tree: it is the present one, with the next number.
pub fn publish_tree(nodes: &NodeTable, writer: &mut NodeWriter, tree: &Tree)
    requires table { WritesNodeTable writer.old nodes.now }
    requires built { IsBuilt writer.old tree.now }
    requires height { tree.now.height ≤ 9 }
    requires number { (writer_state writer.old).tree.number < 2 ^ 40 - 1 }
    ensures table { WritesNodeTable writer.new nodes.now }
    ensures view { node_sight writer.new ≡ publish_at (node_sight writer.old) (next_root writer.old tree.now.root.0 tree.now.height) }
    ensures lists { (free_of writer.new ≡ free_of writer.old) × (retired_rows writer.new ≡ retired_rows writer.old) }
    ensures still { IsBuilt writer.new tree.now }
{
    nodes.publish(writer, tree.root, tree.height);
}

/// The tree of the writer's view, with what the row of its root tells of it.
fn rooted(writer: &NodeWriter, may: MayCount, tree: &Tree) -> Rooted
    requires tree { IsWriters writer.now tree.now }
    ensures { tree_under result ≡ built writer.now tree.now }
{
    let leaf = tree.height == 1;
    let root = u64::from(tree.root.0);
    let words = words(writer, may, root);
    let end = if lists_nothing(words) {
        0
    } else {
        tree.limit.0
    };
    Rooted {
        top: NodeItem {
            end,
            word: root,
            gap: gap_in(leaf, 0, words),
        },
        height: tree.height,
    }
}

/// Where the gap begins that has the page before a page, or else the page.
fn gap_begin(writer: &NodeWriter, may: MayCount, descent: &Descent, page: u64) -> u64
    requires shaped { IsShaped (table_at writer.now) (tree_under descent.now.tree) }
    requires descent { IsDescent (words_at writer.now) 0 descent.now }
    requires within { page ≤ descent.now.tree.top.end }
    ensures { result ≡ widened_lo page (entries_of (words_at writer.now) (tree_under descent.now.tree)) }
{
    if page == 0 {
        return 0;
    }
    let place = find(writer, may, descent, 0, page - 1);
    if place.item.word == 0 {
        place.start
    } else {
        page
    }
}

/// Where the gap ends that has a page, or else the page.
fn gap_end(writer: &NodeWriter, may: MayCount, descent: &Descent, page: u64) -> u64
    requires shaped { IsShaped (table_at writer.now) (tree_under descent.now.tree) }
    requires descent { IsDescent (words_at writer.now) 0 descent.now }
    requires within { page ≤ descent.now.tree.top.end }
    ensures { result ≡ widened_hi page (entries_of (words_at writer.now) (tree_under descent.now.tree)) }
{
    if page == descent.tree.top.end {
        return page;
    }
    let place = find(writer, may, descent, 0, page);
    if place.item.word == 0 {
        place.item.end
    } else {
        page
    }
}

/// A store into a tree with entries. A gap takes in the gaps beside it.
fn overwrite(writer: &mut NodeWriter, may: MayCount, old: Rooted, span: Span, word: u64) -> Rooted
    requires whole { IsWholeTree (table_at writer.old) (node_sight writer.old).size.slots (tree_under old) }
    requires free { 4 * old.height + 4 ≤ length (free_of writer.old) }
    requires some { span.lo < span.hi }
    requires limit { span.hi ≤ old.top.end }
    requires word { word ≤ (node_sight writer.old).size.slots }
    requires fits { old.height < 2 ^ 31 }
    ensures same { FillsRows writer.old writer.new }
    ensures whole { IsWholeTree (table_at writer.new) (node_sight writer.old).size.slots (tree_under result) }
    ensures pairs { pairs_of (words_at writer.new) (tree_under result)
        ≡ overwritten span.lo span.hi word (pairs_of (words_at writer.old) (tree_under old)) }
    ensures limit { result.top.end ≡ old.top.end }
    ensures height { result.height ≤ old.height + 1 }
    ensures free { length (free_of writer.old) ≤ length (free_of writer.new) + 3 * old.height + 1 }
{
    let mut descent = Descent {
        tree: old,
        page: span.lo,
        places: [NO_PLACE; LEVELS],
    };
    descent.descend(writer, may);
    if word != 0 {
        return replace(writer, may, &descent, span, word);
    }
    let lo = gap_begin(writer, may, &descent, span.lo);
    let hi = gap_end(writer, may, &descent, span.hi);
    replace(writer, may, &descent, Span { lo, hi }, 0)
}

/// The entries of a tree whose pages were one gap up to `limit`, with one entry in a span.
fn first_entries(limit: u64, span: Span, word: u64) -> ItemList
    requires some { span.lo < span.hi }
    requires limit { span.hi ≤ limit }
    ensures entries { result.items ≡ overwrite span.lo span.hi word (all_gap limit) }
    ensures some { 1 ≤ length result.items }
    ensures few { length result.items ≤ 3 }
{
    let gap = NodeItem {
        end: limit,
        word: 0,
        gap: 0,
    };
    let place = Place {
        start: 0,
        item: gap,
    };
    let new = first(place, span, word);
    let mut entries = ItemList::new();
    push_all(&mut entries, new.items.as_slice());
    push_ending_after(&mut entries, span.hi, &[gap]);
    entries
}

/// Makes the first leaf of a tree, in place of tree 0, whose row 0 is left.
fn first_leaf(writer: &mut NodeWriter, limit: u64, span: Span, word: u64) -> Rooted
    requires kept { (row : ℕ) → is_kept writer.old row ≡ nat_eq row 0 }
    requires rows { 1 ≤ row_count writer.old }
    requires free { 1 ≤ length (free_of writer.old) }
    requires some { span.lo < span.hi }
    requires limit { span.hi ≤ limit }
    ensures same { FillsRows writer.old writer.new }
    ensures shaped { IsShaped (table_at writer.new) (tree_under result) }
    ensures entries { entries_of (words_at writer.new) (tree_under result) ≡ overwrite span.lo span.hi word (all_gap limit) }
    ensures limit { result.top.end ≡ limit }
    ensures height { result.height ≡ 1 }
    ensures free { length (free_of writer.old) ≤ length (free_of writer.new) + 1 }
{
    let entries = first_entries(limit, span, word);
    let top = put(writer, Row(0), true, 0, entries.as_slice());
    writer.leave(Row(0));
    Rooted { top, height: 1 }
}

/// A store into tree 0.
fn store_first(writer: &mut NodeWriter, limit: u64, span: Span, word: u64) -> Rooted
    requires kept { (row : ℕ) → is_kept writer.old row ≡ nat_eq row 0 }
    requires rows { 1 ≤ row_count writer.old }
    requires free { 1 ≤ length (free_of writer.old) }
    requires some { span.lo < span.hi }
    requires limit { span.hi ≤ limit }
    requires word { word ≤ (node_sight writer.old).size.slots }
    ensures same { FillsRows writer.old writer.new }
    ensures whole { IsWholeTree (table_at writer.new) (node_sight writer.old).size.slots (tree_under result) }
    ensures pairs { pairs_of (words_at writer.new) (tree_under result) ≡ overwritten span.lo span.hi word [] }
    ensures limit { result.top.end ≡ limit }
    ensures height { result.height ≡ 1 }
    ensures free { length (free_of writer.old) ≤ length (free_of writer.new) + 1 }
{
    if word != 0 {
        return first_leaf(writer, limit, span, word);
    }
    first_leaf(writer, limit, Span { lo: 0, hi: limit }, 0)
}

/// A store into the tree that the writer found: one with entries, or tree 0.
fn stored(
    writer: &mut NodeWriter,
    may: MayCount,
    old: Rooted,
    limit: u64,
    span: Span,
    word: u64,
) -> Rooted
    requires finds { FindsTree writer.old old limit }
    requires free { 4 * old.height + 4 ≤ length (free_of writer.old) }
    requires some { span.lo < span.hi }
    requires limit { span.hi ≤ limit }
    requires word { word ≤ (node_sight writer.old).size.slots }
    requires fits { old.height < 2 ^ 31 }
    ensures same { FillsRows writer.old writer.new }
    ensures whole { IsWholeTree (table_at writer.new) (node_sight writer.old).size.slots (tree_under result) }
    ensures pairs { pairs_of (words_at writer.new) (tree_under result)
        ≡ overwritten span.lo span.hi word (pairs_of (words_at writer.old) (tree_under old)) }
    ensures limit { result.top.end ≡ limit }
    ensures height { result.height ≤ old.height + 1 }
    ensures free { length (free_of writer.old) ≤ length (free_of writer.new) + 3 * old.height + 1 }
{
    if old.top.end == 0 {
        return store_first(writer, limit, span, word);
    }
    overwrite(writer, may, old, span, word)
}
