//! Nodes in the rows of the writer's table: how one is read and made.

ghost use Rattle.std.specs.Prelude.{◌≡◌, ◌<◌, ◌≤◌, ◌+◌, ◌*◌, ℕ, ◌∷◌, length, slice_set};
ghost use Rattle.maple_node.specs.Nodes.{words_of_items, node_items, most, least_items, items_end, gap_of, Ascends, KeepsNoGap};
ghost use Rattle.maple_node.specs.Levels.{items_at, below, AllFrom, IsNode, times_among};
ghost use Rattle.node_slots.specs.Seats.{writer_state, row_count, free_of, retired_rows};
ghost use Rattle.node_slots.specs.Built.{words_at};
ghost use Rattle.maple_write.specs.Internal.Tables.{rows_in};
ghost use Rattle.maple_write.specs.Tables.{FillsRows};

use arrayvec::ArrayVec;
use maple_node::{NodeItem, gap_in, node_words, share};
use mm_types::Row;
use node_slots::{MayCount, NodeWriter};

/// A tree as its root tells it: the root's item, and the tree's height. Height 1 is a single leaf.
#[derive(Clone, Copy, Debug, PartialEq, Eq)]
pub(crate) struct Rooted {
    pub(crate) top: NodeItem,
    pub(crate) height: u32,
}

/// A few items, in an array of their own: short, since it is passed by value from level to level.
pub(crate) type FewItems = ArrayVec<NodeItem, 3>;

/// The words of a row. Nobody counts the rows that a store reads.
pub(crate) fn words(writer: &NodeWriter, may: MayCount, row: u64) -> &[u64; 32]
    requires row { row < row_count writer.now }
    ensures { result.now ≡ words_at writer.now row }
{
    let mut reads = may.begin();
    writer.nodes().written(writer, Row(row as u32), &mut reads)
}

/// Makes a node, which begins and ends at these pages and has this largest gap, of its words in a free row: one that held nearly the
/// same words as the row of the old node, if there is one.
fn put_words(
    writer: &mut NodeWriter,
    old: Row,
    leaf: bool,
    start: u64,
    end: u64,
    words: &[u64; 32],
    gap: u64,
) -> NodeItem
    requires free { 0 < length (free_of writer.old) }
    requires some { 1 ≤ length (node_items leaf words.now) }
    requires most { length (node_items leaf words.now) ≤ most leaf }
    requires ascends { Ascends start (node_items leaf words.now) }
    requires end { end ≡ items_end start (node_items leaf words.now) }
    requires gap { gap ≡ gap_of leaf start (node_items leaf words.now) }
    requires whole { words.now ≡ words_of_items leaf (node_items leaf words.now) }
    ensures same { FillsRows writer.old writer.new }
    ensures node { (limit : ℕ) → (items_end start (node_items leaf words.now) < limit → least_items leaf ≤ length (node_items leaf words.now))
        → IsNode (words_at writer.new) leaf limit start result }
    ensures items { items_at (words_at writer.new) leaf result.word ≡ node_items leaf words.now }
    ensures until { result.end ≡ end }
    ensures words { (writer_state writer.new).words ≡ slice_set (writer_state writer.old).words result.word words.now }
    ensures free { length (free_of writer.old) ≡ length (free_of writer.new) + 1 }
    ensures taken { (row : ℕ) → times_among row (free_of writer.old) ≡ times_among row (result.word ∷ free_of writer.new) }
    ensures left { retired_rows writer.new ≡ retired_rows writer.old }
{
    let row = writer.take_row_for(old).unwrap();
    writer.fill(row, words);
    NodeItem {
        end,
        word: u64::from(row.0),
        gap,
    }
}

/// Makes a node of items, of which the first begins at `start`, in a free row, in the place of an old one.
pub(crate) fn put(
    writer: &mut NodeWriter,
    old: Row,
    leaf: bool,
    start: u64,
    items: &[NodeItem],
) -> NodeItem
    requires free { 0 < length (free_of writer.old) }
    requires some { 1 ≤ length items.now }
    requires most { length items.now ≤ most leaf }
    requires ascends { Ascends start items.now }
    requires plain { KeepsNoGap leaf items.now }
    ensures same { FillsRows writer.old writer.new }
    ensures node { (limit : ℕ) → (items_end start items.now < limit → least_items leaf ≤ length items.now)
        → IsNode (words_at writer.new) leaf limit start result }
    ensures items { items_at (words_at writer.new) leaf result.word ≡ items.now }
    ensures until { result.end ≡ items_end start items.now }
    ensures words { (writer_state writer.new).words ≡ slice_set (writer_state writer.old).words result.word (words_of_items leaf items.now) }
    ensures free { length (free_of writer.old) ≡ length (free_of writer.new) + 1 }
    ensures taken { (row : ℕ) → times_among row (free_of writer.old) ≡ times_among row (result.word ∷ free_of writer.new) }
    ensures left { retired_rows writer.new ≡ retired_rows writer.old }
{
    let words = node_words(leaf, items);
    let end = items[items.len() - 1].end;
    let gap = gap_in(leaf, start, &words);
    put_words(writer, old, leaf, start, end, &words, gap)
}

/// Makes one node of its words in the place of an old one. The largest gap of the words is given.
pub(crate) fn pack_words(
    writer: &mut NodeWriter,
    old: Row,
    leaf: bool,
    start: u64,
    end: u64,
    words: &[u64; 32],
    gap: u64,
) -> FewItems
    requires free { 0 < length (free_of writer.old) }
    requires some { 1 ≤ length (node_items leaf words.now) }
    requires most { length (node_items leaf words.now) ≤ most leaf }
    requires ascends { Ascends start (node_items leaf words.now) }
    requires end { end ≡ items_end start (node_items leaf words.now) }
    requires gap { gap ≡ gap_of leaf start (node_items leaf words.now) }
    requires whole { words.now ≡ words_of_items leaf (node_items leaf words.now) }
    ensures same { FillsRows writer.old writer.new }
    ensures nodes { (limit : ℕ) → (items_end start (node_items leaf words.now) < limit → least_items leaf ≤ length (node_items leaf words.now))
        → AllFrom (IsNode (words_at writer.new) leaf limit) start result.items }
    ensures below { below (words_at writer.new) leaf result.items ≡ node_items leaf words.now }
    ensures one { length result.items ≡ 1 }
    ensures kept { (row : ℕ) → times_among row (free_of writer.old) ≡ 0 → words_at writer.new row ≡ words_at writer.old row }
    ensures taken { (row : ℕ) → times_among row (free_of writer.old) ≡ times_among row (free_of writer.new) + times_among row (rows_in result.items) }
    ensures free { length (free_of writer.old) ≡ length (free_of writer.new) + length result.items }
    ensures left { retired_rows writer.new ≡ retired_rows writer.old }
{
    let mut packed = FewItems::new();
    let node = put_words(writer, old, leaf, start, end, words, gap);
    packed.push(node);
    packed
}

/// Packs items, of which the first begins at `start`, into nodes in the place of an old one: as many into each
/// as `share` tells.
pub(crate) fn pack(
    writer: &mut NodeWriter,
    old: Row,
    leaf: bool,
    start: u64,
    items: &[NodeItem],
) -> FewItems
    requires free { 3 ≤ length (free_of writer.old) }
    requires some { 1 ≤ length items.now }
    requires few { length items.now ≤ 3 * most leaf }
    requires ascends { Ascends start items.now }
    requires plain { KeepsNoGap leaf items.now }
    ensures same { FillsRows writer.old writer.new }
    ensures nodes { (limit : ℕ) → (items_end start items.now < limit → least_items leaf ≤ length items.now)
        → AllFrom (IsNode (words_at writer.new) leaf limit) start result.items }
    ensures below { below (words_at writer.new) leaf result.items ≡ items.now }
    ensures some { 1 ≤ length result.items }
    ensures few { length result.items ≤ 3 }
    ensures kept { (row : ℕ) → times_among row (free_of writer.old) ≡ 0 → words_at writer.new row ≡ words_at writer.old row }
    ensures taken { (row : ℕ) → times_among row (free_of writer.old) ≡ times_among row (free_of writer.new) + times_among row (rows_in result.items) }
    ensures free { length (free_of writer.old) ≡ length (free_of writer.new) + length result.items }
    ensures left { retired_rows writer.new ≡ retired_rows writer.old }
{
    let mut packed = FewItems::new();
    let mut begin = start;
    let mut place = 0;
    while place < items.len() {
        let end = place + share(leaf, items.len() - place);
        let node = put(writer, old, leaf, begin, &items[place..end]);
        begin = node.end;
        packed.push(node);
        place = end;
    }
    packed
}
