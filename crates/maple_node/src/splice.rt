//! Nodes with some of their items replaced, from words to words.

ghost use Rattle.std.specs.Prelude.{◌≡◌, ◌≢◌, ◌<◌, ◌≤◌, ◌+◌, ◌*◌, ◌⊎◌, ℕ, max, true, false, [], ◌∷◌, length, take, slice_range, Some, IfSome, IfNone};
ghost use Rattle.std.specs.List.{flat_map};
ghost use Rattle.maple_node.specs.Nodes.{node_items, words_of_items, item_words, most, items_end, Ascends, gap_of};
ghost use Rattle.maple_node.specs.declared.item.NodeItem.{NodeItem};
ghost use Rattle.maple_node.specs.Levels.{item_at};
ghost use Rattle.maple_node.specs.Splices.{ending_by, ending_after, spliced};
ghost use Rattle.maple_node.specs.Codec.{width_of, listed_at};
ghost use Rattle.maple_node.specs.Padding.{padded_node};
ghost use Rattle.maple_node.specs.Internal.Counts.{IsCounted};

use crate::node::item_gap;
use crate::{NODE_WORDS, NodeItem, NodeWords, listed_at, most, width_of};

/// How many words the items of a node have that end up to a page, counted from a place up to which they do.
fn words_ending_by(leaf: bool, words: &[u64; 32], from: usize, page: u64) -> usize
    requires within { from ≤ 32 }
    requires counted { (later : ℕ) → page ≤ later → IsCounted leaf later from words.now }
    ensures count { result ≡ width_of leaf * length (ending_by page (node_items leaf words.now)) }
    ensures within { result ≤ 32 }
    ensures counted { (later : ℕ) → page ≤ later → IsCounted leaf later result words.now }
{
    let width = width_of(leaf);
    let mut place = from;
    while place + width <= NODE_WORDS && words[place] != 0 && words[place] <= page {
        place += width;
    }
    place
}

/// Where the words of some items of a node stand: those of the first ones end at `before`, and those of the last ones begin at `past`
/// and end at `used`.
#[derive(Clone, Copy)]
struct Parts {
    before: usize,
    past: usize,
    used: usize,
}

/// Where the words stand of the items of a node, which ends at a page, that end up to `lo`, and of those that end above `hi`. Each
/// count goes on from where the one before it stopped.
fn parts_of(leaf: bool, words: &[u64; 32], end: u64, lo: u64, hi: u64) -> Parts
    requires ascends { Ascends 0 (node_items leaf words.now) }
    requires whole { words.now ≡ words_of_items leaf (node_items leaf words.now) }
    requires end { items_end 0 (node_items leaf words.now) ≤ end }
    ensures before { result.before ≤ result.used }
    ensures past { result.past ≤ result.used }
    ensures within { result.used ≤ 32 }
    ensures front { take result.before words.now ≡ flat_map (item_words leaf) (ending_by lo (node_items leaf words.now)) }
    ensures back { slice_range words.now result.past result.used ≡ flat_map (item_words leaf) (ending_after hi (node_items leaf words.now)) }
{
    let before = words_ending_by(leaf, words, 0, lo);
    let from = if lo <= hi { before } else { 0 };
    let past = words_ending_by(leaf, words, from, hi);
    let used = words_ending_by(leaf, words, past, end.max(hi));
    Parts { before, past, used }
}

/// Makes the words of a node, which ends at a page, with new items in the place of those between two pages, and answers whether it
/// did: not exactly where the node has no room for them, or would have fewer than so many items.
pub fn spliced_words(
    leaf: bool,
    words: &[u64; 32],
    end: u64,
    fewest: usize,
    lo: u64,
    hi: u64,
    new: &[NodeItem],
    made: &mut NodeWords,
) -> bool
    requires ascends { Ascends 0 (node_items leaf words.now) }
    requires whole { words.now ≡ words_of_items leaf (node_items leaf words.now) }
    requires end { items_end 0 (node_items leaf words.now) ≤ end }
    requires few { (fewest ≤ 16) × (length new.now ≤ 40) }
    requires none { made.old ≡ [] }
    ensures words { result ≡ true → padded_node made.new ≡ words_of_items leaf (spliced lo hi new.now (node_items leaf words.now)) }
    ensures most { result ≡ true → length (spliced lo hi new.now (node_items leaf words.now)) ≤ most leaf }
    ensures least { result ≡ true → fewest ≤ length (spliced lo hi new.now (node_items leaf words.now)) }
    ensures none { result ≡ false → (most leaf < length (spliced lo hi new.now (node_items leaf words.now)))
        ⊎ (length (spliced lo hi new.now (node_items leaf words.now)) < fewest) }
{
    let width = width_of(leaf);
    let Parts { before, past, used } = parts_of(leaf, words, end, lo, hi);
    let count = before + width * new.len() + (used - past);
    if count < width * fewest || width * most(leaf) < count {
        return false;
    }
    made.push_words(&words[..before]);
    made.push_items(leaf, new);
    made.push_words(&words[past..used]);
    true
}

/// The largest gap in pages of a node, which begins at the page `start`, as its words tell.
pub fn gap_in(leaf: bool, start: u64, words: &[u64; 32]) -> u64
    requires { Ascends start (node_items leaf words.now) }
    ensures { result ≡ gap_of leaf start (node_items leaf words.now) }
{
    // a width that is known makes the loop of each kind shorter
    if leaf {
        gap_by(true, 2, start, words)
    } else {
        gap_by(false, 3, start, words)
    }
}

/// The largest gap of a node whose items have so many words.
fn gap_by(leaf: bool, width: usize, start: u64, words: &[u64; 32]) -> u64
    requires ascends { Ascends start (node_items leaf words.now) }
    requires width { width ≡ width_of leaf }
    ensures { result ≡ gap_of leaf start (node_items leaf words.now) }
{
    let mut start = start;
    let mut largest = 0;
    let mut place = 0;
    while place + width <= NODE_WORDS && words[place] != 0 {
        let item = listed_at(leaf, words, place);
        largest = item_gap(leaf, start, item).max(largest);
        start = item.end;
        place += width;
    }
    largest
}

/// Puts a child of an inner node in the place of the one that has a page, if that one ends where it does, and answers the largest
/// gap of the node then, where it was `gap`. None where it ends elsewhere: the words are then as they were.
pub fn swap_child(words: &mut [u64; 32], page: u64, child: NodeItem, gap: u64) -> Option<u64>
    requires ascends { Ascends 0 (node_items false words.old) }
    requires within { page < items_end 0 (node_items false words.old) }
    requires whole { words.old ≡ words_of_items false (node_items false words.old) }
    requires gap { gap_of false 0 (node_items false words.old) ≡ gap }
    ensures words { IfSome result (λ gap. words.new ≡ words_of_items false (spliced page child.end (child ∷ []) (node_items false words.old))) }
    ensures count { IfSome result (λ gap. length (spliced page child.end (child ∷ []) (node_items false words.old)) ≡ length (node_items false words.old)) }
    ensures gap { IfSome result (λ gap. gap ≡ gap_of false 0 (spliced page child.end (child ∷ []) (node_items false words.old))) }
    ensures none { IfNone result (words.new ≡ words.old) }
    ensures elsewhere { IfNone result ((item : NodeItem) → item_at page (node_items false words.old) ≡ Some item → item.end ≢ child.end) }
{
    let place = child_place(words, page);
    if words[place] != child.end {
        return None;
    }
    let before = words[place + 2];
    words[place + 1] = child.word;
    words[place + 2] = child.gap;
    Some(gap_then(words, gap, before, child.gap))
}

/// The largest gap of an inner node whose largest gap was `gap`, once a child's gap is `after`, which was `before`.
fn gap_then(words: &[u64; 32], gap: u64, before: u64, after: u64) -> u64
    requires { Ascends 0 (node_items false words.now) }
    ensures { (others : ℕ) → gap ≡ max before others → gap_of false 0 (node_items false words.now) ≡ max after others
        → result ≡ max after others }
{
    if gap <= after {
        after
    } else if before < gap {
        // another child has it
        gap
    } else {
        gap_in(false, 0, words)
    }
}

/// Where the words of the child of an inner node stand that has a page.
fn child_place(words: &[u64; 32], page: u64) -> usize
    requires ascends { Ascends 0 (node_items false words.now) }
    requires within { page < items_end 0 (node_items false words.now) }
    ensures room { result + 3 ≤ 32 }
    ensures place { result ≡ 3 * length (ending_by page (node_items false words.now)) }
    ensures item { item_at page (node_items false words.now) ≡ Some (listed_at false words.now result) }
{
    let mut place = 0;
    while words[place] <= page {
        place += 3;
    }
    place
}
