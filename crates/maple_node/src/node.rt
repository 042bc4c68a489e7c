//! Nodes: whether they list an item, their largest gap, and how items are shared out among them.

ghost use Rattle.std.specs.Prelude.{◌≡◌, ◌<◌, ◌≤◌, ◌-◌, ◌*◌, Bool, true, false, [], length};
ghost use Rattle.maple_node.specs.Nodes.{node_items, most, least_items, item_gap};

use crate::{NodeItem, least, most};

/// Whether the words of a node, of either kind, list no item.
pub fn lists_nothing(words: &[u64; 32]) -> bool
    ensures none { (leaf : Bool) → result ≡ true → node_items leaf words.now ≡ [] }
    ensures some { (leaf : Bool) → result ≡ false → 1 ≤ length (node_items leaf words.now) }
{
    words[0] == 0
}

/// The largest gap in an item that begins at the page `start`: the whole of an entry that is a gap, 0 in another entry, and what
/// the item of a child says.
pub fn item_gap(leaf: bool, start: u64, item: NodeItem) -> u64
    ensures { result ≡ item_gap leaf start item }
{
    if !leaf {
        item.gap
    } else if item.word == 0 {
        item.end.saturating_sub(start)
    } else {
        0
    }
}

/// How many of the items that are left go into the next node: all if a node has room for them, and else so many that this node
/// and one more have enough.
pub fn share(leaf: bool, rest: usize) -> usize
    requires { 1 ≤ rest }
    ensures some { 1 ≤ result }
    ensures within { result ≤ rest }
    ensures most { result ≤ most leaf }
    ensures full { result < rest → least_items leaf ≤ result }
    ensures left { result < rest → least_items leaf ≤ rest - result }
    ensures one { rest ≤ most leaf → result ≡ rest }
    ensures two { rest ≤ 2 * most leaf → rest - result ≤ most leaf }
    ensures three { rest ≤ 3 * most leaf → rest - result ≤ 2 * most leaf }
{
    if rest <= most(leaf) {
        rest
    } else {
        (rest - least(leaf)).min(most(leaf))
    }
}
