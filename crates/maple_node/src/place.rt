//! The item that has a page.

ghost use Rattle.std.specs.Prelude.{◌≡◌, ◌<◌, ◌≤◌, Some};
ghost use Rattle.maple_node.specs.Nodes.{node_items, Ascends, items_end};
ghost use Rattle.maple_node.specs.Levels.{item_at};
ghost use Rattle.maple_node.specs.Splices.{ending_by};

use crate::{NodeItem, listed_at, width_of};

/// An item, and the page where it begins.
#[derive(Clone, Copy, Debug, PartialEq, Eq)]
pub struct Place {
    /// The first page of the item.
    pub start: u64,
    /// The item, which ends above that page.
    pub item: NodeItem,
}

/// The item of a node that has `page`, as the words of the node tell, where its first item begins at `start`. No list of the
/// others is made.
pub fn item_in(leaf: bool, words: &[u64; 32], start: u64, page: u64) -> Place
    requires ascends { Ascends start (node_items leaf words.now) }
    requires above { start ≤ page }
    requires within { page < items_end start (node_items leaf words.now) }
    ensures item { item_at page (node_items leaf words.now) ≡ Some result.item }
    ensures start { result.start ≡ items_end start (ending_by page (node_items leaf words.now)) }
    ensures above { result.start ≤ page }
{
    let width = width_of(leaf);
    let mut start = start;
    let mut place = 0;
    while words[place] <= page {
        start = words[place];
        place += width;
    }
    Place {
        start,
        item: listed_at(leaf, words, place),
    }
}
