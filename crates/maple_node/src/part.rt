//! Parts of nodes, as their words tell them.

ghost use Rattle.std.specs.Prelude.{◌≡◌, ◌≤◌, ◌+◌, ◌++◌, length};
ghost use Rattle.maple_node.specs.Nodes.{node_items, most};
ghost use Rattle.maple_node.specs.Parts.{keeps, part_of};

use crate::list::ItemList;
use crate::{NODE_WORDS, listed_at, width_of};

/// A part of the items of a node.
#[derive(Clone, Copy, Debug, PartialEq, Eq)]
pub enum Part {
    /// All items.
    Whole,
    /// Those that end up to a page.
    EndingBy(u64),
    /// Those that end above a page.
    EndingAfter(u64),
}

impl Part {
    /// Whether an item that ends at a page belongs to the part.
    fn keeps(self, end: u64) -> bool
        ensures { result ≡ keeps self end }
    {
        match self {
            Part::Whole => true,
            Part::EndingBy(page) => end <= page,
            Part::EndingAfter(page) => page < end,
        }
    }
}

/// Adds a part of the items of a node, as its words list them. No other list of them is made.
pub fn push_part(list: &mut ItemList, part: Part, leaf: bool, words: &[u64; 32])
    requires { length list.old.items + most leaf ≤ 40 }
    ensures items { list.new.items ≡ list.old.items ++ part_of part (node_items leaf words.now) }
    ensures most { length list.new.items ≤ length list.old.items + most leaf }
{
    let width = width_of(leaf);
    let mut place = 0;
    while place + width <= NODE_WORDS && words[place] != 0 {
        let item = listed_at(leaf, words, place);
        if part.keeps(item.end) {
            list.push(item);
        }
        place += width;
    }
}
