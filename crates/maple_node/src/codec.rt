//! How the words of a node tell its items, one after another, and how many items it may have.

ghost use Rattle.std.specs.Prelude.{◌≡◌, ◌≤◌, ◌+◌, ◌^◌};
ghost use Rattle.maple_node.specs.Nodes.{most, least_items};
ghost use Rattle.maple_node.specs.Codec.{width_of, listed_at};
ghost use Rattle.maple_node.specs.Words.{slot_word, slot_of};

use crate::item::NodeItem;
use mm_types::Slot;

/// How many words a node has.
pub const NODE_WORDS: usize = 32;

/// How many items a node has at most: a leaf 16, an inner node 10.
pub fn most(leaf: bool) -> usize
    ensures { result ≡ most leaf }
{
    if leaf { 16 } else { 10 }
}

/// How many items a node has at least, if it does not end at the limit of the tree: a leaf 6, an inner node 4.
pub fn least(leaf: bool) -> usize
    ensures { result ≡ least_items leaf }
{
    if leaf { 6 } else { 4 }
}

/// How many words an item of a node has.
pub fn width_of(leaf: bool) -> usize
    ensures { result ≡ width_of leaf }
{
    if leaf { 2 } else { 3 }
}

/// The item that the words of a node list at a place.
pub fn listed_at(leaf: bool, words: &[u64; 32], place: usize) -> NodeItem
    requires { place + width_of leaf ≤ 32 }
    ensures { result ≡ listed_at leaf words.now place }
{
    NodeItem {
        end: words[place],
        word: words[place + 1],
        gap: if leaf { 0 } else { words[place + 2] },
    }
}

/// The word of a slot: its number plus 1, or 0 for none.
pub fn slot_word(slot: Option<Slot>) -> u64
    ensures { result ≡ slot_word slot }
{
    slot.map_or(0, |slot| u64::from(slot.0) + 1)
}

/// The slot that a word tells.
pub fn slot_of(word: u64) -> Option<Slot>
    requires { word ≤ 2 ^ 32 }
    ensures { result ≡ slot_of word }
{
    if word == 0 {
        None
    } else {
        Some(Slot((word - 1) as u32))
    }
}
