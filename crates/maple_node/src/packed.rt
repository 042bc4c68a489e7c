//! The words of a node, added one after another.

ghost use Rattle.std.specs.Prelude.{◌≡◌, ◌<◌, ◌≤◌, ◌+◌, ◌*◌, [], ◌∷◌, ◌++◌, length};
ghost use Rattle.std.specs.List.{flat_map};
ghost use Rattle.maple_node.specs.Nodes.{item_words, words_of_items, most};
ghost use Rattle.maple_node.specs.Codec.{width_of};
ghost use Rattle.maple_node.specs.Padding.{padded_node};

use crate::codec::NODE_WORDS;
use crate::item::NodeItem;
use std::marker::Model;

/// The words of a node as far as they were added, with zeros after them. They are added where they stand, since they are many.
#[derive(Drop)]
pub struct NodeWords {
    words: [u64; NODE_WORDS],
    used: usize,
}

impl Model for NodeWords {
    ghost use Rattle.std.specs.Prelude.{ℕ, List, take};
    ghost use Rattle.maple_node.specs.Padding.{IsPadded};

    ghost Value = { List ℕ };

    ghost view = { λ list. take list.used list.words };

    ghost invariant = { λ list. IsPadded list.used list.words };
}

impl NodeWords {
    /// No words.
    pub fn new() -> Self
        ensures { result ≡ [] }
    {
        NodeWords {
            words: [0; NODE_WORDS],
            used: 0,
        }
    }

    /// All 32 words.
    pub fn words(&self) -> &[u64; 32]
        ensures { result.now ≡ padded_node self.now }
    {
        &self.words
    }

    /// All 32 words, by value.
    pub(crate) fn into_words(self) -> [u64; 32]
        ensures { result ≡ padded_node self }
    {
        self.words
    }

    /// Adds a word.
    fn push(&mut self, word: u64)
        requires { length self.old < 32 }
        ensures { self.new ≡ self.old ++ word ∷ [] }
    {
        self.words[self.used] = word;
        self.used += 1;
    }

    /// Adds the words of an item: of an entry its end and its word, of a child also its largest gap.
    pub(crate) fn push_item(&mut self, leaf: bool, item: NodeItem)
        requires { length self.old + width_of leaf ≤ 32 }
        ensures { self.new ≡ self.old ++ item_words leaf item }
    {
        self.push(item.end);
        self.push(item.word);
        if !leaf {
            self.push(item.gap);
        }
    }

    /// Adds the words of items.
    pub fn push_items(&mut self, leaf: bool, items: &[NodeItem])
        requires { length self.old + width_of leaf * length items.now ≤ 32 }
        ensures { self.new ≡ self.old ++ flat_map (item_words leaf) items.now }
    {
        for item in items {
            self.push_item(leaf, *item);
        }
    }

    /// Adds words of another node.
    pub fn push_words(&mut self, words: &[u64])
        requires { length self.old + length words.now ≤ 32 }
        ensures { self.new ≡ self.old ++ words.now }
    {
        let end = self.used + words.len();
        self.words[self.used..end].copy_from_slice(words);
        self.used = end;
    }
}

/// The words of a node with these items: of an entry its end and its word, of a child also its largest gap; then zeros.
pub fn node_words(leaf: bool, items: &[NodeItem]) -> [u64; 32]
    requires { length items.now ≤ most leaf }
    ensures { result ≡ words_of_items leaf items.now }
{
    let mut words = NodeWords::new();
    words.push_items(leaf, items);
    words.into_words()
}
