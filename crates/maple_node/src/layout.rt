//! Nodes as rows of 32 words.

ghost use Rattle.std.specs.Prelude.{◌≡◌, ◌≤◌, ℕ, List, map, length, slice_get, true, false};
ghost use Rattle.maple_node.specs.Nodes.{words_of_items, node_items, Ascends};
ghost use Rattle.maple_node.specs.Words.{
  Entry,
  Child,
  entry_item,
  child_item,
  leaf_entry,
  inner_child,
  FitsLeaf,
  FitsInner,
  IsLeafOf,
  IsInnerOf,
};

use crate::codec::{listed_at, slot_of, slot_word};
use crate::item::NodeItem;
use crate::packed::NodeWords;
use mm_types::{Row, Slot};

/// The layout of a node by its number of places: 16 in a leaf, and 10 in an inner node.
pub struct Layout<const SLOTS: usize>;

impl Layout<16> {
    /// The entry at a place of a leaf: the first page after it, and its slot, or none for a gap. There is none from place 16
    /// on, where the place's first word is 0, and where its second is above 2^32.
    #[tactic(auto, unfolding(crate::specs::Words::leaf_entry))]
    pub fn leaf_at(words: &[u64; 32], place: usize) -> Option<(u64, Option<Slot>)>
        ensures { result ≡ leaf_entry words.now place }
    {
        if place >= 16 {
            return None;
        }
        let NodeItem { end, word, .. } = listed_at(true, words, 2 * place);
        if end == 0 || word > 1 << 32 {
            return None;
        }
        Some((end, slot_of(word)))
    }

    /// The words of a leaf: for each entry the first page after it, and its slot's number plus 1, or 0 for a gap; then zeros.
    pub fn leaf_words(entries: &[(u64, Option<Slot>)]) -> [u64; 32]
        requires few { length entries.now ≤ 16 }
        requires ascends { Ascends 0 (map entry_item entries.now) }
        ensures { result ≡ words_of_items true (map entry_item entries.now) }
    {
        let mut words = NodeWords::new();
        for entry in entries {
            let item = NodeItem {
                end: entry.0,
                word: slot_word(entry.1),
                gap: 0,
            };
            words.push_item(true, item);
        }
        words.into_words()
    }
}

impl Layout<10> {
    /// The child at a place of an inner node: the first page after it, its row, and its largest gap, in pages. There is none
    /// from place 10 on, where the place's first word is 0, and where its second has more than 32 bits.
    #[tactic(auto, unfolding(crate::specs::Words::inner_child))]
    pub fn inner_at(words: &[u64; 32], place: usize) -> Option<(u64, Row, u64)>
        ensures { result ≡ inner_child words.now place }
    {
        if place >= 10 {
            return None;
        }
        let NodeItem { end, word, gap } = listed_at(false, words, 3 * place);
        let row = u32::try_from(word).ok()?;
        (end > 0).then_some((end, Row(row), gap))
    }

    /// The words of an inner node: for each child the first page after it, its row, and its largest gap; then zeros.
    pub fn inner_words(children: &[(u64, Row, u64)]) -> [u64; 32]
        requires few { length children.now ≤ 10 }
        requires ascends { Ascends 0 (map child_item children.now) }
        ensures { result ≡ words_of_items false (map child_item children.now) }
    {
        let mut words = NodeWords::new();
        for child in children {
            let item = NodeItem {
                end: child.0,
                word: u64::from(child.1.0),
                gap: child.2,
            };
            words.push_item(false, item);
        }
        words.into_words()
    }
}

/// Packing the entries of a leaf and reading them undo each other: each place is read back, and there is nothing past the
/// last entry. Words that read as entries, and are 0 after them, are the words of these entries.
pub fn leaf_packing_is_undone()
    ensures read_back { (entries : List Entry) (place : ℕ) → FitsLeaf entries
        → leaf_entry (words_of_items true (map entry_item entries)) place ≡ slice_get entries place }
    ensures items { (entries : List Entry) → FitsLeaf entries
        → node_items true (words_of_items true (map entry_item entries)) ≡ map entry_item entries }
    ensures shown { (entries : List Entry) → FitsLeaf entries → IsLeafOf (words_of_items true (map entry_item entries)) entries }
    ensures written_back { (words : List ℕ) (entries : List Entry) → IsLeafOf words entries
        → words_of_items true (map entry_item entries) ≡ words }
{}

/// Packing the children of an inner node and reading them undo each other: each place is read back, and there is nothing
/// past the last child. Words that read as children, and are 0 after them, are the words of these children.
pub fn inner_packing_is_undone()
    ensures read_back { (children : List Child) (place : ℕ) → FitsInner children
        → inner_child (words_of_items false (map child_item children)) place ≡ slice_get children place }
    ensures items { (children : List Child) → FitsInner children
        → node_items false (words_of_items false (map child_item children)) ≡ map child_item children }
    ensures shown { (children : List Child) → FitsInner children
        → IsInnerOf (words_of_items false (map child_item children)) children }
    ensures written_back { (words : List ℕ) (children : List Child) → IsInnerOf words children
        → words_of_items false (map child_item children) ≡ words }
{}
