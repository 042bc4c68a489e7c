/// What a node lists, of either kind: an entry of a leaf, or a child of an inner node.
#[derive(Clone, Copy, Debug, Default, PartialEq, Eq)]
pub struct NodeItem {
    /// The first page after it. It begins where the one before it ends.
    pub end: u64,
    /// Of an entry the slot's number plus 1, or 0 for a gap; of a child its row.
    pub word: u64,
    /// Of a child its largest gap, in pages; of an entry 0.
    pub gap: u64,
}
