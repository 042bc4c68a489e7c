use mm_types::Row;

/// What the writer remembers of a row.
#[derive(Clone, Copy, Debug, PartialEq, Eq)]
pub(crate) struct RowNote {
    /// The first tree that may have it.
    pub(crate) first: u64,
    /// The row that it replaced, so that a node's next version goes to a row that holds nearly the same words.
    pub(crate) replaced: Row,
    /// Where it came to stand in the free list last.
    pub(crate) spot: u32,
}
