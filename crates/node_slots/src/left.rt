use mm_types::Row;

/// A row that was left.
#[derive(Clone, Copy, Debug, PartialEq, Eq)]
pub struct Left {
    pub row: Row,
    /// The first tree without it.
    pub since: u64,
}
