use crate::rows::Rows;
use mm_types::Row;

/// One step of the protocol. A number alone is a reader's.
#[derive(Debug, Drop)]
pub enum GraceEvent {
    /// The reader opens: its pin becomes odd.
    Open(u32),
    /// The reader loads the root of the present tree, which is its snapshot from then on.
    Root(u32),
    /// The reader loads the word of a row of its snapshot.
    Word(u32, Row),
    /// The reader closes: its pin becomes even, and its snapshot ends.
    Close(u32),
    /// The writer stores the word of a free row.
    Fill(Row, u64),
    /// The writer makes the tree of this number and these rows the present one. The first row is its root.
    Publish { tree: u64, rows: Rows },
    /// The writer loads the reader's pin.
    Scan(u32),
    /// A new reader is made, which is closed.
    Split(u32),
    /// The second reader is joined into the first, and no longer counts.
    Join(u32, u32),
}

/// What an event finds.
#[derive(Clone, Copy, Debug, PartialEq, Eq)]
pub enum GraceAnswer {
    /// The number and the root of the present tree.
    Tree { tree: u64, row: Row },
    /// The word of a row.
    Word(u64),
    /// A reader's pin.
    Pin(u64),
    /// The number of a new reader.
    Made(u32),
    /// Nothing is found.
    Done,
}

/// Why an event is refused.
#[derive(Clone, Copy, Debug, PartialEq, Eq)]
pub enum GraceRefusal {
    /// The reader is not open.
    NotOpen,
    /// The row to fill is not free; or it is the first of the listed rows that is neither free nor of the present tree, or that
    /// is listed more than once.
    RowNotFree(Row),
    /// The reader has no snapshot, or its snapshot does not have the row.
    RowNotShown(Row),
    /// This is not the number after that of the present tree.
    WrongTree(u64),
    /// The reader is open already.
    AlreadyOpen,
    /// Out of memory.
    NoMemory,
}
