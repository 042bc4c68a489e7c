use mm_types::{Call, Slot};

/// One step of the protocol. A number that comes first is the reader's; in `End` it is the caller's. What comes second in `Field`
/// and in `Store` is the number of the word in its row.
#[derive(Clone, Copy, Debug, PartialEq, Eq)]
pub enum LockEvent {
    /// The reader is counted in the slot, and holds it.
    Add(u32, Slot),
    /// The reader reads the sequence.
    Look(u32),
    /// The reader reads a word of the row of the slot that it holds.
    Field(u32, u32),
    /// The reader gives its slot back.
    Sub(u32),
    /// A call begins.
    Begin,
    /// The call marks a slot.
    Mark(Slot),
    /// The call writes a word of the row of a slot that it marked.
    Store(Slot, u32, u64),
    /// The call ends, and its entry stands in the journal.
    End(u32, Call),
    /// A new reader is made, which has seen what this one has.
    Split(u32),
    /// The second reader is joined into the first, which has then seen the longer of both lists.
    Join(u32, u32),
}

/// What an event finds.
#[derive(Clone, Copy, Debug, PartialEq, Eq)]
pub enum LockAnswer {
    /// The lock sequence that an add found.
    Found(u64),
    /// The sequence that a look found, where it is the lock sequence that the reader's add found.
    Marked(u64),
    /// The sequence that a look found, and its version.
    Version { seq: u64, version: u64 },
    /// A word of a row.
    Word(u64),
    /// The number of a new reader.
    Made(u32),
    /// Nothing is found.
    Done,
}

/// Why an event is refused.
#[derive(Clone, Copy, Debug, PartialEq, Eq)]
pub enum StepRefusal {
    /// No call is open.
    NotOpen,
    /// So many readers hold the slot.
    ReadersLeft(u64),
    /// The call has not marked the slot.
    NotMarked,
    /// The reader holds no slot.
    NotHeld,
    /// There is no such slot or reader, or a reader would be joined into itself.
    NoSlot,
    /// A call is open already.
    AlreadyOpen,
    /// The reader holds a slot already.
    AlreadyHeld,
    /// The rows do not show the list after the call. Attached rows are compared with it in the order of their first
    /// pages, those of one page in the order of their slots, and differ from it first at this place.
    NotTheList(u64),
    /// Out of memory.
    NoMemory,
}
