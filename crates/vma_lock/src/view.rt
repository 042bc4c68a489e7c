use lock_core::{SlotState, Stage};
use mm_types::{Config, Entry};
use std::collections::LinkedList;

/// What a seat is for.
pub enum SeatKind {
    /// It is a caller's, and can hold slots.
    Reads,
    /// It makes the calls.
    Writes,
    /// It carries what one seat has seen to another.
    Note,
    /// It was joined into another.
    Spent,
}

/// What a look found: the sequence, and the journal; and whether the seat held a slot at it.
pub struct SeenAt {
    pub seq: u64,
    pub seen: LinkedList<Entry>,
    pub held: bool,
}

/// The last four words that were read.
pub struct LastWords {
    pub first: u64,
    pub second: u64,
    pub third: u64,
    pub fourth: u64,
}

/// How many looks, adds, reads of words and tries to mark a seat made, and what its last ones found.
pub struct Trace {
    pub looks: u64,
    pub adds: u64,
    pub fields: u64,
    /// How often it tried to mark a slot.
    pub tries: u64,
    /// The slot of its last add, and the lock sequence found there.
    pub added: Option<(u32, u64)>,
    /// The first look since that add.
    pub first: Option<SeenAt>,
    /// The first look since that add that found another sequence than the add found.
    pub valid: Option<SeenAt>,
    /// The last four words that it read.
    pub words: LastWords,
    /// The slot that it tried to mark last, and the mark word found there.
    pub tried: Option<(u32, u64)>,
}

/// What the writer knows of the table, which nobody else changes.
pub struct LockWriterState {
    pub seq: u64,
    pub slots: LinkedList<SlotState>,
    /// How many readers were made.
    pub made: u32,
}

/// What a seat knows. No value of it is made: it stands in contracts alone.
pub struct View {
    pub config: Config,
    pub kind: SeatKind,
    /// Where it stands as a reader of the protocol.
    pub stage: Stage,
    /// The journal as it has seen it.
    pub seen: LinkedList<Entry>,
    /// Whose seat it is.
    pub caller: u32,
    /// The caller whose turn it has: the right to have this caller's next entry made.
    pub turn: Option<u32>,
    /// What it had seen before the last seat was joined into it; after a look or an end since, the journal then; in a new seat,
    /// what it has seen.
    pub before: LinkedList<Entry>,
    /// What the seat that was joined into it last had seen; after a look or an end since, the journal then; in a new seat, what it
    /// has seen.
    pub joined: LinkedList<Entry>,
    /// A list that has every entry of the caller whose turn it has: what the seat that gave the turn had seen, what it had itself
    /// seen before a join since, or the journal at a look or an end since.
    pub own: LinkedList<Entry>,
    pub writer_state: LockWriterState,
    pub trace: Trace,
}
