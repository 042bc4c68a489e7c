/// A slot without its count of readers: its lock sequence, which is the kernel's `vm_lock_seq`, and its row.
#[derive(Clone, Copy, Debug, PartialEq, Eq)]
pub struct SlotState {
    /// 0, or the sequence at which a call marked the slot last.
    pub lock_seq: u64,
    /// The four words of an area, or of no area where all are 0.
    pub row: [u64; 4],
}

/// Where a reader stands.
#[derive(Clone, Copy, Debug, PartialEq, Eq)]
pub enum Stage {
    /// It holds no slot.
    Out,
    /// It holds a slot, in which its add found this lock sequence, and no look since has found another sequence.
    Holds {
        slot: u32,
        found: u64,
    },
    /// A look since its add found another sequence. The row had these words when the first such look was made.
    Valid {
        slot: u32,
        found: u64,
        row: [u64; 4],
    },
    /// It was joined into another reader.
    Gone,
}
