//! What a fault without the lock gives.

use mm_types::Verdict;

/// Why a fault without the lock was not answered.
#[derive(Clone, Copy, Debug, PartialEq, Eq)]
pub enum Miss {
    /// The tree of this number, which was loaded in the call, has no area at the page.
    NoArea { tree: u64 },
    /// The area was marked by a call that was open: its lock sequence and the sequence were both this.
    Marked { seq: u64 },
    /// The row of the area's slot had changed: it is detached, or its area lacks the page.
    Elsewhere { row: [u64; 4] },
}

/// What a fault without the lock gives.
#[derive(Clone, Copy, Debug, PartialEq, Eq)]
pub enum Fast {
    /// The verdict over the list of areas after so many entries of the journal. It is never that no area has the page.
    Answer { verdict: Verdict, version: u64 },
    /// The fault has to take the lock.
    Miss(Miss),
}
