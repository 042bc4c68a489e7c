//! The lock protocol as a pure state: a sequence number, a lock sequence and a count of readers for each slot, rows of
//! four words, and a journal.

// The problem. A call changes VMAs while faults read them without the mmap lock. A fault must never read a VMA that is half changed, and must
// know after how many calls its VMA was right. Linux does it by per-VMA locks (include/linux/mm.h, vma_start_read and vma_start_write; the words
// are described at vm_lock_seq in include/linux/mm_types.h and in process_addrs.rst). Here is that protocol as a state and ten events, one for
// each atomic step. vma_lock plays it over shared words, and step_script by hand; the rule of the words cites this state and its facts, so it is
// proved once.
//
// The state, and who moves what when:
//
//    seq                2 at first. Begin: odd. End: even, and the entry is in the journal by the same step. Half of it less 1 is the version
//    slot: lock_seq     the seq at which a call marked the slot last. A slot is marked (write-locked) while this is seq
//    slot: count        how many readers hold the slot. Add and Sub of a reader. Mark is refused while it is above 0 (`ReadersLeft`)
//    slot: row          four words of a VMA, zeros if detached. Store, by the call that marked the slot (`NotMarked`)
//    reader: stage      Out, Holds { slot, found } after Add, Valid { slot, found, row } after a Look that found another seq than Add did
//
//              Add                Look: seq ≠ found             Field, Field, ..
//       Out ────────▶ Holds ─────────────────────────▶ Valid ───────────────────▶ Sub: Out
//                       │ Look: seq = found: marked, the fault misses: Sub
//
// Why it works. Add finds the lock sequence of the slot and counts the reader in by one step, so from then on no call can mark the slot. If the
// seq of the later Look differs from what Add found, the slot wasn't marked by a call that runs at the Look; and none can mark it until Sub. So
// the row stays as it is (`StaysValid`), and shows a VMA of the list after the journal that the Look saw. One End unlocks all VMAs: the seq moves
// on.
//
// `Facts` is what every state keeps: the sequence counts the journal; counts are the readers that hold, and what each found is still there; the
// journal is legal, and the rows show its list: exactly while no call runs, and in unmarked slots while one does; a validated reader's row stays.
// What the rows show is said by weights (specs/Rows.antt): however rows are weighed, the attached ones weigh as much as the list. An event
// changes one summand, so what it keeps is arithmetic, and no order of slots has to be spoken of.
//
// To be changed freely: how a state is kept, and the slow check of `End` (`NotTheList`), which compares the rows with the list of area_model. Not
// to be changed: Look after Add, never before; Mark before Store; the entry and the even seq by one step. Linux has a semaphore in place of the
// count in 6.13, and vm_refcnt later; it looks at mm_lock_seq before and after it tries the lock, here one look after suffices.

#![tactic(auto)]

mod applying;
mod events;
mod laws;
mod protocol;
mod rows;
mod stage;
mod state;

pub use applying::apply;
pub use events::{LockAnswer, LockEvent, StepRefusal};
pub use laws::rows_by_weight;
pub use stage::{SlotState, Stage};
pub use state::LockState;
