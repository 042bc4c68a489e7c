//! The lock protocol over shared words: a sequence word, and for each slot a mark word and a row of four words. Up to
//! 64 readers count themselves in slots and look at the sequence, while one writer marks slots and writes rows. The
//! words and what the seats know always show one state of the protocol.

// The problem. lock_core has the lock protocol as a state. Real threads have 64-bit words, and each step must be one atomic access of one word.
// This crate places the words, and says of each access which event of the protocol it is (rule.rs names them), so that the proof of the state is
// the proof of the words.
//
// The words. The sequence and each slot have eight words, as many as a cache line has, so that no two mark words share a line, wherever the block
// begins. Where it begins at a line, which the allocator decides, readers of neighbouring slots share none at all:
//
//                  word                                              a call                        a reader
//    eight 0       seq                                               begin, end                    look
//    eight 1 + k   mark word of slot k: lock sequence * 256 + count  try_mark                      add + 1, sub - 1
//                  four words of its row                             write_row, once it is marked  read_row, while validated
//                  three words are unused
//
// The count and the lock sequence share a word, and that makes two steps atomic. `add` is one fetch-add: it counts the reader in and finds the
// lock sequence. `try_mark` is one compare-exchange, of the old lock sequence with count 0: it finds that no reader holds the slot, and marks it.
// 256 is enough: there are at most 64 readers, and each holds one slot.
//
// A fault and a call, and who moves which word when (slot 3 was marked at sequence 9, and the sequence is 16):
//
//    fault                                     call                                seq    mark word of slot 3
//                                              begin                               17     9 * 256
//    add: finds 9                                                                  17     9 * 256 + 1
//    look: 17, not 9: validated, version 7     try_mark: refused, ReadersLeft 1    17     9 * 256 + 1
//    read_row: four loads                      try_mark: refused                   17     9 * 256 + 1
//    sub                                                                           17     9 * 256
//                                              try_mark                            17     17 * 256
//                                              write_row; end                      18     17 * 256
//    add: finds 17                                                                 18     17 * 256 + 1
//    look: 18, not 17: validated, version 8                                        18     17 * 256 + 1
//
// `end` is a compare-exchange though only one writer stores the sequence: it hands the entry to the journal by the same step.
//
// The seats. Each thread's seat knows a beginning of the journal (its view). `lend` gives the writer a reader's turn, the token without which no
// entry of this caller can be made, and `meet` gives it back with the entry seen; a note (`split`, `take_note`) carries what one reader has seen
// to another. Views, turns and the journal are ghost state: what runs is the words, a version in each seat, and the writer's copy of the mark
// words (`marks`), which saves a load.
//
// To be changed freely: where words are placed (words.rt alone knows). Not to be changed: the access that each step is, for the rule speaks of
// one step each; and the order add, look, read_row, sub of a reader and begin, try_mark, write_row, end of the call. In Linux the row is the VMA
// itself, the mark word is vm_lock_seq with vm_lock (6.13) or vm_refcnt (later), and barriers are weaker: here all steps are sequentially
// consistent.

#![tactic(auto)]

mod notes;
mod opening;
mod reading;
mod rule;
mod seats;
mod turns;
mod view;
mod words;
mod writing;

pub use opening::FIRST_SEQ;
pub use seats::{NoteSeat, ReaderSeat, VmaTable, WriterSeat};
pub use view::{LastWords, LockWriterState, SeatKind, SeenAt, Trace, View};
pub use words::word_count;
pub use writing::ReadersLeft;
