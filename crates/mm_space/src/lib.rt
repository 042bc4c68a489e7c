//! An address space that callers share: each has a pass of its own, calls and reads of the list go under the mmap lock,
//! faults only where they miss without it, and closing hands out the journal of all calls with the log of each caller.

// The problem. Up to 64 threads use one address space, and what they did has to be one order of all calls (the journal) that explains each
// result. Each thread owns a pass, and shares the space by reference:
//
//    operation      mmap lock                 what it does under it                          entry        log of the pass
//    call           once                      MmState::apply                                 yes          -
//    fault, fast    never                     -                                              -            version of its look
//    fault, slow    once, after a miss        grows? touch : verdict                         if it grew   if it didn't
//    maps           once                      copies the list                                -            version then
//    tell, hear     never                     -                                              -            -
//
// A call from lock to journal, beside a second caller and a fault:
//
//    caller A: munmap           caller B: mmap                  caller C: fault
//    takes the lock             waits for the lock              fault_fast: answered, or missed. Waits for nobody
//    MmState::apply: entry 7        ·
//    gives it back              takes it                        missed: waits for the lock as a call does
//                               apply: entry 8                      ·
//                               gives it back                   takes it: grows, or the verdict at version 8
//
// The order of the journal is the order in which calls had the lock. A fault or a read of the list is right at its version; the versions of one
// thread never fall, since each look or meeting shows all that was seen before. That is sequential consistency; no clause speaks of real time.
//
// Why a fault that missed asks `grows` before anything else. Only a call may change the list, so a fault that expands a stack has to be an entry
// of its caller (a touch). The list under the lock decides, not the miss: another caller may have mapped the page meanwhile, or the stack.
//
// Why a space has a name (`SpaceName`, a type). A value under a lock is known by its type alone. The name fixes the tables, the configuration and
// the room for entries, so that what comes out of the lock is the state of this space. `Space::close` takes all passes, and alone makes a
// `Closed`, whose fields are private: so a closed run was made on a space, by these passes.
//
// All memory is taken by `Ready::make`: for the journal one entry more than operations can make, so that there is room for the next whoever makes
// it. Only `maps` asks for more, and then takes no operation.
//
// To be changed freely: what is under the lock beyond the table. Not to be changed: that `fault` tries without the lock first and then takes it
// once (`takes`), and that the pass lends its `Unlocked` while it has the lock. In Linux: mmap_write_lock_killable round each call,
// lock_vma_under_rcu and then lock_mm_and_find_vma for a fault (mm/memory.c); reads share the lock there, here one caller has it at a time.

#![tactic(auto)]

mod closed;
mod closing;
mod laws;
mod name;
mod named;
mod ready;
mod space;

pub use closed::Closed;
pub use fault_path::Note;
pub use laws::{faults_lie_behind_calls_that_were_heard, faults_lie_behind_what_was_heard};
pub use name::SpaceName;
pub use named::Named;
pub use ready::Ready;
pub use space::{Called, Faulted, Path, Space};
