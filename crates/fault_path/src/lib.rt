//! Passes, and the faults that they make without the lock. A pass is what each caller of an address space has of its own: the
//! caller's seats at the table of areas and at the table of nodes, the log of what it read, and how many operations it has left.

// The problem. Most operations of a process are page faults, and all they need is one VMA. They should not wait for a call, nor for each other.
// So a fault finds its VMA without the mmap lock, by two protocols at once: the pin keeps the nodes of the tree that it walks (node_slots), and
// the count in the VMA's slot keeps the VMA's fields (vma_lock). It is lock_vma_under_rcu of mm/memory.c, with the fault itself added.
//
//    open                 pin odd                                     rcu_read_lock
//    root, walk           a slot for the page, in tree n              mas_walk                     none: Miss NoArea
//    add                  counted in the slot; finds lock sequence l  vma_start_read
//    look                 finds sequence s: at version s / 2 - 1                                   l = s: Miss Marked
//    read_row             the four words of the VMA                                                no page in it, or detached: Miss Elsewhere
//    close                pin even                                    rcu_read_unlock
//    sub                  counted out                                 vma_end_read
//
// Why the answer is right though the tree may be old, and the slot may have another VMA by now. Nothing is believed of the walk but a guess,
// which slot to look at. From the look on the slot isn't marked, and it can't be marked until `sub`. Its row shows a VMA of the list after the
// calls that the look saw, or zeros. A list has at most one VMA with the page: if the row has it, it is that one, and the verdict is the one at
// that version.
//
// Three races with a munmap of the page. The sequence is 16, slot 3 was marked last at 9, tree 7 is present. Time goes down:
//
//    fault, missed                              munmap
//    open; root: tree 7; walk: slot 3
//                                               begin: 17; mark slot 3: 17
//    add: finds 17; look: 17. Marked            store zeros; publish tree 8; end: 18
//    sub, close; now it waits for the mmap lock
//
//    fault, served                              munmap
//    open; root: tree 7; walk: slot 3; add: 9
//                                               begin: 17
//    look: 17, not 9: validated at version 7    mark: a reader is inside; tries again
//    read_row, close, sub: served               mark; store zeros; publish; end: 18. The munmap is after the fault
//
//    fault, too late                            munmap
//    open; root: tree 7; walk: slot 3
//                                               begin, mark, store, publish, end: 18
//    add: finds 17; look: 18: validated         (the slot isn't reused: the pin holds tree 7, see `lock_slot`)
//    read_row: zeros. Elsewhere
//
// A miss is never wrong, only slow: the caller then takes the mmap lock (mm_space), and the list decides. That no VMA has the page is never
// answered here: NoArea says so of one tree, and the page may belong below a stack that grows.
//
// A pass is what a thread owns: a seat at each table, the log of its reads, how many operations it has left, and `Unlocked`, the right to take
// the mmap lock, which it lends while it has the lock: so it can't take it twice. `Held` keeps the slot beyond the call (`read_lock`). A call
// that would change this VMA waits until `unlock`.
//
// To be changed freely: what a pass counts and logs. Not to be changed: the order of the steps above; that the page is tested against the row and
// not the tree; and that `fault_fast` is handed no runtime, so it can't wait or take a lock. In Linux the walk begins again where a VMA is
// detached, the page tables are changed under the VMA's lock, and a fault may sleep in it (`VM_FAULT_RETRY`): none of that is here.

#![tactic(auto)]

mod fast;
mod held;
mod locking;
mod notes;
mod pass;
mod view;

pub use fast::{Fast, Miss};
pub use held::Held;
pub use notes::Note;
pub use pass::{Pass, Rest, Unlocked};
pub use view::FaultView;

#[cfg(test)]
mod tests;
