//! The state behind the mmap lock: the tree of areas, which each call publishes, a table whose slots show them, and the journal of
//! the calls.

// The problem. A call has to change the list of VMAs, the tree that faults walk, the rows that they read, and the journal, so that at every
// moment a fault sees one list. All of this is behind the mmap lock, and one function orders it (`AreaStore::carry_out`):
//
//    plan_call          over the list as it is. Nothing has changed; a refused call is entered as well
//    lend               the caller's turn: only with it can its entry be made
//    make_ready         waits for node rows and slots: for readers of old trees. After this no memory and no row can be lacking
//    ── begin ───────   the sequence is odd
//    change_all         each change of the plan, from the last on: its slot is marked, which waits for the slot's readers; then the row is written.
//                       VMAs that shrink, grow or keep their pages are changed in the tree at once; others are taken out, and wait in `moved`
//    store_moved        the VMAs of `moved`, and new ones, go into the tree, whose pages are free by now
//    publish_areas      readers find the new tree: only while the sequence is odd
//    ── end ─────────   the sequence is even, and the entry is in the journal by the same step: all marks are over
//    meet               the caller has seen its entry, and has its turn again
//
// Why two passes over the changes (`moved`). The tree never has two VMAs with a page in common, also between two changes. A VMA that moves to
// pages which another still has could not go in yet. Taken out first and put in last, the order among changes doesn't matter. Most changes need
// no second pass: `alter` sees if the new span is an end of the old one, has room to grow, or shares the old one out with the VMA that moved last
// (`split`).
//
// From the last change on: a call detaches most VMAs in a row (munmap of many), and `run_before` takes those that adjoin each other out of the
// tree by one store.
//
// When a slot is free again. It leaves with the tree of its call (`retire`), and is free once that tree's grace period has elapsed: then no
// reader is on its way to it from an older tree. The row is zeros meanwhile, so correctness doesn't rest on it; it keeps a call from waiting for
// readers that looked up another VMA. `slots_for` of mm_types gives 2 N + 2 slots: those of the list, and as many as one call can add before
// those that it takes away are free again.
//
// Waiting. There are two kinds, and each is for readers alone: before `begin` for pins, and at each mark for the slot's count. Each try yields. A
// fault never waits while it has a pin open or a slot, so both end if faults end (no clause says so). For a held VMA (`read_lock`) a call waits
// as long as it is held.
//
// To be changed freely: which of update, grow, shrink, split a change uses; the runs. Not to be changed: the order of the table above. A verdict
// rests on rows alone, but a miss NoArea names tree n as the list after n calls. So each call publishes one tree, between its begin and its end:
// while no call is open, the present tree is that of the journal, and the rows show exactly its list (`facts`).
//
// In Linux: mmap_write_lock; vms_gather_munmap_vmas and the like plan, vma_start_write marks, vma_iter_store and vms_complete_munmap_vmas change
// the tree, vma_end_write_all is `end` (mm/vma.c, include/linux/mmap_lock.h). The journal has no like there.

#![tactic(auto)]

mod runs;
mod spans;
mod state;
mod store;

pub use state::MmState;
