//! The grace protocol as a pure state: when a row of a tree may be used again while readers walk the tree without a lock.

// The problem. A reader walks a tree whose nodes the writer replaces meanwhile. A replaced node may be used again once no reader can reach it:
// its grace period has elapsed. Here is the whole protocol as a state and nine events, without shared words. node_slots plays it over words, and
// step_script by hand; both cite the facts of this crate, so it is proved once.
//
// The state: the present tree (its number and its rows), the words of each row, for each row the tree that left it out last (`since`), for each
// reader a pin and its snapshot, and what the writer's scans found (`Clearing`). A row is of the present tree, or waits, or is free:
//
//    free  ──publish lists it──▶  of the present tree  ──publish of tree t leaves it out──▶  waits since t  ──passed ≥ t──▶  free
//
// `passed` is the tree up to which every reader is cleared. A scan of one reader's pin finds one of three things:
//
//    even                             closed: it has no snapshot. Cleared up to the present tree
//    odd, not as at the last scan     it has opened since, so it has loaded no tree older than that scan's. Cleared up to that scan's tree
//    odd, as at the last scan         it may be the same visit. Cleared as before
//
// For example a reader that stays busy, and rows that tree 8 left out:
//
//    scan at tree 7: pin 5                    cleared up to what the scan before found
//    tree 8 is published: rows wait since 8
//    close: 6, open: 7, root: tree 8
//    scan at tree 8: pin 7, not 5             cleared up to 7: since the last scan it has opened, and tree 7 was present then
//    close: 8, open: 9, root: tree 8
//    scan at tree 8: pin 9, not 7             cleared up to 8. The rows are free, though no scan saw the reader closed
//
// Why a number and not a flag: a pin that was only open or closed would look the same to a scan after any number of visits, and a busy reader
// could hold rows for ever. A pin has 64 bits and rises by one at each event, so it doesn't come round in a run.
//
// `Facts` is what every state keeps: only an open reader has a snapshot; a row of a snapshot has the words that it had when its root was loaded;
// it is not free; and a row that waits or is free isn't in the present tree. The step that could break them is `Publish`, whose rows must be free
// or of the present tree, and each once (`RowNotFree`).
//
// To be changed freely: how a state is kept (vectors by row and by reader). Not to be changed: the three cases of `Clearing::looked`, and that a
// reader makes its pin odd before it loads a root, since an even pin clears it. A scan costs one load a reader. Linux instead waits until each
// CPU was seen outside of a read section (kernel/rcu/tree.c), and its readers write no shared word.

#![tactic(auto)]

mod applying;
mod clearing;
mod events;
mod laws;
mod protocol;
mod rows;
mod state;
mod tree;
mod writer_state;

pub use applying::apply;
pub use clearing::{Clearing, NEW_CLEARING, least};
pub use events::{GraceAnswer, GraceEvent, GraceRefusal};
pub use laws::{clearings_rise, pins_turn, rows_become_free, rows_stand_once, snapshots_stay};
pub use rows::Rows;
pub use state::GraceState;
