//! Nodes in shared words, for walks without a lock: a root word, a pin for each of up to 64 readers, and rows of 32 words.
//! A reader opens its pin, loads the root, and reads the rows of the tree that it names, which keep their words until the
//! reader closes. One writer fills free rows, publishes trees, and scans the pins to find which rows are free again.

// The problem. A reader walks the tree while the writer replaces nodes, and neither waits for the other. When may the writer use a row again that
// it left out of the tree? Linux asks RCU. Here the table itself can tell: each reader has a pin, and the writer looks at all pins.
//
// The words, in the order in which they lie. The root word and each pin are eight words apart, as many as a cache line has, so that no two of them
// share a line, wherever the block begins, and readers don't take one from another:
//
//    root word              number of the tree (40 bits) | height (4) | row of its root (20)        the writer stores it: `publish`
//    pin of reader 0, 1 ..  even: closed; odd: open. Rises by one at each `open` and `close`        its reader adds to it
//    row 0, row 1 ..        32 words of a node                                                      the writer stores them while the row is free
//
// A row goes round between four places, which only the writer knows (`free`, `left`, `notes` of NodeWriter):
//
//             take_row_for              publish                    leave, publish                  scan
//    free ────────────────────▶ taken ──────────▶ in the present tree ──────────▶ waits: left since tree t ─────▶ free
//      ▲                          │ leave                                          (a reader may still have a tree below t)
//      └──────────────────────────┘ at once: nobody has seen it
//
// A reader between `open` and `close` keeps the tree that it loaded: each row of that tree has the words of its publish. One against two scans:
//
//    reader                                   writer (tree 7 is present)
//    open: pin 4 to 5; root: tree 7
//                                             leave row 3; publish tree 8: row 3 is left since 8
//    word of row 3: as in tree 7
//                                             scan: pin 5 is odd, and wasn't seen before: it may have a tree from before. Row 3 waits
//    close: 6; open: 7; root: tree 8
//                                             scan: pin 7 is odd, but not the 5 of the last scan: it has opened since, so it has that scan's tree, 8,
//                                             or a later one. It is clear of every tree below 8. Row 3 is free
//
// The second scan needs no closed reader: busy readers can't hold rows back for ever. One that never closes holds its rows for ever.
//
// What is kept for speed: `words` has the writer's own copy of each row, so `fill` stores only words that differ, and `written` reads without a
// shared access. A store of a shared word costs some 7 ns (sequentially consistent), a compare nothing. For the same reason `take_row_for` gives
// a node's new version the row of its version before the last (choosing.rt). If this goes wrong, only time is lost.
//
// What is counted: each row that is read for the writer, on a count (`Reads`) that only a leave begins (`MayCount`). A search is handed a count and
// no leave, so its bound is on all that it reads.
//
// To be changed freely: which free row is taken. Not to be changed: the order open, root, words, close; that rows are stored only while free;
// that a row that waits is freed only up to the tree for which each reader is cleared (`Clearing` of grace_core); and the single writer:
// `NodeTable::new` makes one NodeWriter, which can't be copied, and it lies behind the mmap lock.
//
// Proof: the rule of the shared words (`GraceRule`) cites the state of grace_core, where the protocol is proved without words. A seat's view is
// what its owner knows of that state. In Linux: rcu_read_lock, rcu_assign_pointer and call_rcu (mas_free and mt_free_rcu of lib/maple_tree.c).

#![tactic(auto)]

mod choosing;
mod first_words;
mod left;
mod note;
mod opening;
mod places;
mod reading;
mod reads;
mod rows;
mod rule;
mod seats;
mod tree;
mod view;
mod writing;

pub use first_words::FirstWords;
pub use left::Left;
pub use reads::{MayCount, Reads};
pub use seats::{NodeSeat, NodeTable, NodeWriter};
pub use tree::Tree;
pub use view::{Known, NodeSeatKind, NodeView, SeenTree, SeenWriterState, ShownTree, Size};
