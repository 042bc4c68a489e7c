//! Stores into a tree of areas: the pages of a span get a slot, or become a gap, and the nodes on the paths to them are built
//! anew in free rows, level by level. The rows of the old tree keep their words until the tree is published.

// The problem. A page fault walks the tree without a lock while a call changes it. So a node that a reader may see is never written: a store
// builds the nodes on its path anew in free rows, and shares every other node with the old tree. What it leaves out is retired (`leave`): the
// rows keep their words until no reader has a tree with them, which node_slots sees to. Until `publish_tree` nobody else knows of the new nodes.
//
// A store gives the pages of a span one entry: a slot, or a gap. It works from the entries (level 0) up. At each level at most three new items
// (`Replacement`) stand for the items between two pages. The nodes that list those are cut there, and the items that remain on both sides and the
// new ones between are packed into one, two or three nodes. These nodes are the new items one level up. Here pages 40 to 43 get slot 9, in a leaf
// that is full:
//
//    before                                           after: rows 3 and 9 are retired, row 5 is shared
//
//    row 9     60: row 3    95: row 5                 row 12    48: row 10    60: row 11    95: row 5
//                 │            │                                   │             │             │
//    row 3        │         row 5                     row 10       │          row 11         row 5
//      1..9       │                                     1..9  as they were      11..16
//      10: 48 gap                                       10: 40 gap
//      11..16                                           11: 44 slot 9
//                                                       12: 48 gap
//
// An item has only its end, and begins where the one before it ends. So the entry where a span ends needs no change, and the entry where it
// begins leaves a piece with a new end (`first`). 18 entries are too many for one leaf: 12 and 6, as `share` of maple_node has it. If a level's
// items are too few for a node, the next node's are taken in (`rebalanced`). The lists stay below 36 items: two nodes and three new items.
//
// The end. As soon as one new item has all pages, it is the root, and what is left above is retired: so a tree becomes lower. If the root's level
// leaves two or three items, a new root lists them: so it becomes higher by one. A gap takes in the gaps beside it, so that two gaps never follow
// each other: a free range is one entry, and a gap search has to look at one item only.
//
// How many rows. At most three nodes a level and one root: 3 height + 1. A store asks for 4 height + 4 free rows, and area_tree waits for them
// before a call begins. A row that was taken since the last publish is free again as soon as it is left, so the stores of one call don't add up.
//
// To be changed freely: the two shorter ways of `rebuild_level`. Most stores change one node a level. `swapped` then writes only the row and the
// gap of one child, and `renewed` copies words past the list; without them `rebuild_by_list` does the same for more time. Also the order in which
// rows are taken: `take_row_for` prefers one that held nearly the same words. Not to be changed: that rows are filled only while free, that nodes
// off the rightmost path have at least 6 entries or 4 children (nine levels suffice by that alone, see `sizes_of_trees`), and that a node's item
// has its largest gap (maple_gap believes it).
//
// In Linux: lib/maple_tree.c. `WriteState` is struct ma_wr_state, `store` is mas_store_prealloc. `renewed` is mas_wr_node_store, a split or a
// join is mas_split and mas_rebalance, and a store over several nodes is mas_wr_spanning_store. Linux writes into a node in place where its
// readers can bear it (mas_wr_slot_store, mas_wr_append); here no store does. Its nodes have the same room, 16 ranges and 10 with gaps, but their
// pivots are the last page of a range and not the first after it, and its rows are found by pointers, not by numbers.

#![tactic(auto)]

mod descent;
mod laws;
mod level;
mod rows;
mod state;
mod storing;
mod tree;

pub use laws::{new_trees_are_blank, sizes_of_trees};
pub use storing::{publish_tree, store};
