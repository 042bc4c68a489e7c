//! Looking up a page in the tree of areas, without a lock: a reader walks the tree of its snapshot from the root to a leaf.

// The problem. A fault looks its page up in a tree that a call may replace at any moment. It waits for nobody, and takes no memory.
//
//    open pin, load the root word: a tree of `height` levels            (node_slots; the caller)
//    for each inner level: ends one by one, until one is above the page; then the word after it: the row of the child
//    in the leaf: likewise; the word after the end is slot + 1, or 0 for a gap
//
// The words that it reads are those of the loaded tree's publish: the pin sees to that, and `HasLoaded` carries it from load to load. So the
// answer is the slot that this tree pairs with the page, however old the tree is by now. What the slot shows now, the caller has to ask
// (fault_path).
//
// The cost: at most 11 loads of an inner node and 17 of a leaf, each of one word, sequentially consistent. A row has 256 bytes: four cache lines, or
// parts of five.
//
// To be changed freely: in which order the ends of a node are looked at. Not to be changed: that nothing but words of rows is read between root
// and slot, and that it's handed no runtime.
//
// In Linux: mas_walk of lib/maple_tree.c (mtree_range_walk), under rcu_read_lock. There a node that was replaced is marked dead, and a walk that
// meets one begins again (ma_dead_node); here the loaded tree stays whole until the pin closes.

#![tactic(auto)]

mod laws;
mod walking;

pub use laws::{a_root_that_was_loaded, walks_keep_the_root};
pub use walking::walk;
