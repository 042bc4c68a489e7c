//! Laws of the rows of a tree. Each is the contract of a function that does nothing.
ghost use Rattle.std.specs.Prelude.{◌≡◌, ◌≤◌, ◌+◌, ℕ, false, List, length};
ghost use Rattle.mm_types.specs.declared.config.TheConstants.{MOST_AREAS};
ghost use Rattle.mm_types.specs.Config.{rows_for};
ghost use Rattle.maple_node.specs.Trees.{Tree, IsLayout, tree_rows, pairs_of};
ghost use Rattle.node_slots.specs.declared.seats.NodeWriter.{NodeWriter};
ghost use Rattle.node_slots.specs.declared.tree.Tree.{Tree as View};
ghost use Rattle.node_slots.specs.Seats.{row_count, free_of, is_present, is_kept, is_waiting};
ghost use Rattle.node_slots.specs.Built.{IsWriters, pairs_now};
ghost use Rattle.area_tree.specs.SpanTrees.{enough, ArePairs};

/// The pairs of a tree that meets the layout stand in order, with no page in common, and end at its limit or below it.
pub fn pairs_are_apart()
    ensures { (at : ℕ → List ℕ) (slots : ℕ) (tree : Tree) → IsLayout at slots tree
        → ArePairs slots tree.top.end 0 (pairs_of at tree) }
{}

/// A tree that meets the layout and has few pairs has so few rows that enough others are left in its table: where no row waits,
/// and the tree that the writer builds is the present one, enough rows are free. So no call is refused because no row is free.
pub fn rows_suffice()
    ensures rows { (at : ℕ → List ℕ) (slots areas : ℕ) (tree : Tree) → IsLayout at slots tree
        → length (pairs_of at tree) ≤ areas → areas ≤ MOST_AREAS → length (tree_rows at tree) + enough areas ≤ rows_for areas }
    ensures free { (writer : NodeWriter) (tree : View) (areas : ℕ) → IsWriters writer tree → row_count writer ≡ rows_for areas
        → length (pairs_now writer tree) ≤ areas → areas ≤ MOST_AREAS → ((row : ℕ) → is_present writer row ≡ is_kept writer row)
        → ((row : ℕ) → is_waiting writer row ≡ false) → enough areas ≤ length (free_of writer) }
{}
