//! Laws of trees. Each is the contract of a function that does nothing.

ghost use Rattle.std.specs.Prelude.{◌≡◌, ◌<◌, ◌≤◌, ◌+◌, ◌-◌, ◌*◌, ◌^◌, ℕ, List, [], length};
ghost use Rattle.maple_node.specs.Trees.{Tree, IsLayout, entries_of, tree_rows};
ghost use Rattle.node_slots.specs.declared.tree.Tree.{Tree as View};
ghost use Rattle.node_slots.specs.declared.view.Size.{Size};
ghost use Rattle.node_slots.specs.declared.seats.NodeWriter.{NodeWriter};
ghost use Rattle.node_slots.specs.Views.{opened_node_view};
ghost use Rattle.node_slots.specs.Opening.{IsFreeFrom};
ghost use Rattle.node_slots.specs.Seats.{node_sight, free_of, retired_rows};
ghost use Rattle.node_slots.specs.Built.{IsBlank};

/// A tree has at most two rows for nine entries, and one more for each level; and each level more takes four times as many
/// entries.
pub fn sizes_of_trees()
    ensures rows { (at : ℕ → List ℕ) (slots : ℕ) (tree : Tree) → IsLayout at slots tree
        → 9 * length (tree_rows at tree) + 2 ≤ 2 * length (entries_of at tree) + 9 * tree.height }
    ensures height { (at : ℕ → List ℕ) (slots : ℕ) (tree : Tree) → IsLayout at slots tree → 2 ≤ tree.height
        → 6 * 4 ^ (tree.height - 2) < length (entries_of at tree) }
{}

/// The writer of a new table has tree 0, and a view of row 0 at height 1 is one from which stores can begin.
pub fn new_trees_are_blank()
    ensures { (writer : NodeWriter) (tree : View) (size : Size) (readers : ℕ) → node_sight writer ≡ opened_node_view size readers
        → IsFreeFrom 1 size.rows (free_of writer) → retired_rows writer ≡ [] → tree.root.0 ≡ 0 → tree.height ≡ 1 → 0 < tree.limit.0
        → IsBlank writer tree }
{}
