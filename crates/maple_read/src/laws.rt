//! Laws of loaded roots. Each is the contract of a function that does nothing.

ghost use Rattle.std.specs.Prelude.{ℕ};
ghost use Rattle.maple_node.specs.declared.root.Root.{Root as TreeRoot};
ghost use Rattle.node_slots.specs.declared.view.ShownTree.{ShownTree};
ghost use Rattle.node_slots.specs.declared.view.NodeView.{NodeView};
ghost use Rattle.node_slots.specs.Trees.{IsShown};
ghost use Rattle.node_slots.specs.Plays.{RowsExist};
ghost use Rattle.node_slots.specs.Views.{root_at};
ghost use Rattle.maple_read.specs.Walks.{HasLoaded};

/// A reader has loaded a root where `NodeTable::root` answered it.
pub fn a_root_that_was_loaded()
    ensures { (view : NodeView) (shown : ShownTree) → IsShown view.size.slots shown → RowsExist view.size.rows shown
        → HasLoaded (root_at view shown) shown.root }
{}

/// It has still loaded it after it read words of rows.
pub fn walks_keep_the_root()
    ensures { (view : NodeView) (root : TreeRoot) (words : ℕ) → HasLoaded view root → HasLoaded (record view { words = words }) root }
{}
