//! Laws of the layout of a tree. Each is the contract of a function that does nothing.

ghost use Rattle.std.specs.Prelude.{◌≡◌, ◌<◌, ◌≤◌, ◌^◌, ◌↔◌, ℕ, true, false, List, [], ◌∷◌, All, slice_get, IsSome};
ghost use Rattle.std.specs.Option.{option_map};
ghost use Rattle.maple_node.specs.declared.item.NodeItem.{NodeItem};
ghost use Rattle.maple_node.specs.declared.root.Root.{Root};
ghost use Rattle.maple_node.specs.Nodes.{items_end, Ascends};
ghost use Rattle.maple_node.specs.Levels.{IsNode, items_at, IsTower, Agree, times_among, item_at};
ghost use Rattle.maple_node.specs.Subtrees.{IsSubtree, subtree_entries, subtree_rows};
ghost use Rattle.maple_node.specs.Words.{entry_item, child_item, leaf_entry, inner_child};
ghost use Rattle.maple_node.specs.Trees.{Tree, IsLayout, IsFirst, IsTree, tree_of, top_of, tree_rows, entries_of, pairs_of};

/// Reading a node place by place gives its items in order, and nothing past the last, where slots and rows have 32 bits.
pub fn nodes_are_read_by_place()
    ensures leaf { (at : ℕ → List ℕ) (limit start : ℕ) (item : NodeItem) (place : ℕ) → IsNode at true limit start item
        → All (λ entry. entry.word ≤ 2 ^ 32) (items_at at true item.word)
        → option_map entry_item (leaf_entry (at item.word) place) ≡ slice_get (items_at at true item.word) place }
    ensures inner { (at : ℕ → List ℕ) (limit start : ℕ) (item : NodeItem) (place : ℕ) → IsNode at false limit start item
        → All (λ child. child.word < 2 ^ 32) (items_at at false item.word)
        → option_map child_item (inner_child (at item.word) place) ≡ slice_get (items_at at false item.word) place }
{}

/// A tree by levels is the tree from the root down: it is a subtree of its height, the entries are those that a walk from left to
/// right comes to, and the rows those of its nodes.
pub fn levels_are_subtrees()
    ensures tower { (at : ℕ → List ℕ) (limit height : ℕ) (top : NodeItem)
        → IsTower at limit 0 height (top ∷ []) ↔ IsSubtree at limit height 0 top }
    ensures entries { (at : ℕ → List ℕ) (tree : Tree) → entries_of at tree ≡ subtree_entries at tree.height tree.top }
    ensures rows { (at : ℕ → List ℕ) (tree : Tree) (row : ℕ)
        → times_among row (tree_rows at tree) ≡ times_among row (subtree_rows at tree.height tree.top) }
{}

/// A tree depends only on its own rows: where two tables agree on them, both have the same rows, entries and pairs from its
/// root on, and the one shows the tree exactly where the other does.
pub fn depends_on_its_rows()
    ensures rows { (at other : ℕ → List ℕ) (tree : Tree) → Agree at other (tree_rows at tree)
        → tree_rows at tree ≡ tree_rows other tree }
    ensures entries { (at other : ℕ → List ℕ) (tree : Tree) → Agree at other (tree_rows at tree)
        → entries_of at tree ≡ entries_of other tree }
    ensures pairs { (at other : ℕ → List ℕ) (tree : Tree) → Agree at other (tree_rows at tree)
        → pairs_of at tree ≡ pairs_of other tree }
    ensures layout { (at other : ℕ → List ℕ) (slots : ℕ) (tree : Tree) → Agree at other (tree_rows at tree)
        → IsLayout at slots tree ↔ IsLayout other slots tree }
    ensures tree { (at other : ℕ → List ℕ) (slots : ℕ) (root : Root)
        → Agree at other (tree_rows at (tree_of at root)) → IsTree at slots root ↔ IsTree other slots root }
{}

/// Tree 0 has one row, row 0, and no entries or pairs.
pub fn first_tree_is_empty()
    ensures rows { (at : ℕ → List ℕ) (root : Root) → IsFirst at root
        → tree_rows at (tree_of at root) ≡ 0 ∷ [] }
    ensures entries { (at : ℕ → List ℕ) (root : Root) → IsFirst at root
        → entries_of at (tree_of at root) ≡ [] }
    ensures pairs { (at : ℕ → List ℕ) (root : Root) → IsFirst at root
        → pairs_of at (tree_of at root) ≡ [] }
{}

/// The root of a tree that meets the layout stands in the tree's rows once, and names the tree: its row and height determine
/// where the tree ends and its largest gap, so the root of any later number that has them shows this tree.
pub fn root_stands_once()
    ensures once { (at : ℕ → List ℕ) (slots : ℕ) (tree : Tree) → IsLayout at slots tree
        → times_among tree.top.word (tree_rows at tree) ≡ 1 }
    ensures named { (at : ℕ → List ℕ) (slots : ℕ) (tree : Tree) → IsLayout at slots tree
        → tree.top ≡ top_of at tree.height tree.top.word }
    ensures shown { (at : ℕ → List ℕ) (slots : ℕ) (tree : Tree) (root : Root) → IsLayout at slots tree
        → 1 ≤ root.tree → root.height ≡ tree.height → root.row.0 ≡ tree.top.word → IsTree at slots root }
{}

/// No row of a tree is reached twice from its root.
pub fn rows_are_reached_once()
    ensures { (at : ℕ → List ℕ) (slots : ℕ) (root : Root) (row : ℕ) → IsTree at slots root
        → times_among row (tree_rows at (tree_of at root)) ≤ 1 }
{}

/// The entries of a tree that meets the layout cover the pages from 0 up to the limit with no hole: they ascend from page 0,
/// the last ends at the limit, and each page below it is in an entry.
pub fn entries_cover_pages()
    ensures some { (at : ℕ → List ℕ) (slots : ℕ) (tree : Tree) → IsLayout at slots tree
        → 0 < tree.top.end }
    ensures ascend { (at : ℕ → List ℕ) (slots : ℕ) (tree : Tree) → IsLayout at slots tree
        → Ascends 0 (entries_of at tree) }
    ensures limit { (at : ℕ → List ℕ) (slots : ℕ) (tree : Tree) → IsLayout at slots tree
        → items_end 0 (entries_of at tree) ≡ tree.top.end }
    ensures covered { (at : ℕ → List ℕ) (slots : ℕ) (tree : Tree) (page : ℕ) → IsLayout at slots tree
        → page < tree.top.end → IsSome (item_at page (entries_of at tree)) }
{}
