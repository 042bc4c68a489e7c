//! The root word, which names a tree by its number, its height and the row of its root.

ghost use Rattle.std.specs.Prelude.{◌≡◌, ◌<◌, ◌^◌, ℕ};
ghost use Rattle.maple_node.specs.Roots.{packed_root, unpacked_root, FitsRoot};

use mm_types::Row;

/// A tree: its number, its height and the row of its root. Height 1 is a single leaf.
#[derive(Clone, Copy, Debug, PartialEq, Eq)]
pub struct Root {
    pub tree: u64,
    pub height: u32,
    pub row: Row,
}

/// The root word of a tree: the row in its lowest 20 bits, then the height in 4, and then the tree's number.
#[tactic(auto, unfolding(crate::specs::Roots::packed_root))]
pub fn pack_root(root: Root) -> u64
    requires { FitsRoot root }
    ensures { result ≡ packed_root root }
{
    (root.tree << 24) + (u64::from(root.height) << 20) + u64::from(root.row.0)
}

/// The root that a root word names.
#[tactic(auto, unfolding(crate::specs::Roots::unpacked_root))]
pub fn unpack_root(word: u64) -> Root
    ensures root { result ≡ unpacked_root word }
    ensures fits { FitsRoot result }
{
    Root {
        tree: word >> 24,
        height: ((word >> 20) & 0xf) as u32,
        row: Row((word & 0xf_ffff) as u32),
    }
}

/// Packing and unpacking a root undo each other, and a root word has 64 bits.
#[tactic(auto, unfolding(crate::specs::Roots::packed_root, crate::specs::Roots::unpacked_root))]
pub fn root_packing_is_undone()
    ensures read_back { (root : Root) → FitsRoot root → unpacked_root (packed_root root) ≡ root }
    ensures written_back { (word : ℕ) → packed_root (unpacked_root word) ≡ word }
    ensures fits { (word : ℕ) → word < 2 ^ 64 → FitsRoot (unpacked_root word) }
    ensures word_fits { (root : Root) → FitsRoot root → packed_root root < 2 ^ 64 }
{}
