ghost use Rattle.std.specs.Prelude.{◌≡◌};

use mm_types::{Page, Row};

/// The writer's own view of the tree that it builds, or of the present one: the row of its root, its height, and the first page
/// after it. Height 1 is a single leaf.
#[derive(Clone, Copy, Debug, PartialEq, Eq)]
pub struct Tree {
    pub root: Row,
    pub height: u32,
    pub limit: Page,
}

impl Tree {
    /// The view of tree 0, a leaf without entries in row 0, whose pages are to end at this one.
    pub fn new(limit: Page) -> Tree
        ensures root { result.root.0 ≡ 0 }
        ensures height { result.height ≡ 1 }
        ensures limit { result.limit ≡ limit }
    {
        Tree {
            root: Row(0),
            height: 1,
            limit,
        }
    }
}
