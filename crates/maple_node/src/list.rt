//! Short lists of items.

ghost use Rattle.std.specs.Prelude.{◌≡◌, ◌≤◌, ◌+◌, ◌++◌, length};
ghost use Rattle.maple_node.specs.Splices.{ending_after};

use crate::NodeItem;
use arrayvec::ArrayVec;

/// How many items a list has room for: those of two leaves of 16, and three new ones between, are 35.
const ROOM: usize = 40;

/// A list of at most 40 items, in an array of its own, so that no memory is asked for.
pub type ItemList = ArrayVec<NodeItem, ROOM>;

/// Adds those of the items that end above a page.
pub fn push_ending_after(list: &mut ItemList, page: u64, items: &[NodeItem])
    requires { length list.old.items + length items.now ≤ 40 }
    ensures { list.new.items ≡ list.old.items ++ ending_after page items.now }
{
    for item in items {
        if page < item.end {
            list.push(*item);
        }
    }
}

/// Adds all of the items.
pub fn push_all(list: &mut ItemList, items: &[NodeItem])
    requires { length list.old.items + length items.now ≤ 40 }
    ensures { list.new.items ≡ list.old.items ++ items.now }
{
    // there is room
    list.try_extend_from_slice(items).unwrap();
}
