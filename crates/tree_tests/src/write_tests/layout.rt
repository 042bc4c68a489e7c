//! A plain check of a tree's layout: each node is read place by place, from the root down.
ghost use Rattle.std.specs.Prelude.{◌≡◌, ◌≤◌, ◌+◌};

use super::bench::Bench;
use maple_node::Layout;
use mm_types::{NoMemory, Row, Slot};
use std::alloc::Global;
use std::process::Abort;

/// The pages of an entry with its slot, or none for a gap.
#[derive(Clone, Copy, Debug, PartialEq, Eq)]
pub(super) struct Entry {
    pub(super) start: u64,
    pub(super) end: u64,
    pub(super) slot: Option<Slot>,
}

/// Where a node stands in its tree.
#[derive(Clone, Copy, PartialEq, Eq)]
enum Standing {
    Root,
    /// Below the root, on the rightmost path.
    Edge,
    Inside,
}

/// A node: its row, how many levels it has down to its leaves, its first page, and where it stands.
#[derive(Clone, Copy)]
struct Node {
    row: Row,
    height: u32,
    start: u64,
    standing: Standing,
}

impl Node {
    /// The fewest entries or children that it may have.
    fn least(self) -> usize {
        match (self.standing, self.height) {
            (Standing::Inside, 1) => 6,
            (Standing::Inside, _) => 4,
            (Standing::Root, 2..) => 2,
            _ => 1,
        }
    }

    /// The child in a row from a page on.
    fn child(self, row: Row, start: u64, is_last: bool) -> Node
        requires { 1 ≤ self.height }
        ensures { result.height + 1 ≡ self.height }
    {
        let standing = if !is_last || self.standing == Standing::Inside {
            Standing::Inside
        } else {
            Standing::Edge
        };
        Node {
            row,
            height: self.height - 1,
            start,
            standing,
        }
    }
}

/// Where a node ends, and its largest gap in pages.
#[derive(Clone, Copy, Debug, PartialEq, Eq)]
struct Bounds {
    end: u64,
    gap: u64,
}

/// Checks each node of a tree, and answers the entries of its leaves in order.
pub(super) fn check_tree<R: Abort>(
    rt: &R,
    alloc: Global,
    bench: &Bench,
) -> Result<Vec<Entry>, NoMemory> {
    let tree = bench.tree();
    let root = Node {
        row: tree.root,
        height: tree.height,
        start: 0,
        standing: Standing::Root,
    };
    let mut entries = Vec::new(alloc);
    let bounds = check_node(rt, bench, root, &mut entries)?;
    assert_eq!(rt; bounds.end, tree.limit.0);
    Ok(entries)
}

/// Checks a node and all below it, and adds their entries.
fn check_node<R: Abort>(
    rt: &R,
    bench: &Bench,
    node: Node,
    entries: &mut Vec<Entry>,
) -> Result<Bounds, NoMemory> {
    let Some(words) = bench.words(node.row) else {
        panic!(rt; "there is no row {}", node.row.0)
    };
    if node.height <= 1 {
        return check_leaf(rt, &words, node, entries);
    }
    let count = check_fill(rt, &words, node);
    let mut bounds = Bounds {
        end: node.start,
        gap: 0,
    };
    for place in 0..count {
        let Some((end, row, gap)) = Layout::<10>::inner_at(&words, place) else {
            panic!(rt; "there is no child {place}")
        };
        let child = node.child(row, bounds.end, place + 1 == count);
        let below = check_node(rt, bench, child, entries)?;
        assert_eq!(rt; below, Bounds { end, gap });
        bounds = Bounds {
            end,
            gap: bounds.gap.max(gap),
        };
    }
    Ok(bounds)
}

/// Checks a leaf, and adds its entries.
fn check_leaf<R: Abort>(
    rt: &R,
    words: &[u64; 32],
    node: Node,
    entries: &mut Vec<Entry>,
) -> Result<Bounds, NoMemory> {
    let count = check_fill(rt, words, node);
    let mut start = node.start;
    let mut gap = 0;
    for place in 0..count {
        let Some((end, slot)) = Layout::<16>::leaf_at(words, place) else {
            panic!(rt; "there is no entry {place}")
        };
        assert!(rt; start < end);
        if slot.is_none() {
            gap = (end - start).max(gap);
        }
        entries.push(Entry { start, end, slot })?;
        start = end;
    }
    Ok(Bounds { end: start, gap })
}

/// Checks that a node has enough entries or children and that its other words are 0, and answers how many it has.
fn check_fill<R: Abort>(rt: &R, words: &[u64; 32], node: Node) -> usize
    ensures { result ≤ 16 }
{
    let leaf = node.height <= 1;
    let count = used_places(words, leaf);
    assert!(rt;
        node.least() <= count,
        "{count} places in row {}",
        node.row.0
    );
    let width = if leaf { 2 } else { 3 };
    assert!(rt; words.iter().skip(count * width).all(|word| *word == 0));
    count
}

/// How many places of a node are used, up to the first that is not.
fn used_places(words: &[u64; 32], leaf: bool) -> usize
    ensures { result ≤ 16 }
{
    for place in 0..16 {
        let used = if leaf {
            Layout::<16>::leaf_at(words, place).is_some()
        } else {
            Layout::<10>::inner_at(words, place).is_some()
        };
        if !used {
            return place;
        }
    }
    16
}
