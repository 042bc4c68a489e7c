//! The way down a tree to a page, which is walked once for a store, and from which the nodes beside it are found.

ghost use Rattle.std.specs.Prelude.{◌≡◌, ◌<◌, ◌≤◌, ◌+◌, ◌-◌, ℕ, List};
ghost use Rattle.node_slots.specs.Built.{words_at};
ghost use Rattle.maple_write.specs.Internal.Stores.{IsUpper, HasPage, IsDescent};

use crate::rows::{Rooted, words};
use maple_node::{NodeItem, Place, item_in};
use node_slots::{MayCount, NodeWriter};

/// How many levels a descent keeps, from the entries up. A published tree has no more: nine are enough for 131,061 entries, which 65,530 areas
/// and the gaps between them are (`sizes_of_trees`).
pub(crate) const LEVELS: usize = 9;

/// The way down a tree to a page: by level the item that has the page, and the page where it begins.
#[derive(Drop)]
pub(crate) struct Descent {
    pub(crate) tree: Rooted,
    pub(crate) page: u64,
    pub(crate) places: [Place; LEVELS],
}

/// What a descent has in a level that it does not keep.
pub(crate) const NO_PLACE: Place = Place {
    start: 0,
    item: NodeItem {
        end: 0,
        word: 0,
        gap: 0,
    },
};

/// Where a search begins: at an item that has its page, and at the item's level.
#[derive(Clone, Copy)]
pub(crate) struct Begin {
    pub(crate) level: u32,
    pub(crate) place: Place,
}

/// The item that has a page in the level below one, of which the item is given that has it.
fn down(
    writer: &NodeWriter,
    may: MayCount,
    tree: Rooted,
    low: u32,
    begin: Begin,
    page: u64,
) -> Begin
    requires tower { IsUpper (words_at writer.now) tree low }
    requires order { low < begin.level }
    requires high { begin.level ≤ tree.height }
    requires begins { HasPage (words_at writer.now) tree begin.level page begin.place }
    ensures level { result.level ≡ begin.level - 1 }
    ensures begins { HasPage (words_at writer.now) tree result.level page result.place }
{
    let level = begin.level - 1;
    let words = words(writer, may, begin.place.item.word);
    Begin {
        level,
        place: item_in(level == 0, words, begin.place.start, page),
    }
}

/// The root, which has each page.
fn above(tree: Rooted) -> Begin
    ensures level { result.level ≡ tree.height }
    ensures begins { (at : ℕ → List ℕ) (page : ℕ) → page < tree.top.end → HasPage at tree result.level page result.place }
{
    Begin {
        level: tree.height,
        place: Place {
            start: 0,
            item: tree.top,
        },
    }
}

impl Descent {
    /// Keeps the way down the tree to the page. The descent is filled where it stands, since it is long.
    pub(crate) fn descend(&mut self, writer: &NodeWriter, may: MayCount)
        requires tower { IsUpper (words_at writer.now) self.old.tree 0 }
        requires within { self.old.page < self.old.tree.top.end }
        ensures tree { self.new.tree ≡ self.old.tree }
        ensures places { IsDescent (words_at writer.now) 0 self.new }
    {
        let tree = self.tree;
        let page = self.page;
        let mut begin = above(tree);
        while begin.level > 0 {
            begin = down(writer, may, tree, 0, begin, page);
            self.keep(begin);
        }
    }

    /// Keeps the item of a level, if it is one of the lowest.
    fn keep(&mut self, begin: Begin)
        ensures tree { self.new.tree ≡ self.old.tree }
        ensures page { self.new.page ≡ self.old.page }
        ensures places { (at : ℕ → List ℕ) → IsDescent at (begin.level + 1) self.old
            → HasPage at self.old.tree begin.level self.old.page begin.place → IsDescent at begin.level self.new }
    {
        let level = begin.level as usize;
        if level < LEVELS {
            self.places[level] = begin.place;
        }
    }

    /// The lowest item of the descent, from a level on, that has a page, or else the root.
    fn nearest(&self, low: u32, page: u64) -> Begin
        requires order { low ≤ self.now.tree.height }
        requires within { page < self.now.tree.top.end }
        ensures order { low ≤ result.level }
        ensures high { result.level ≤ self.now.tree.height }
        ensures begins { (at : ℕ → List ℕ) → IsUpper at self.now.tree low → IsDescent at low self.now
            → HasPage at self.now.tree result.level page result.place }
    {
        let mut level = low;
        while level < self.tree.height && (level as usize) < LEVELS {
            let place = self.places[level as usize];
            if place.start <= page && page < place.item.end {
                return Begin { level, place };
            }
            level += 1;
        }
        above(self.tree)
    }
}

/// The item of a level that has a page, in the tree of a descent, and the page where it begins. The search begins at the lowest
/// item of the descent that has the page.
pub(crate) fn find(
    writer: &NodeWriter,
    may: MayCount,
    descent: &Descent,
    low: u32,
    page: u64,
) -> Place
    requires tower { IsUpper (words_at writer.now) descent.now.tree low }
    requires descent { IsDescent (words_at writer.now) low descent.now }
    requires order { low ≤ descent.now.tree.height }
    requires within { page < descent.now.tree.top.end }
    ensures { HasPage (words_at writer.now) descent.now.tree low page result }
{
    let mut begin = descent.nearest(low, page);
    while begin.level > low {
        begin = down(writer, may, descent.tree, low, begin, page);
    }
    begin.place
}
