//! Going down the writer's tree.

ghost use Rattle.std.specs.Prelude.{◌≡◌, ◌<◌, ◌≤◌, ◌+◌, true, IfSome};
ghost use Rattle.std.specs.Option.{option_or};
ghost use Rattle.maple_node.specs.Nodes.{items_end};
ghost use Rattle.maple_node.specs.Levels.{is_leaf, item_at};
ghost use Rattle.maple_node.specs.Splices.{ending_by};
ghost use Rattle.node_slots.specs.Seats.{row_count};
ghost use Rattle.node_slots.specs.Built.{words_at, IsWriters};
ghost use Rattle.maple_gap.specs.Internal.Searches.{may_have_room, entries_under, best_under, best_of, spare_from, IsBranch, IsAnyBranch, IsSpare, IsFar, IsPartOf, IsRootOf};

use crate::window::{Side, Window, choose};
use maple_node::{NodeItem, Place, gap_in, item_in, lists_nothing};
use mm_types::Row;
use node_slots::{NodeWriter, Reads, Tree};

/// An item of the tree, and how many levels of nodes lie below it: none below an entry.
#[derive(Clone, Copy)]
pub(crate) struct Branch {
    pub(crate) place: Place,
    pub(crate) level: u32,
}

/// What going down a branch led to: a start, or none, and the branch that is left to search where there is none.
#[derive(Clone, Copy)]
pub(crate) struct Descent {
    pub(crate) found: Option<u64>,
    pub(crate) spare: Option<Branch>,
}

/// The words of a row. Counts one read.
fn words<'a>(writer: &'a NodeWriter, row: u64, reads: &mut Reads) -> &'a [u64; 32]
    requires { row < row_count writer.now }
    ensures words { result.now ≡ words_at writer.now row }
    ensures reads { reads.new ≡ reads.old + 1 }
{
    writer.nodes().written(writer, Row(row as u32), reads)
}

/// The whole tree as a branch, without the gap of its item. Tree 0, whose root lists nothing, is one gap. Counts one read.
pub(crate) fn root_of(writer: &NodeWriter, tree: &Tree, reads: &mut Reads) -> Branch
    requires tree { IsWriters writer.now tree.now }
    ensures root { IsRootOf writer.now tree.now result }
    ensures reads { reads.new ≡ reads.old + 1 }
{
    let row = u64::from(tree.root.0);
    let words = words(writer, row, reads);
    let end = tree.limit.0;
    if lists_nothing(words) {
        return Branch {
            place: Place {
                start: 0,
                item: NodeItem {
                    end,
                    word: 0,
                    gap: 0,
                },
            },
            level: 0,
        };
    }
    Branch {
        place: Place {
            start: 0,
            item: NodeItem {
                end,
                word: row,
                gap: 0,
            },
        },
        level: tree.height,
    }
}

/// The whole tree as a branch whose item tells its largest gap. Only a search for room needs that gap, which takes all words of the
/// root. Counts two reads at most.
pub(crate) fn root_with_gap(writer: &NodeWriter, tree: &Tree, reads: &mut Reads) -> Branch
    requires tree { IsWriters writer.now tree.now }
    ensures root { IsRootOf writer.now tree.now result }
    ensures branch { IsBranch (words_at writer.now) result }
    ensures reads { reads.new ≤ reads.old + 2 }
{
    let root = root_of(writer, tree, reads);
    if root.level == 0 {
        return root;
    }
    let Place { start, item } = root.place;
    let words = words(writer, item.word, reads);
    let gap = gap_in(root.level == 1, start, words);
    Branch {
        place: Place {
            start,
            item: NodeItem { gap, ..item },
        },
        level: root.level,
    }
}

/// The branch that is left to search: the second of two that were chosen, or else the one before.
fn spare_from(second: Option<Place>, level: u32, spare: Option<Branch>) -> Option<Branch>
    ensures { result ≡ spare_from second level spare }
{
    match second {
        Some(place) => Some(Branch { place, level }),
        None => spare,
    }
}

/// Goes down to an entry with room, at each node to the lowest item that may have room, or to the highest. Where it comes to a
/// node none of whose items may have room, another branch is left that may, if there is one. That branch does not cross the edge
/// of the window where the search begins, and an item inside the window that may have room has it, so from there one more way
/// down tells. Counts one read for each level at most.
pub(crate) fn descend(
    writer: &NodeWriter,
    window: Window,
    side: Side,
    from: Branch,
    reads: &mut Reads,
) -> Descent
    requires branch { IsBranch (words_at writer.now) from }
    requires room { may_have_room window (is_leaf from.level) from.place.start from.place.item ≡ true }
    requires some { 1 ≤ window.len }
    ensures best { best_under side window (words_at writer.now) from ≡ option_or result.found (best_of side window (words_at writer.now) result.spare) }
    ensures far { IsFar side window from.place → best_under side window (words_at writer.now) from ≡ result.found }
    ensures spare { IfSome result.spare (λ spare. IsSpare side window (words_at writer.now) spare × (spare.level ≤ from.level)) }
    ensures reads { reads.new ≤ reads.old + from.level }
{
    let mut branch = from;
    let mut spare = None;
    while branch.level > 0 {
        let level = branch.level - 1;
        let Place { start, item } = branch.place;
        let words = words(writer, item.word, reads);
        let choice = choose(window, side, level == 0, start, words);
        let Some(place) = choice.first else {
            return Descent { found: None, spare };
        };
        spare = spare_from(choice.second, level, spare);
        branch = Branch { place, level };
    }
    Descent {
        found: Some(window.edge(side, branch.place)),
        spare,
    }
}

/// The entry of a branch that has a page, and the page where it begins.
pub(crate) fn entry_at(writer: &NodeWriter, root: Branch, page: u64, reads: &mut Reads) -> Place
    requires branch { IsAnyBranch (words_at writer.now) root }
    requires above { root.place.start ≤ page }
    requires within { page < root.place.item.end }
    ensures item { item_at page (entries_under (words_at writer.now) root) ≡ Some result.item }
    ensures start { result.start ≡ items_end root.place.start (ending_by page (entries_under (words_at writer.now) root)) }
    ensures reads { reads.new ≤ reads.old + root.level }
{
    let mut branch = root;
    while branch.level > 0 {
        let level = branch.level - 1;
        let Place { start, item } = branch.place;
        let words = words(writer, item.word, reads);
        branch = Branch {
            place: item_in(level == 0, words, start, page),
            level,
        };
    }
    branch.place
}

/// The leaf of a branch that has a page, or the branch where it is an entry. Other pages of the leaf have their entries there too.
pub(crate) fn leaf_at(writer: &NodeWriter, root: Branch, page: u64, reads: &mut Reads) -> Branch
    requires branch { IsAnyBranch (words_at writer.now) root }
    requires above { root.place.start ≤ page }
    requires within { page < root.place.item.end }
    ensures branch { IsAnyBranch (words_at writer.now) result }
    ensures above { result.place.start ≤ page }
    ensures within { page < result.place.item.end }
    ensures same { IsPartOf (words_at writer.now) root result }
    ensures low { result.level ≤ root.level }
    ensures reads { reads.new + result.level ≤ reads.old + root.level }
{
    let mut branch = root;
    while branch.level > 1 {
        let level = branch.level - 1;
        let Place { start, item } = branch.place;
        let words = words(writer, item.word, reads);
        branch = Branch {
            place: item_in(false, words, start, page),
            level,
        };
    }
    branch
}

/// The entry of a branch that has a page, where the pages before it were found in a part of the branch: most such pages lie in
/// that part too, so there it is sought first.
pub(crate) fn entry_near(
    writer: &NodeWriter,
    root: Branch,
    part: Branch,
    page: u64,
    reads: &mut Reads,
) -> Place
    requires branch { IsAnyBranch (words_at writer.now) root }
    requires part { IsAnyBranch (words_at writer.now) part }
    requires same { IsPartOf (words_at writer.now) root part }
    requires above { root.place.start ≤ page }
    requires within { page < root.place.item.end }
    requires ending_after { part.place.start ≤ page }
    ensures item { item_at page (entries_under (words_at writer.now) root) ≡ Some result.item }
    ensures reads { reads.new ≤ reads.old + (root.level + part.level) }
{
    let near = if page < part.place.item.end {
        part
    } else {
        root
    };
    entry_at(writer, near, page, reads)
}
