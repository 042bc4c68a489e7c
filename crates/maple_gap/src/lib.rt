//! Searches of the writer's tree of areas: where so many free pages begin, by the largest gaps that inner nodes keep, and the
//! areas beside a page. They read rows of the writer's table, and take no step that readers see.

// The problem. mmap without a fixed address goes to the highest free range below a page, or to the lowest above one. There may be 65,530 VMAs, so
// the search can't go along the gaps. Inner nodes keep the largest gap under each child, and the search goes only where a gap is long enough.
//
// The difficulty is the window: a child that crosses its edge may have its large gap outside. A child that lies whole in the window and has a gap
// of `len` pages surely has room. So of the items that may have room (`may_have`: by gap, and by the length of the part in the window), only
// those at an edge can turn out to have none. Linux goes back up then. Here the walk down keeps one more branch, the next best item
// (`Choice::second`, `Descent::spare`). The spare lies on the inner side of the first choice, so it doesn't cross the edge where the search
// begins. If the first walk ends in a node where nothing fits, a second walk from the spare finds the answer, or there is none. Five pages, as
// high as possible below page 30:
//
//               row 9: up to 20, gap 6 | up to 40, gap 7 | up to the limit, gap 900
//                      ┌───────┘                 └───────┐ crosses page 30: goes there first, and keeps the one up to 20 as the spare
//    row 4: 3 s1, 9 gap, 11 s2, 17 gap, 20 s3     row 6: 24 gap, 33 s4, 40 gap
//                                                 the gap of 7 pages lies past page 30, and 20 to 23 are four pages: nothing fits
//           11 to 16 are six pages: the answer is 12
//
// An entry that may have room has it, so nothing has to be tried in a leaf. That holds because two gaps never follow each other (maple_write): a
// free range is one entry of one leaf.
//
// The cost: at most 3 height + 3 rows are read, in two walks and for the gap of the root. The clause `reads` of each of the four says so: it counts
// on the count that it's handed (`Reads` of node_slots), and nothing here can begin another, since the writer is only lent to be looked at.
//
// `next_slot` and `before_slot` find the VMA at or above a page, and the one below it. A gap is followed by a VMA or by the limit, so the entry
// of the page and the one beside it decide; the second is sought in the same leaf first, where it mostly is.
//
// To be changed freely: how a node's items are gone through (`choose`), and the order of the two tests of `may_have`. Not to be changed: that the
// spare is replaced only by a deeper one, and that the second walk's spare isn't used: the bound of the search rests on two walks.
//
// In Linux: lib/maple_tree.c, mas_empty_area_rev (mas_rev_awalk, mas_ascend) and mas_empty_area, called by unmapped_area_topdown and
// unmapped_area of mm/mmap.c. `next_slot` is find_vma, and `before_slot` is near find_vma_prev.

#![tactic(auto)]

mod beside;
mod branch;
mod placing;
mod window;

pub use beside::{before_slot, next_slot};
pub use placing::{highest, lowest};
