//! The areas of an address space in a tree of their spans and slots, which each call publishes, with what each slot shows. The
//! areas beside a page and the places for new ones are found in the tree, so nothing here is linear in the number of areas but
//! the making of a list of them. Rows that readers may still read are waited for before a call, never within one.

// The problem. The tree has spans and slots; what else a VMA has (its attributes, its object) is in the row of its slot, in shared words. The
// caller that has the mmap lock needs VMAs as values, often and at no cost. So beside the tree is a plain array of records by slot (`Records`),
// which only this caller reads and writes, and which shows what the rows of the slots show:
//
//    page ──▶ tree (SpanTree):  span, slot ──▶ records[slot]: the VMA        under the mmap lock: `from`, `before`, `slot_of`
//                                         └──▶ row of the slot in vma_lock   without it: a fault
//
// The tree answers `from` (find_vma), `before` and the searches for free pages. Nothing here is linear in the number of VMAs but `copy_list`, a
// walk for /proc/PID/maps.
//
// Six changes, by what happens to the span. A store of the tree costs most of a call, so each is one store or none:
//
//    update   same pages, another record          none
//    insert   a free slot, at free pages          the new span
//    remove   all pages; remove_all: of VMAs      one gap
//             that adjoin each other
//    grow     free pages at its ends              the new span
//    shrink   it loses the pages at one end       these become a gap
//    split    another VMA gets those pages        these get the other slot
//
// The slot is all that a reader takes from the tree, and it believes only the slot's row (fault_path).
//
// `records` is written only up to the highest slot that showed a VMA, and AreaSlots hands out the lowest slot first: a trace of few VMAs touches
// little of a table for 65,530. `sealed` stays true once any slot showed a sealed VMA: while it is false, no call asks for seals
// (`may_be_sealed`). `list` is empty room, so that `into_list` takes no memory.
//
// To be changed freely: which of the changes mm_state picks; insert and remove alone would do. Not to be changed: that records and tree change
// together, which is the invariant (`IsAreaTree`). In Linux the tree's entries are pointers to the VMAs themselves, so no second array is needed.

// The tree (`SpanTree`). The state behind the mmap lock has one list of VMAs: a maple tree of spans and slots, of which readers may hold older
// versions. `SpanTree` is that tree with its one writer, and answers for two things that maple_write and node_slots leave open.
//
// That a call never lacks rows. A call can't stop in the middle: its sequence is odd, and VMAs are write-locked. So it waits before it begins
// (`prepare`), until enough rows are free for all stores up to the publish, and a store takes no memory and can't be refused. Readers alone are
// waited for, and once none is inside, enough rows are free (`rows_suffice`). How many is enough:
//
//    A tree of N VMAs has at most 2 N + 1 entries, since two gaps never follow each other. Nodes have 6 entries or 4 children at least, so a tree
//    has at most 2/9 of its entries in rows, and one for each level: 4 N / 9 + 9 rows, with nine levels.
//    While a call builds its tree, the present one keeps its rows. Nodes that the call itself made and left are free again at once. So besides the
//    present tree there is at most one more tree, and the path of the store that runs: 4 * 9 + 4 rows (maple_write).
//    4 N / 9 + 9 + 40 is below N / 2 + 60, which is what `prepare` waits for. The table has N + 128 rows (`rows_for` of mm_types): with the
//    present tree's 4 N / 9 + 9 taken and no reader inside, more than N / 2 + 60 of them are free.
//
// That each call publishes exactly one tree. `publish` asks for the seat of the lock's writer in an open call, before which as many ended as trees
// were published, and remembers at which sequence it did so. So tree n is the list after n calls, and a reader that
// loaded tree n knows which calls it can have seen.
//
// Tree 0 has no entries, since a new table has only zeros. The first `prepare` builds a tree of one gap, which the first call publishes.
//
// To be changed freely: how long one waits between two scans. Not to be changed: that the wait comes before the call. Within one, VMAs would stay
// write-locked for as long as a slow reader keeps its pin open. In Linux a call allocates its nodes before it stores (mas_preallocate,
// vma_iter_prealloc), and fails with ENOMEM if it can't.

#![tactic(auto)]

mod laws;
mod listing;
mod placing;
mod records;
mod resizing;
mod shown;
mod spans;
mod tally;
mod tree;
mod waiting;

pub use laws::{pairs_are_apart, rows_suffice};
pub use resizing::beside;
pub use shown::ShownArea;
pub use spans::SpanTree;
pub use tree::AreaTree;
