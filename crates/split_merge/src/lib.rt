//! Plans: a call's changes of a list of areas as a few steps, over any list that can find areas by page.

// The problem. munmap, mmap over what is mapped, mprotect, mseal, mremap and brk all do the same to the list of VMAs (*areas*): they cut a span
// out, or change the attributes in it, put at most one new VMA there, and merge what can merge. A call write-locks each VMA that it changes, so
// the plan should have only real changes, and the whole plan should be known before the first one is made: a refused call then has nothing to
// undo, and the limit of VMAs is tested on the list that the call would leave.
//
// The idea. One walk over the VMAs near the span, by ascending page, which builds the new list and compares it with the old one as it goes.
// "Near" takes in the VMA that ends where the span begins and the one that begins where it ends, since those may merge. Each old VMA is turned
// into pieces: what is below the span, what is within (gone, or with other attributes), what is above. Each piece is appended to the new list: it
// extends the VMA that is being built if the two merge, and else that one is done. An old VMA meets the span of a call in one of eight ways:
//
//                     lo           hi          unmapped                         attributes change
//      1    AAAAAAAAAA|            |           stays; a new VMA may extend it   stays; a changed piece may extend it
//      2    AAAAAAAAAA|AAAAA       |           Alter: ends at lo                Alter: ends at lo. Add: the changed piece
//      3    AAAAAAAAAA|AAAAAAAAAAAA|AAAAAAAA   Alter: ends at lo. Add: rest     Alter: ends at lo. Add: the changed piece, the rest
//      4              |AAAAAAAAAAAA|           Detach                           Alter: other attributes
//      5              |   AAAAA    |           Detach                           Alter: other attributes
//      6              |AAAAAAAAAAAA|AAAAAAAA   Alter: begins at hi              Alter: the changed piece. Add: the rest
//      7              |       AAAAA|AAAAAAAA   Alter: begins at hi              Alter: the changed piece. Add: the rest
//      8              |            |AAAAAAAA   stays; a new VMA may extend it   stays; a changed piece may extend it
//
// That is what is planned where nothing merges and no new VMA comes (one that takes the pages of 4 or 5 updates it: Alter). Where VMAs merge, the
// eight cases above vma_merge of mm/mmap.c (6.1) come out so. A is the new or changed range, P the VMA below it, N the one that has A's pages or
// is above, X the one above N:
//
//      1, 2   new A joins P and N; P only       Alter P to P+A+N, Detach N;  Alter P to P+A
//      3      new A joins N only                Alter N to A+N
//      4      A, the tail of P, joins N         Alter P to what is below A, Alter N to A+N
//      5      A, the head of N, joins P         Detach N, Alter P to P+A, Add what is above A
//      6, 7   A, all of N, joins P and X; P     Detach N and X, Alter P to P+A+X;  Detach N, Alter P to P+A
//      8      A, all of N, joins X only         Alter N to A+X, Detach X (Linux extends X and frees N, for its walks of reverse mappings)
//
// Which old VMA a new one updates in place (`Alter`): the first of which a piece goes into it, or else one whose first page it covers. An old VMA
// whose first piece goes into a VMA that already updates another is detached, as in case 5, and so is one that no new VMA covers.
//
// To be changed freely: the order of the changes, and which old VMA is updated in place. Clauses ask that the plan turns the one list into the
// other (`Makes`), that no change is void (`IsReal`) and that it stays near the span (`IsLocal`). Not to be changed: that the walk begins one
// page below the span and looks at the VMA that begins at its end, or merges are missed; and that between two spans (mremap) at most one VMA is
// looked at, or a call would be linear in the list.
//
// In Linux: mm/vma.c, vms_gather_munmap_vmas, __split_vma, vma_merge_new_range, vma_merge_existing_range, vma_modify. There a call splits and
// then merges, each a change of the tree by itself; here both are one difference of two lists.

#![tactic(auto)]

mod areas;
mod attributes;
mod becoming;
mod cut;
mod growth;
mod lookups;
mod plan;
mod planned;
mod planner;
mod protect;
mod put;
mod relocate;
mod scans;
mod stops;
mod walk;

pub use areas::Areas;
pub use attributes::plan_attributes;
pub use cut::plan_cut;
pub use growth::plan_growth;
pub use lookups::{area_at, grower, is_free, is_too_long};
pub use plan::{Change, Plan};
pub use planned::Planned;
pub use protect::plan_protect;
pub use put::plan_put;
pub use relocate::plan_move;
pub use scans::{has_hole, has_sealed};
