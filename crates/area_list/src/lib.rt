//! Lists of areas: which are canonical and sound, what they map each page to, and their changes: cut, put, merge and new
//! attributes. Slow plain functions over lists, whose contracts are the definitions, and laws of these.

// The problem. What is an address space, before any call? A list of VMAs (*areas*) that ascend and don't overlap. Many lists say the same of
// memory, since a VMA can be cut in two and nothing changes. So a list is canonical if no two neighbours can merge. Then there is exactly one
// list for each map of pages (`page_map_determines_list`), and a statement about lists is one about pages.
//
//    joins          can two neighbours merge: the same attributes and object, and the second goes on in the object where the first ends
//    cut            the list without the pages of a span               munmap
//    put            a new VMA over what was there, then merge          mmap, mremap, brk
//    changed_list   other attributes on the mapped pages, then merge   mprotect, mseal
//    merge          joins neighbours from the left until none can
//
//    cut lo..hi         AAAA|AAAA|AA   ▶   AAAA|    |AA
//    put N at lo..hi    AAAA|AAAA|AA   ▶   AAAA|NNNN|AA, or one VMA if N joins both
//
// The laws say what each does to the map of pages: which pages change, to what, and that all others stay.
//
// Private anonymous memory has object 0 and offset 0 everywhere: two neighbours of it merge wherever they were mapped. Linux compares vm_pgoff
// there too (from the address where memory was mapped first), so memory that was written to and then moved may not merge; see docs/KERNEL.md.
//
// To be changed freely: how a list is changed; split_merge does it in a few changes near the span, and is proved to make these lists. Not to be
// changed: `joins` and `same_attr`, by which an attribute keeps neighbours apart. In Linux: can_vma_merge_before, can_vma_merge_after and
// is_mergeable_vma of mm/vma.c.

#![tactic(auto)]

mod areas;
mod attributes;
mod changes;
mod laws;
mod soundness;

pub use areas::{area_at, index_of, joins, overlap, page_of};
pub use attributes::{AttrChange, with_attr};
pub use changes::{changed_list, cut, merge, piece, put};
pub use laws::{
    cut_unmaps_the_span, merge_keeps_pages, new_attributes_change_the_span,
    page_map_determines_list, put_maps_the_span,
};
pub use soundness::sound;
