//! The rules of an address space: what each call and each page fault answers and changes, as definitions over lists of areas; the
//! tests of requests and the areas that calls make, which run; and laws of the definitions.

// The problem. What does each call and each page fault do to the list of VMAs? This crate is the answer as definitions (specs/), and the parts of
// it that run: the tests of a request which ask nothing of the list, the new VMAs that calls make, and the verdict on a fault. docs/MODEL.md
// tells the same in tables.
//
//    specs/Mmap.antt, Munmap, Mprotect, Mremap, Brk, Mseal   a call as a list of rows, each a test and an answer; the first whose test holds decides
//    specs/Steps.antt                                        one match over the calls: `step`, the address space after a call, and its reply
//    specs/Placement.antt                                    a place is the greatest, or least, member of a set of free starts
//    specs/Verdicts.antt                                     a fault
//
//    definition          ┌──▶ area_model: a slow program that computes it
//    `mmap_rows` ..      ├──▶ sys_map .. sys_seal, by split_merge: a plan, which makes the list of the definition
//                        └──▶ history, vma_replay: what a legal result is
//
// A row of a definition and its test here stand in the same order (`mmap_rows`, `mmap_refusal`). The tests are in the order in which the row
// decides, not in the cheapest one: where two errors apply, the order is what a caller sees. Tests that need the list are the plans', or come in
// as an argument (`taken`).
//
// Addresses are bytes, and lists have pages. Numbers of definitions have no upper bound, so nothing wraps: `end_of` is a u128, since an address
// and a length together may need 65 bits.
//
// Laws (laws.rt, page_laws.rt, ..) say what the definitions come to: which pages a call changes and that all others stay, that a sealed page
// never changes, that lists stay sound, that so many calls add at most three VMAs each (area_limit.rt). They run nothing. If a definition is
// wrong, no proof notices, but a law may: that is what they are for.
//
// To be changed freely: how a test is computed, since each is proved equal to its row. Not to be changed without docs/MODEL.md, the suite and the
// model in Python (tools/vmatools): any row, or the order of rows. FLOOR is a third of the window of 47 bits, rounded up to a page, with wide
// addresses too.
//
// In Linux: do_mmap, do_munmap and do_brk_flags (mm/mmap.c, mm/vma.c), do_mprotect_pkey (mm/mprotect.c), mremap (mm/mremap.c), do_mseal
// (mm/mseal.c), unmapped_area_topdown, and handle_mm_fault with its callers. The rules here are the manual pages', with the choices that
// docs/MODEL.md lists; docs/KERNEL.md has the differences.

#![tactic(auto)]

mod area_limit;
mod brk_request;
mod faults;
mod growth;
mod growth_brk_seal_laws;
mod growth_laws;
mod laws;
mod limit_laws;
mod mmap_request;
mod mprotect_request;
mod mremap_request;
mod mseal_request;
mod munmap_request;
mod page_laws;
mod placement;
mod placement_laws;
mod seals;
mod tables;

pub use area_limit::{AREAS_BY_CALL, config_for};
pub use brk_request::{heap_area, is_below_heap, pages_between};
pub use faults::{area_verdict, permits};
pub use growth::{grown_to, is_above};
pub use growth_brk_seal_laws::{
    brk_changes_the_pages_between, growth_maps_one_page, mseal_seals_the_range, sealed_pages_stay,
    seals_and_holes_are_of_pages,
};
pub use growth_laws::growing_keeps_the_list_canonical;
pub use laws::{
    journal_laws, legal_journal_is_sound, move_carries_the_pages, new_object_is_fresh,
    protect_changes_the_prefix, step_keeps_soundness,
};
pub use limit_laws::{calls_make_few_areas, changes_make_few_areas, limit_is_not_reached};
pub use mmap_request::{is_fixed, is_noreplace, mmap_refusal, new_area, objects_numbered};
pub use mprotect_request::{mprotect_answer, stopped_reply};
pub use mremap_request::{
    Moved, MremapArgs, added_range, area_refusal, carried_area, lengthens, may_move, moves_to,
    mremap_refusal, old_range,
};
pub use mseal_request::mseal_answer;
pub use munmap_request::range_of;
pub use page_laws::{
    calls_change_only_their_pages, mmap_changes_its_pages, mprotect_changes_its_pages,
    mremap_changes_its_pages, munmap_changes_its_pages,
};
pub use placement::{Bounds, FLOOR, WINDOW_END, bounds_of, fits, hint_page, is_high, window_end};
pub use placement_laws::{
    floor_is_a_third_of_user_memory, greatest_below_finds_the_greatest,
    least_below_finds_the_least, narrow_placement, window_ends_with_narrow_memory,
};
pub use seals::guarded_ranges;
pub use tables::{end_of, is_aligned, is_refusal, pages_of};
