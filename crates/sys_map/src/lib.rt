//! The calls of mmap(2) and munmap(2) as plans over a list of areas, and page faults over one.

// The problem. mmap, munmap and a fault as they run: over any list of VMAs that can find by page (`Areas`), with as few look-ups as may be, and
// no memory.
//
//    plan_mmap     the tests of the request (area_rules), the place, the plan (split_merge: `plan_put`), and then: too many VMAs?
//    plan_munmap   the tests, `plan_cut`, too many VMAs?
//    plan_touch    the stack above the page, if it may grow: a plan of one change
//    verdict       a fault that expands no stack: two look-ups at most
//    grows         whether a fault expands a stack: one look-up
//
// Why "too many" comes last, and on the plan: the limit is on the list that the call would leave, so its length is known only then: that of the
// list, plus what the plan adds, minus what it takes away (`is_too_long`). A refused call empties its plan; nothing has changed by then.
//
// The test of seals isn't here. `guard` of sys_seal comes after, for all calls, so that a process that seals nothing pays nothing for seals.
//
// Where a mapping goes (hint.rt): at its hint if the pages there are free, else where the list has a place: `place`, or `place_high` for a hint
// at or above the 47-bit window. For AreaTree that is a gap search of the tree.
//
// To be changed freely: the order of look-ups. Not to be changed: the order of tests; each plan is proved to answer what its table does. In
// Linux: do_mmap, __mmap_region, do_munmap, expand_downwards, and generic_get_unmapped_area_topdown with the hint first.

#![tactic(auto)]

mod faults;
mod hint;
mod mapping;
mod refusal;
mod unmapping;

pub use faults::{grows, plan_touch, verdict};
pub use mapping::plan_mmap;
pub use unmapping::plan_munmap;
