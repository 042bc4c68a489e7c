//! The plain model of an address space: slow functions over lists whose contracts are the definitions. Each later layer is
//! compared with them; no run of the program calls them but the core of scripts.

// The problem. The definitions of area_rules are read, not run. A slow program that computes them shows that they can be met, and is the plain
// answer when a plan seems wrong. Each function here is a table or a row of it as code, over a whole list, and its contract is the definition
// itself.
//
//    model_step    one call by its table (mmap_table.rt ..), then the guard of seals (seal_guard.rt): a new list, counters, a reply
//    grows, model_verdict    a fault
//    is_ready      whether a step may be taken over this list: sound, and with room for one object more
//
// It copies the list at each call, and goes along it for each search: linear where the plans look up by page. What runs a trace is split_merge
// and the sys_ crates over AreaTree, and what judges one the same plans over AreaChunks. Only scripts run this (`end` of the lock core, in
// lock_core): 10,000 lines at most, over lists of at most 8 slots.
//
// Where to look when an answer is in doubt: the table of the call in docs/MODEL.md, its rows in area_rules/specs, and its file here, which has
// the rows in the same order.
//
// To be changed freely: how anything is computed; it may be as slow as it likes. Not to be changed: that it shares no code with the plans but the
// tests of requests (area_rules), `joins` and pieces (area_list): or comparing the two would show less.

#![tactic(auto)]

mod brk_table;
mod faults;
mod growing;
mod mmap_table;
mod mprotect_table;
mod mremap_table;
mod mseal_table;
mod munmap_table;
mod placement;
mod readiness;
mod seal_guard;
mod step;
mod tables;
mod touch_table;

pub use area_list::sound;
pub use faults::model_verdict;
pub use growing::grows;
pub use readiness::is_ready;
pub use step::{Stepped, model_step};
