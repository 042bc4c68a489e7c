//! An address space without locks, whose areas lie in chunks of some dozens each: a few searches find an area or a place, and a
//! change moves the areas of one chunk.

// The problem. Judging a history, a session, and `check` make calls one after another, with no reader beside them. They need no shared words, no
// grace periods and no waits: only a list that is changed by plans, found in by page, and searched for free pages. `AreaChunks` is that list, and
// PlainSpace a list with a configuration.
//
//    chunks   ┌ lo ....... hi ┐  ┌ lo ...... hi ┐  ┌ lo ..... hi ┐      sorted; each has up to 1024 VMAs, and the widest gap between two of them
//             │ A A A A A A A │  │ A A A A A    │  │ A A A       │
//             └ widest: 30    ┘  └ widest: 4    ┘  └ widest: 900 ┘      spares: empty chunks, made when the space is
//
// Finding is two binary searches, over chunks and in one. A change moves the VMAs of one chunk. A search for free pages looks at each chunk once,
// and goes into those alone in which `widest`, or the gap beside the chunk, is long enough.
//
// No change takes memory. So all chunks are made at the beginning: twice as many as hold the VMAs that are allowed at half full, and two. They
// are few and roomy, since room that isn't used isn't touched.
//
//    LARGE  128     a chunk with so many is divided while a spare one is there: moving VMAs is what a change costs, so chunks stay small
//    full  1024     and no spare is left: all VMAs are shared out anew to chunks of 512 (`HALF`), and at least half of the chunks are spare again
//
// `widest` is kept up to date at each change (`widest_after`): all gaps of a chunk are looked at only if a widest one has gone.
//
// One definition for both stores: this one and AreaTree (area_tree) implement `Areas`, plans are made over either, and each is proved to make the
// definition's list. So what a history is judged by is the model, and what ran is other code.
//
// To be changed freely: all of the chunks, behind `Areas` and `apply`. Not to be changed: that `new` takes all the memory, since later calls
// answer no NoMemory; and `restart`, by which a session opens its next space without any.
//
// In Linux: nothing is like it; the nearest is tools/testing/vma, which runs mm/vma.c in user space without locks.

#![tactic(auto)]

mod binary_search;
mod changing;
mod chunk;
mod chunks;
mod finding;
mod placing;
mod room;
mod scanning;
mod space;
mod store;

pub use chunks::AreaChunks;
pub use room::Room;
pub use space::PlainSpace;
