//! The types that every layer shares: pages and areas, calls and their replies, faults, and
//! the configuration of an address space. A page has 4,096 bytes, and page `p` begins at address
//! `4096 p`; addresses, lengths and file offsets are in bytes, spans and record offsets in pages.

// The idea. Types that two layers share are here, and nothing else: a layer's own types stay in it. Each has the kernel's word beside ours:
//
//    Record     struct vm_area_struct: span, attributes, object, offset       Slot    where a VMA's fields are kept (the memory of a vm_area_struct)
//    Span       vm_start, vm_end; in pages                                    Row     a node of the tree, by its number in the table
//    Attr       vm_flags: what keeps neighbours apart                         Config  what a space is opened with: mmap_min_addr, mmap_base, ..
//    Call       the arguments of a system call                                Entry   a call with its caller and its reply: one of the journal
//    Verdict    what a fault finds: served, or a signal's code                Seen    a read with the version that it saw: one of a log
//
// Units. What comes from or goes to a program is in bytes (addresses, lengths, file offsets). What lists have is in pages (spans, offsets of
// records). A page has 4,096 bytes.
//
// The row of a VMA (packed.rt), as it lies in shared words, one word to an atomic load:
//
//    word 0    bits 63 .. 16   15         14 .. 10   9      8        7       6        5 .. 3   2 .. 0
//              lo              attached   0          heap   sealed   grows   shared   most     prot
//    word 1    hi
//    word 2    object
//    word 3    offset
//
// A detached VMA is four zeros: `attached` is set in every row of a VMA, so that the first word alone tells. A reader tests the bits that have to
// be 0, and that what it read is a valid VMA (`unpack`): words of no VMA are None, and no verdict.
//
// What counts without being there: `Steps<L>` is a number for contracts, of no bytes when the program runs, and L keeps two counts apart.
// `NoMemory` is the one answer that no clause ties to its cause.
//
// To be changed freely: nothing here is private to one crate, so any change is one of many. A field of Attr needs a bit of word 0 (five are
// unused), a place in `same_attr` of area_list, and a way in and out of texts. The numbers of flags are Linux's, and a law names each
// (`flag_bits`).

#![tactic(auto)]

mod area;
mod call;
mod config;
mod files;
mod flags;
mod laws;
mod memory;
mod packed;
mod slot;
mod sorts;
mod steps;
mod text;
mod validity;

pub use area::{Access, AreaList, Attr, Page, Prot, Record, Span, Verdict};
pub use call::{Call, Counters, Entry, Errno, MmapArgs, Reply, Seen};
pub use config::{
    ADDRESS_LIMIT, ADDRESSES_END, Config, DEFAULT_MIN, DEFAULT_TOP, MOST_AREA_END, MOST_AREAS,
    MOST_FILES, MOST_OBJECT_PAGES, PAGE_SIZE, WIDE_LIMIT, rows_for, slots_for,
};
pub use files::{FileRow, Files};
pub use flags::{
    MAP_ANONYMOUS, MAP_DENYWRITE, MAP_EXECUTABLE, MAP_FIXED, MAP_FIXED_NOREPLACE, MAP_GROWSDOWN,
    MAP_NORESERVE, MAP_POPULATE, MAP_PRIVATE, MAP_SHARED, MAP_STACK, MREMAP_DONTUNMAP,
    MREMAP_FIXED, MREMAP_MAYMOVE, PROT_EXEC, PROT_READ, PROT_WRITE, has_flag,
};
pub use laws::{flag_bits, profile_numbers};
pub use memory::NoMemory;
pub use packed::{pack, packing_is_undone, unpack};
pub use slot::{Row, Slot};
pub use sorts::sort_by_is_stable;
pub use steps::Steps;
pub use text::Text;
pub use validity::{holds_all, is_valid};
