//! Texts of flags, as `PROT_READ|PROT_WRITE`, and the bits that they stand for: those of mmap(2),
//! mprotect(2) and mremap(2). A text is `0`, the name that stands for no flag, or names joined by `|`
//! without spaces. Names are compared byte for byte.

// The problem. A trace has names where a call has bits: `MAP_PRIVATE|MAP_FIXED`. Names are read and printed for a million lines, and none may
// stand for two bits, nor a bit without a name come in.
//
//    table      kind.rt: rows of (name, bit), one list for each of PROT_, MAP_ and MREMAP_; the order is the order of printing
//    reading    the first word up to `|` is compared with each name in place; bits are collected; a name that is there already is `Twice`
//    printing   the names of the bits that are there, in the table's order, joined by `|`; none: PROT_NONE, or 0
//
// Reading and printing undo each other (laws.rt), for each sound table: names are different, bits are different powers of two. `0` is the only
// number that is read. A text of flags is refused for its first bad word from the left, and only to keep a copy of this word is memory taken.
//
// Why a macro (`rows!`). A table's rows stand once, and each use of them (bits, reading, printing) is code in which each name is a literal. A
// name's length and last byte are compared first, which tell most names apart.
//
// To be changed freely: how names are compared. To add a flag: its row in kind.rt, its constant and bit in mm_types; what it does is elsewhere
// (area_rules). Not to be changed: names, which are Linux's (include/uapi/linux/mman.h, asm-generic/mman-common.h), and that each has one bit.
// Names that change nothing, as MAP_NORESERVE, are read since programs pass them.

#![tactic(auto)]

mod error;
mod kind;
mod laws;
mod table;

pub use error::{BadWord, NameError};
pub use laws::{bad_words_are_refused, flag_texts_are_read, printed_reads_back, tables_are_sound};
pub use table::{FlagTable, map_table, mremap_table, prot_table};
