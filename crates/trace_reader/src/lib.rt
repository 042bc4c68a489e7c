//! Reads a trace: its configuration, its files, and its lines with calls, page faults and reads of the list of
//! areas, or else names the first bad line and why it is bad.
//!
//! A trace is a list of lines, each ended by a newline. Words stand between spaces and tabs. Lines are counted from 1;
//! a line without words, and one whose first word begins with `#`, is passed over. Line 1 is `vmatrace 1`, or `vmatrace 2`
//! where user memory ends at the wide limit. The others:
//!
//! - `limit areas N`: the most areas, 1 to 65,530.
//! - `top A`, `min A` and `heap A`: addresses in bytes, multiples of 4,096 from 4,096 to 0x7ffffffff000.
//! - `file FD MODE SIZE MAJ:MIN INODE PATH`: MODE is `r`, `w` or `rw`, SIZE in bytes at most 2^63 - 1, MAJ 1 to 3 and
//!   MIN 1 to 5 hexadecimal digits. PATH is the rest of the line, blanks and all, and `\012` in it is a newline.
//! - `T mmap ADDR LEN PROT FLAGS FD OFF`, `T munmap ADDR LEN`, `T mprotect ADDR LEN PROT` and
//!   `T mremap OLD OLDLEN NEWLEN FLAGS`, with a fifth word NEW where the flags have `MREMAP_FIXED`, as in mmap(2),
//!   munmap(2), mprotect(2) and mremap(2). FD may be -1. The flags are those that `flag_table` reads.
//! - `T brk ADDR` and `T mseal ADDR LEN FLAGS`, all of them numbers, as in brk(2) and mseal(2).
//! - `T fault ADDR A`: an access to a page, with `r`, `w` or `x` as A.
//! - `T maps`: a read of the list of areas.
//! - `T fork C`: a child space, whose one thread is C.
//!
//! T and C are threads from 0 to 63 in decimal digits. A number has 1 to 20 decimal digits, or `0x` and 1 to 16
//! hexadecimal digits, and is below 2^64. The settings, without a T, stand before the first line with one, in any order,
//! and each but `file` at most once; no two files have one FD. The last word of a line with a T may be `after=LINE`: the
//! number of a line above it that is a call of another thread. A child is a new thread, which forks nothing, and neither
//! names a line nor is named. In one line the causes come in the order in which `Cause` explains them.
//!
//! `text_lexer` has the lines, words and numbers that other formats share, and the causes. Those of its items by which a trace is
//! read are public here too.

// The idea. A line is read by itself, behind what the lines before it said (`TraceBuilder`): so a session (live_session) and `check`
// (output) read traces by the same function, line by line. A line has up to four kinds of test, and their order is the order of causes:
//
//    bytes of the line   too long, no end, not UTF-8                                         text_lexer
//    its words           header, thread, name, how many, each from the left, after=          settings.rt, operations.rt, calls.rt
//    against the others  the line that is named, the child, the descriptor                   builder.rt
//    how many            lines, maps, named, forks, files                                    builder.rt, limits.rt
//
// The lines as text (specs/LineTexts.antt): the words of each operation, and the law that each line is read as it was printed. What prints traces
// (gen_load, maps_read) stands on it.
//
// All tests of a line come before it takes memory. So a bad line is never hidden behind a lack of memory, and a line that was refused leaves the
// builder as it was.
//
// The limits. 64 threads, since the tables of a space have at most so many readers. 65,530 VMAs are the default of vm.max_map_count. 64 `maps`,
// since each copies the whole list; 1,000 `after=`, since each may begin a round; 8 forks, since each opens a space.
//
// To be changed freely: how a word is read. Not to be changed: the number of a cause, by which programs tell it, and the order above. A new
// operation, setting or flag comes with its definition (`trace_of`), and docs/TRACE.md.

#![tactic(auto)]

mod builder;
mod calls;
mod fields;
mod laws;
mod limits;
mod operations;
mod reading;
mod settings;
mod text_laws;
mod trace;

pub use builder::TraceBuilder;
pub use calls::call_of;
pub use fields::thread_of;
pub use laws::{first_bad_line, front_is_enough, trace_limits, traces_fit};
pub use limits::{MOST_FILE_BYTES, MOST_FORKS, MOST_LINES, MOST_MAPS, MOST_NAMED};
pub use reading::read;
pub use text_laws::printed_lines_are_read;
pub use text_lexer::{BadLine, CallError, Cause, ReadError, number_of};
pub use trace::{Lines, Op, Trace, TraceLine};
