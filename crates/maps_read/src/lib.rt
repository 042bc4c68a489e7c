//! Reads the text of `/proc/PID/maps` of any process (proc_pid_maps(5)), finds the line that covers an address, or the next, and makes
//! a trace of a text.
//!
//! A maps text is a list of lines, each ended by a newline: `<lo>-<hi> <perms> <offset> <major>:<minor> <inode>` with one space
//! between these parts, then nothing, or one or more spaces and a name, which goes up to the line's end and may be empty. The
//! spaces before a name are no part of it, so no name begins with one.
//!
//! - lo, hi and offset have 1 to 16 digits of lower-case hexadecimal, major and minor 1 to 8; inode has 1 to 20 decimal digits
//!   and is below 2^64.
//! - perms is four letters: `r` or `-`, `w` or `-`, `x` or `-`, and `s` for shared or `p` for private.
//! - lo is below hi, and not below the hi of the line before.
//!
//! A text without bytes has no lines. Lines are counted from 1 where one is bad, and the first bad line decides. In it the causes
//! come in this order: it has more than 8,192 bytes, or its newline would be past byte 67,108,864 of the text (`TooLong`); no
//! newline ends it (`NoEnd`); it is not UTF-8 (`Utf8`); it has another form (`MapsLine`); its addresses are not in order
//! (`MapsOrder`).
//!
//! `retrace` makes a trace from such a text: one that maps the areas of the text where they lie, so that its run ends with exactly
//! this text.
//!
//! The trace is, in this order:
//!
//! - `vmatrace 1`.
//! - A line `file FD rw 9223372036854775807 MAJ:MIN INODE PATH` for each file, in the order of first use: lines of the maps text
//!   with a name show one file where their device, inode and name are the same. FD counts from 3. MAJ, MIN and INODE stand as in
//!   the maps text, and PATH is the name.
//! - A line `0 mmap LO LEN PROT FLAGS FD OFF` for each line of the maps text. LO and OFF are hexadecimal, LEN is decimal. FLAGS
//!   are `MAP_SHARED` or `MAP_PRIVATE`, `MAP_FIXED`, and `MAP_ANONYMOUS` where the line has no name; FD and OFF are then `-1 0`.
//!
//! A maps text may show what no such trace leaves. The first line for which one of these holds is refused, as `NotOurs`:
//!
//! - its bytes are not those that a maps text has for its area: of private anonymous memory where it has no name, and else of a
//!   file with this device, inode and path. So the heap of brk(2) and shared anonymous memory are files here;
//! - its name begins with a tab, which no path of a trace does;
//! - by it the list of areas is not sound any more for the default configuration: it ends above the limit, joins the line before
//!   it, is the 65,531st, or maps of its file what lies at or above 2^63 - 4096 bytes;
//! - it begins below the minimum of the default configuration;
//! - its file is the 1,025th, or the `file` line is none of a trace: it has more than 4,096 bytes, or MAJ has more than 3 digits
//!   or MIN more than 5.
//!
//! The `mmap` line of an area that passes these tests is always one of a trace, and no such trace is too long.

// The idea. A process' own memory is the nearest trace that anybody has. So this reads what any process shows (not only what this program
// prints), for two uses: `query`, find_vma on a text, and `retrace`, a trace that makes the text again. Reading goes by form alone: a name may be
// anything, an inode any number. Whether a trace could leave such a line is asked by `retrace`.
//
//    7ffff7dc5000-7ffff7f4b000 r-xp 00026000 08:01 2361     /usr/lib/x86_64-linux-gnu/libc.so.6
//    └─ lo      └─ hi          perms └ offset └ device inode └ name: what follows the spaces, up to the end of the line
//
// `query` halves the lines, which are in order (IsMaps), and prints the one that it finds as it is in the text: no value of a line is printed
// anew, so what comes out is what was there, but for spaces at its end.
//
// 8,192 bytes of a line, twice a trace's: a path alone may have 4,095 (PATH_MAX). A line that is longer is bad.
//
// To be changed freely: how a line is cut into words. Not to be changed: that the first bad line decides, with its cause in the order above. In
// Linux the text is made by show_map_vma (fs/proc/task_mmu.c), whose padding before a name is why spaces there don't count.

#![tactic(auto)]

mod answering;
mod areas;
mod fields;
mod file_lines;
mod laws;
mod mappings;
mod maps;
mod querying;
mod reading;
mod retrace_laws;
mod retracing;
mod taking;

pub use answering::answer_of;
pub use file_lines::FIRST_DESCRIPTOR;
pub use laws::{first_bad_line, front_is_enough, lines_are_read, maps_are_within, maps_limits};
pub use maps::{MapsLine, MapsText};
pub use querying::query;
pub use reading::{MAPS_LINE_LIMIT, read_maps};
pub use retrace_laws::{
    first_descriptor, retraced_front_is_enough, retraced_maps_are_within,
    retraced_text_makes_the_maps, sound_lists_go_on,
};
pub use retracing::{retrace, retraced};
