//! Prints areas as the text of `/proc/PID/maps`, byte for byte as proc_pid_maps(5) has it: a line for
//! each area, with its addresses, what is allowed, and what it maps.

// The problem. A list of VMAs is printed as the kernel prints /proc/PID/maps, byte for byte, so that texts can be compared with a real one (`vma
// compare`), and read again (maps_read).
//
//    7ffff7dc5000-7ffff7f4b000 r-xp 00026000 08:01 2361     .... /usr/lib/x86_64-linux-gnu/libc.so.6
//    └─ push_range ──────────────┘ └─ place: offset, device, inode ┘ └ spaces up to column 73, then the name
//
//    private anonymous memory   no name: the line ends with the space after the inode
//    heap                       [heap]
//    a file                     its path, where a newline is written \012, so that a name never ends a line
//    shared anonymous memory    /dev/zero (deleted), device 00:01, the object's number as inode
//
// Addresses and offsets have eight digits at least; an address is its page with three zeros behind it, so no multiplication is needed.
//
// A part of a line is put together in an array (`Part`, 96 characters: 40 of addresses, and at most 96 of offset, device and inode) and appended
// at once, since a list may have 65,530 lines.
//
// To be changed freely: how digits are made. Not to be changed: a byte of the text. In Linux: show_map_vma and show_vma_header_prefix of
// fs/proc/task_mmu.c; seq_pad (fs/seq_file.c) sets the name off by spaces up to this column.

#![tactic(auto)]

mod line;
mod list;
mod mapped;
mod part;
mod trimmed;

pub use line::{print_line, push_line, push_range};
pub use list::{print_list, push_list};
pub use part::{push_decimal, push_hex};
pub use trimmed::{push_trimmed, without_spaces_after};
