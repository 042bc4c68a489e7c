//! How many lines a trace may have, and how large its fields may be. `text_lexer` has the limits of bytes.

/// The most lines with a thread.
pub const MOST_LINES: usize = 1_000_000;

/// The most lines that read the list of areas.
pub const MOST_MAPS: usize = 64; // each makes a copy of the list

/// The most lines that name a line.
pub const MOST_NAMED: usize = 1000; // each may begin a round

/// The most lines that fork.
pub const MOST_FORKS: usize = 8; // each opens a space

/// The greatest thread.
pub(crate) const GREATEST_THREAD: u64 = 63; // the tables of a space have at most 64 readers

/// The most bytes of a file.
pub const MOST_FILE_BYTES: u64 = 0x7fff_ffff_ffff_ffff; // the greatest offset of a file

/// The most hexadecimal digits of the major half of a device number.
pub(crate) const MAJOR_DIGITS: usize = 3; // Linux's has 12 bits

/// The most hexadecimal digits of the minor half of a device number.
pub(crate) const MINOR_DIGITS: usize = 5; // Linux's has 20 bits
