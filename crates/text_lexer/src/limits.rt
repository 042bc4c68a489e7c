//! How large an input may be.

/// The most bytes of a line of a trace or of a script, its newline not counted.
pub const LINE_LIMIT: usize = 4096;

/// The most bytes of an input, newlines counted: of a trace, a script or a maps text.
pub const INPUT_LIMIT: usize = 67_108_864;
