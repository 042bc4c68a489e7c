//! The edge to the outside: where bytes come from and where they go, each with a count of its faults,
//! and what is called round each operation of a thread. The sources and sinks over memory serve callers that
//! hold their input, and tests that want a fault at a chosen call.

// The problem. The program is proved for whatever it reads and wherever it writes, and no proof reaches the kernel. So all bytes come in and go
// out through two traits, and what is proved is over any source and sink:
//
//    Source::take(piece)   moves the next bytes to the beginning of the piece: how many; 0 at the end; or Failed, and no byte was taken
//    Sink::give(piece)     appends the first bytes of the piece: how many, above 0; or an error, and no byte was written
//    Gate                  is called before and after each operation of a thread; it may hold it
//
// Each counts its failures, which contracts see (`faults`, and whether the last call failed): so the status ReadFault is answered only if a read
// failed.
//
//    StdSource, StdSink     standard input and output: one read(2) or write(2) a call, no buffer. For the program
//    MemSource, MemSink     fail at the calls whose numbers are in a list, and move at most 64 bytes: for tests of short moves and of faults
//    SureSource, SureSink   memory that never fails: for callers that have their input
//
// A read or write that a signal interrupted is tried again, 2^64 - 1 times at most, since a function that isn't handed a runtime has to end. What
// would block is a failure: nobody here could wait for it. A write of no byte is a failure too, or a full disk would be tried for ever.
//
// What is trusted and not proved: that standard input and output are what read(2) and write(2) say. The clauses of standard.rt speak of the
// reader and the writer below them, and the system's own tell nothing.
//
// To be changed freely: other sources and sinks. Not to be changed: that a failure moves no byte, or a caller couldn't say what was given.

#![tactic(auto)]

mod error;
mod gate;
mod laws;
mod memory;
mod piece;
mod schedule;
mod sink;
mod source;
mod standard;
mod sure;

pub use error::{Failed, GiveError};
pub use gate::{Gate, PlainGate};
pub use laws::piece_size;
pub use memory::{MOST_AT_A_CALL, MemSink, MemSource};
pub use sink::Sink;
pub use source::Source;
pub use standard::{StdSink, StdSource};
pub use sure::{SureSink, SureSource};
