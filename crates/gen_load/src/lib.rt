//! Loads: traces of pseudo-random operations, each made from two numbers alone, how many operations and a seed, so that the same
//! two always make the same trace.
//!
//! The numbers (`Draws`) start at the seed, and each line takes the next one of 31 bits, which is the draw of the line: its kind of operation,
//! its thread of four, its page of 65,536, its length of 1 to 16 pages, its protection, and for a move the new length of 1 to 8 pages. Tests
//! that draw what they try, and the program that measures, take their numbers here too.

// The problem. Measurements and long tests need large traces that anybody can make again. A load is a count and a seed, and nothing else: the
// same two make the same bytes on any machine, and are all that a report has to name.
//
// One draw of 31 bits makes a line, so a line depends on its draw alone, and not on the lines above it:
//
//    bit   30 .. 28     27 .. 25     24 .. 21    20 .. 5    4 .. 3    2 .. 0
//          new length   protection   length      page       thread    kind
//          1 to 8       3 bits       1 to 16     65,536     0 to 3    three maps, unmap, protect, move, read, write
//
// 65,536 pages and lengths of up to 16: after some thousands of lines VMAs meet, merge and split. The first address is above `min`, so that no
// call fails for that. Private anonymous memory alone: files would have to be settings. Each trace is one that trace_reader accepts
// (`loads_are_traces`), so `generate` reads its own text as any other.
//
// LINE_ROOM for each line is reserved at once; most lines have fewer bytes. MOST_OPERATIONS keeps the text within the limit of an input.
//
// To be changed freely: nothing that a draw means: old reports name a count and a seed. A new kind of load is a new function.

#![tactic(auto)]

mod draw;
mod laws;
mod loading;
mod numbers;

pub use laws::{flags_are_printed, generator_numbers, loads_are_traces};
pub use loading::{MOST_OPERATIONS, load};
pub use numbers::Draws;
