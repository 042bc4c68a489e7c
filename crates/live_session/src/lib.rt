//! A session over an address space: each line of a source is a line of a trace, and is answered as soon as it was read, by the line that
//! a run of the trace in the order of its lines prints for it. Beside the lines of a trace, `query ADDRESS` asks for the line of the first
//! area that ends above an address, and `new` ends the address space with its list and begins another. A bad line is answered by its number
//! and cause, and changes nothing.
//!
//! `specs/Sessions.antt` says what each line is answered by.

// The problem. A trace that is read whole is answered at its end. Somebody who makes calls by hand, or a program that compares each reply, wants
// each answer at once. A session answers each line as it comes, by what `serial` prints for it.
//
//    source ──reads of 8,192 bytes──▶ Held: whole lines, and the beginning of one ──line──▶ answer_line ──▶ piece ──▶ sink
//                                                                                                │
//             Says: the lines since `new`, as a trace (TraceBuilder)   ◀──────────────────────────┤
//             LiveSpace: the address space, once an operation came     ◀──────────────────────────┘
//
// When answers are given. Before a read, all answers so far are given (`find_line`), since a read may wait for whoever waits for an answer; and a
// piece is given when it is full. So a pipe that sends many lines at once gets few writes, and a person gets each answer.
//
// When a space opens: at the first operation, since settings come before and the configuration isn't known earlier. `new` ends the space with its
// list; its memory serves the next one, if that allows as many VMAs (`Spare`).
//
// A bad line is answered `bad`, and changes nothing: all tests of a line come before it adds anything (trace_reader). A line that is too long is
// kept only as far as shows that (MOST_KEPT, 4,097 bytes), however long it is. Memory is bounded by what a trace may have, and not by how long
// the session is. Beyond a trace's 64 `maps` a read of the list is answered all the same, since it adds nothing
// (`operations_are_answered_by_items`).
//
// What takes memory (`LineMayLack`): the words of a line, for a list that `answer_line` is handed; an operation or a file, which the trace keeps; the
// first operation, since it opens the space; a list with an area, which is copied; a read; and an answer for which the piece has no room. So a bad
// line, a query and the list of no area take none in a piece with room.
//
// One address space, one caller: threads and `after=` are tested as in a trace, and the lines run in their order. A fork is refused
// (`Cause::Child`).
//
// To be changed freely: how many bytes a read asks for, and how pieces are kept. Not to be changed: that answers are given before a read, or a
// session that speaks line by line stops for ever; and that the text of an answer is that of an item (`item_text` of output): sessions and
// `serial` agree by it.

#![tactic(auto)]

mod answering;
mod asking;
mod conversing;
mod giving;
mod held;
mod laws;
mod live_space;
mod own_lines;
mod status;

pub use conversing::converse;
pub use laws::{
    a_space_is_within_limits, a_trace_is_answered_by_its_items, answers_stay,
    operations_are_answered_by_items, session_gives_a_front, session_pieces,
};
pub use status::{Status, status_line, status_number};
