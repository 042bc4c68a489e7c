//! The text of a history: of each item the line of the trace that it answers, its version and what it results in, and after all
//! items the list of areas, as proc_pid_maps(5) has it. `specs/Output.antt` says what the text is. It is printed here into a piece that is
//! given to a sink as soon as it is full, so that of an output no more than a piece and a line stand in memory; and a text that claims to
//! be an output is judged.
//!
//! `checked` reads and answers what `check` is given: a trace, a line `==`, and a text behind it, which is judged as an output of the trace.
//!
//! The trace ends before the first line that is exactly `==`. No line of it forks. The text has at most `TEXT_LIMIT` bytes, and is judged in
//! one pass: it tells by the numbers of its lines in which order the items of its history come; each item is then made from the trace, and
//! compared.

// Printing. The output of a trace of a million lines can be hundreds of megabytes, with 64 lists of up to 65,530 lines each. It should never
// be whole in memory, and yet what was given must be a beginning of the text that the definition has, wherever a write fails.
//
//    items ──push_..──▶ piece (up to 65,536 bytes and a line) ──give_full──▶ sink, in writes of 65,536 bytes
//                           ▲                                  │
//                           └── what is behind the last whole piece stays ◀┘
//
// Each function here has the same contract, with the text of its part: what was given before, and the piece, go on by exactly this text
// (specs/Output.antt). Where the sink takes part of a piece, the next write begins with the rest (`give_all`).
//
// `print_history` takes items with their lines (AnsweredLines: an item answers the next line of its caller); `print_turns` takes what one caller
// did without a list of it. Both print the same for the same history.
//
// ROOM is a piece and 8,192 bytes: a line of usual length that goes past the end of a piece needs no more memory. MOST_GIVEN is one write: a
// contract counts on it (`most_given`).
//
// To be changed freely: when a piece is given. Not to be changed: that a piece is given in order and dropped only when the sink took it.

// Judging. Somebody has a text that claims to be an output of a trace in `threads`, of this program or another. Is there a legal history of
// which it is the text? There are more histories than can be tried. But a history has one text, and the text tells its order: each item begins
// with the number of its line.
//
//    L2 t0 v1 = 0x1000        the next line of thread 0: make its call over the space, print what it answers, compare
//    L5 t1 v1 = SIGSEGV ..    the next line of thread 1: likewise, by the verdict over the same space
//    ..
//    the final list           the areas of the space, where no line of the trace is left
//
// So one pass decides. At each item, `Given` reads the number, `Progress` (history) says whether that line is the next of its thread, may stand
// here and has what it names behind it, and a PlainSpace makes the call. The item's text is made from that, and compared byte by byte: nothing
// else in the text is read.
//
// What `bad N` means: N is the least number such that no right text begins with the first N lines. So the first line that differs isn't enough: a
// line is bad where no item at all could be there. Since the order of reads of one version is fixed, at most one text goes on from each line
// number, so the first that can't is N.
//
// Cost: each call is made once and each line printed once, up to the first bad one. A list is printed line by line, only as far as the lines
// agree, so a short text never makes a long list.
//
// No trace that forks (`Cause::Child`): its output is several histories, one for each space. `first_fork` finds a fork by the words of a line
// alone, and takes no memory.
//
// To be changed freely: how a line is made and compared. Not to be changed: that the text is only compared with what was made, and never parsed
// for more than the number: so no form of a line is told twice. TEXT_LIMIT is four times the limit of a trace.

#![tactic(auto)]

mod answered;
mod answers;
mod checking;
mod error;
mod forks;
mod given;
mod giving;
mod input;
mod items;
mod judgement;
mod judging;
mod laws;
mod printing;
mod pushing;
mod stop;
mod turns;

pub use answered::AnsweredLines;
pub use checking::checked;
pub use error::PrintError;
pub use giving::{MOST_GIVEN, give_all, give_full, most_given};
pub use input::TEXT_LIMIT;
pub use items::{push_item, push_maps};
pub use laws::{check_limits, first_bad_is_not_legal, front_is_enough, inputs_are_within};
pub use printing::{ROOM, print_history, print_maps};
pub use pushing::{push_count, push_forked, push_reply, push_start, push_verdict};
pub use turns::print_turns;
