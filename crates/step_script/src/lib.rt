//! Runs a script: the single steps of readers and of a writer, in the order in which a user writes them, over the lock core
//! or the grace core. For each step it prints what the step results in and the state after it.
//!
//! A script has the form of a trace: lines, words, comments, numbers and the limits of a line are those of `text_lexer`, and the
//! calls are those of `trace_reader`.
//! Line 1 is `vmasteps 1`. The next line with words names the core, `lock READERS SLOTS` or `grace READERS ROWS`, each number
//! from 1 to 8. Each line with words after it is an event of this core, and there are at most 10,000 lines in all.
//!
//! - Events of the lock core: `add R K`, `look R`, `field R I`, `sub R`, `begin`, `mark K`, `store K I X` and `end T CALL`.
//!   Its state begins with the sequence 2, slots without an area, and the default configuration without files.
//! - Events of the grace core: `open R`, `root R`, `word R W`, `close R`, `fill W X`, `publish N` with one or more `W`, and
//!   `scan R`. Its state begins with tree 0, which has row 0 alone.
//!
//! R is a reader, K a slot, I a field of its row from 0 to 3, W a row, N the number of a tree, X a word, T a caller from 0 to
//! 63 in decimal digits, and CALL a call as it stands after the thread of a line of a trace. All are counted from 0.

// The problem. The two protocols are proved for each interleaving, but a reader of the proof wants to see one: what happens if the look comes
// before the mark? A script names the single steps in the order that its author wants, and the program shows each step's result and the state
// after it.
//
//    text ──read_script──▶ Script: the core, its readers and parts, its events ──▶ lock_core::apply │ grace_core::apply ──▶ text
//
// The whole script is read before the first event is made, so a bad line is reported and nothing else. A step that the protocol refuses isn't a
// bad line: it prints its reason (`refused 2 ReadersLeft 1`), and the state stays. Try a mark while a reader holds the slot.
//
// The two cores have the same form, of lines, run and texts (lock_lines, lock_run, lock_texts; grace_lines, ..). They aren't one generic: their
// events have other fields, and each printed line is a contract of its own.
//
// The limits. 8 readers, slots or rows: a state is printed after each event, and should fit a line. 10,000 lines, since `end` of the lock core
// runs area_model, which is slow, and since each event prints a state.
//
// To be changed freely: nothing that is printed; the text of a step is what tests and documents show (docs/SCRIPTS.md). How lines are read may
// change. Linux has no such program; herd7 and LKMM litmus tests (tools/memory-model) are near, and ask more: which orders of weaker steps there
// are.

#![tactic(auto)]

mod fields;
mod grace_lines;
mod grace_run;
mod grace_texts;
mod laws;
mod lines;
mod lock_lines;
mod lock_run;
mod lock_texts;
mod reading;
mod run;
mod script;
mod texts;

pub use laws::{first_bad_line, front_is_enough, script_limits, scripts_are_within};
pub use run::run_script;
pub use script::{MOST_LINES, MOST_PARTS};
