//! The replayer: reads a trace, replays it over an address space, and writes every reply and the final list of areas; or reads a script,
//! and writes what each of its steps results in; or reads a maps text, and writes one of its lines, or the trace that makes it; or reads a
//! trace and a text, and writes whether the text is a legal output of the trace; or replays a generated trace, and writes a summary of what
//! it did.

// The problem. The program has one promise: what it writes is what its mode defines for what it read. `replay` (run.rt) is that promise as one
// function, over any source, sink, gate and runtime, so that the proof speaks of each. Its clauses are the headline; all else in this crate
// brings parts together.
//
//    words ──job_of──▶ Job
//      │  no space is opened: answering.rt, which is handed no leave to wait       a space is opened
//      ├─▶ Convert: steps, query, retrace    input ─▶ text                         Replay(serial | threads), Generate
//      ├─▶ Check                             trace, ==, text ─▶ legal | bad
//      └─▶ refused: Words
//
// A call's line, from input to output, in `threads`:
//
//    read_source     the trace, whole. A bad line is reported before anything runs
//    closed_run      vma_drive: a space with room for what the lines can use; each thread's lines by its pass; close: journal, logs, list
//                      line `0 munmap 0x1000 4096` ─▶ Space::call ─▶ lock ─▶ MmState::apply ─▶ entry 7 of the journal ─▶ unlock
//    run_history     history: journal and logs in one order. In `serial` the one log, by the callers of the lines
//    forks_of        where the history has forks: the version at which each child begins
//    children_runs   each child over a space that begins with the parent's first so many entries; one by one in `serial`, at once in `threads`
//    give_family     the text of the parent, then of each child, in pieces; each piece is given as it is full
//    Replayed        Done with the closed runs, or the status that says what failed first
//
// All runs are closed before the first byte is given (`alone_given`, `family_given`). So a text that is cut short, by a write that fails or by
// memory, is still the beginning of one that goes with some closed run. The room for the list of runs is taken before the first space is opened:
// no closed run is lost.
//
// `serial` without forks makes no history if its lines are in that order already (`turns_of`): the list cost a third of a run of faults. Only
// then; the text is the same.
//
// Which answer comes, and why in this order: words first, then the grammar of the input, then memory and writes. So a bad word or line is never
// hidden behind lack of memory (clause `complete`). `job_of` tests the words before it asks clap, which takes memory.
//
// To be changed freely: who prints, and how large pieces are; the splitting of the run between files. Not to be changed: that answering.rt has no
// runtime, which is why those answers always come; that `runs` are handed out, since the headline names the runs that the text came from; and
// that the modes share `closed_run`. The statuses have fixed numbers, which programs test: 0, and 2 to 6.
//
// In Linux there is no like: this program makes none of a trace's calls on the kernel.

#![tactic(auto)]

mod answering;
mod families;
mod forks;
mod generating;
mod giving;
mod in_turn;
mod laws;
mod printing;
mod reading;
mod replayed;
mod run;
mod running;
mod status;
mod summary;
mod words;

pub use answering::answer_without_space;
pub use forks::Fork;
pub use history::label;
pub use laws::{retraced_texts_come_back, serial_outputs_are_equal};
pub use replayed::{Replayed, Runs};
pub use run::replay;
pub use status::{Status, status_line, status_number};
pub use text_lexer::Cause;
pub use words::{Mode, Run};
