//! Runs the lines of the parent of a trace, or those of a child, over a space: each caller's with a pass of its own, in threads and in
//! rounds, or all of them with one pass, in order.

// The problem. A trace has lines of threads, and each line may come after another's (`after=`). They are to run over one space, each thread's
// lines in order by its own pass, at once where they can be, with no waiting that could go round in a circle, and such that what a line names is
// seen by the line.
//
// In rounds. A line's round is that of its thread's line before it, or one more than that of the line that it names, whichever is greater
// (`round_of`):
//
//    line   thread  after=     round
//    2      0                  0
//    3      1                  0
//    4      1       2          1        thread 0 tells thread 1 what it has seen, before round 1
//    5      0                  0
//    6      0       4          2        thread 1 tells thread 0, before round 2
//    7      1                  1
//
//    round 0: lines 2, 5 by thread 0 │ line 3 by thread 1          a worker each; all have ended
//    round 1: note 0 ▶ 1;            │ lines 4, 7 by thread 1
//    round 2: note 1 ▶ 0; line 6
//
// Between rounds nothing runs, so a note (`Space::tell`, `hear`) can be carried without waiting. Within one, threads meet only at the space. A
// circle can't be written, since a line names only a line above it. The price: a trace with `after=` tries fewer interleavings.
//
// How many operations a pass has: one for each of its lines, and one for each time that it tells (`shares`). `owed` is what it has without the
// tellings that were made, so `owed - left` is how many of its lines are done: no other count is kept, also where memory ran out in the middle of
// a round.
//
// How large a space is: three VMAs for each line and one (`config_for` of area_rules), or the trace's own limit if that is lower. Tables for
// 65,530 VMAs cost 18 ms and 44 MB.
//
// `serial` (`run_serial`) runs all lines by one pass, whatever their threads: then no thread and no wait is needed, and the output is a function
// of the trace. A child (`run_child`) runs likewise over a space that begins with its parent's entries.
//
// The gate is called before and after each operation with the number of its line. It may hold a thread, which is how tests make two run at once;
// it has no part in any result.
//
// To be changed freely: into how many threads a round is divided (`threads_for`). Not to be changed: that a note goes before its round begins,
// and that a worker has one caller's pass: the log of a pass is the order of its thread.

#![tactic(auto)]

mod alone;
mod busy;
mod driving;
mod laws;
mod naming;
mod places;
mod rounds;
mod running;
mod telling;
mod watcher;
mod working;

pub use alone::run_child;
pub use driving::{drive, in_order};
pub use laws::{all_lines_are_the_parents_where_none_forks, gathered_runs_are_accepted};
pub use running::{run_serial, run_threads};
pub use watcher::{GateWatcher, NoWatcher, Watcher};
