//! The output of a run that has no children. In `serial` it is printed line by line from what was done, without a list of it, where the order
//! of the lines is that of the history.
ghost use Rattle.std.specs.Prelude.{◌≡◌, ◌<◌, ◌^◌, ◌-◌, IfSome, false, is_some, length};
ghost use Rattle.std.specs.List.{list_any};
ghost use Rattle.history.specs.Labels.{labelled};
ghost use Rattle.output.specs.Output.{listed_text};
ghost use Rattle.output.specs.declared.giving.TheConstants.{MOST_GIVEN};
ghost use Rattle.output.specs.Giving.{IsGivingText, IsPrinting};
ghost use Rattle.trace_reader.specs.Values.{IsTraceValue, child_of};
ghost use Rattle.vma_replay.specs.Internal.Giving.{GivesAnOutput, IsDoing};
ghost use Rattle.vma_replay.specs.Replaying.{IsRunOf, history_of_run};

use crate::printing::run_history;
use crate::replayed::Runs;
use crate::running::closed_run;
use crate::status::Status;
use crate::words::Mode;
use history::{SpaceLines, Turns, in_turn};
use io_edge::{Gate, Sink};
use mm_space::Closed;
use output::{PrintError, ROOM, give_all, print_history, print_maps, print_turns};
use std::alloc::Global;
use std::sync::Wait;
use std::thread::Threads;
use trace_reader::Trace;

/// The closed run of a trace in which no line forks, once its output was given to a sink. It stands whole before the first byte is given. The
/// room for it is taken before the space is opened, so that no closed run is lost where memory runs out.
pub(crate) fn alone_given<R: Threads + Wait + Sync, K: Sink, G: Gate>(
    rt: &R,
    alloc: Global,
    mode: Mode,
    sink: &mut K,
    trace: &Trace,
    gate: &G,
) -> Result<Runs, Status>
    requires trace { IsTraceValue trace.now }
    requires alone { list_any (λ line. is_some (child_of line.op)) trace.now.lines ≡ false }
    requires sink { (K.seen sink.old).faults < 2 ^ 64 - 1 }
    ensures { IsDoing (GivesAnOutput mode trace.now) (K.seen sink.old) (K.seen sink.new) result }
{
    let mut runs = Vec::with_capacity(alloc, 1)?;
    let run = closed_run(rt, alloc, mode, trace, gate)?;
    runs.push_reserved(run);
    give_alone(alloc, sink, mode, trace, &runs[0])?;
    Ok(Runs::of(runs))
}

/// Gives a sink the text of a closed run.
fn give_alone<K: Sink>(
    alloc: Global,
    sink: &mut K,
    mode: Mode,
    trace: &Trace,
    run: &Closed,
) -> Result<(), PrintError>
    requires trace { IsTraceValue trace.now }
    requires alone { list_any (λ line. is_some (child_of line.op)) trace.now.lines ≡ false }
    requires run { IsRunOf mode trace.now run.now }
    requires sink { (K.seen sink.old).faults < 2 ^ 64 - 1 }
    ensures { IsGivingText (K.seen sink.old) (K.seen sink.new)
        (listed_text trace.now.config.files trace.now.lines (history_of_run mode trace.now run.now) run.now.list) result }
{
    let mut piece = Vec::with_capacity(alloc, ROOM)?;
    print_alone(alloc, sink, &mut piece, mode, trace, run)?;
    give_all(sink, &piece)
}

/// Prints the text of a closed run.
fn print_alone<K: Sink>(
    alloc: Global,
    sink: &mut K,
    piece: &mut Vec<u8>,
    mode: Mode,
    trace: &Trace,
    run: &Closed,
) -> Result<(), PrintError>
    requires trace { IsTraceValue trace.now }
    requires alone { list_any (λ line. is_some (child_of line.op)) trace.now.lines ≡ false }
    requires run { IsRunOf mode trace.now run.now }
    requires held { length piece.old.items < MOST_GIVEN }
    requires sink { (K.seen sink.old).faults < 2 ^ 64 - 1 }
    ensures { IsPrinting (K.seen sink.old) (K.seen sink.new) piece.old.items piece.new.items
        (listed_text trace.now.config.files trace.now.lines (history_of_run mode trace.now run.now) run.now.list) result }
{
    let own = SpaceLines::parent_of(alloc, trace)?;
    let (files, areas) = (&trace.config.files, run.list().items());
    if let Some(turns) = turns_of(mode, trace, &own, run) {
        print_turns(sink, piece, own.items(), files, turns)?;
        return print_maps(sink, piece, files, areas);
    }
    let history = run_history(alloc, mode, trace, run)?;
    print_history(alloc, sink, piece, &own, files, history.items(), areas)
}

/// What was done in a closed run, where it can be told line by line: one caller ran all lines, and their order is that of the history.
fn turns_of<'a>(
    mode: Mode,
    trace: &Trace,
    lines: &SpaceLines<'_>,
    run: &'a Closed,
) -> Option<Turns<'a>>
    requires lines { lines.now ≡ trace.now.lines }
    requires run { IsRunOf mode trace.now run.now }
    ensures { IfSome result (λ turns. labelled trace.now.lines trace.now.lines turns ≡ history_of_run mode trace.now run.now) }
{
    match mode {
        Mode::Serial => in_turn(lines, run.journal(), run.logs()[0].as_slice()),
        Mode::Threads => None,
    }
}
