//! The text of closed runs, which is given while it is printed: each history stands whole before its first byte is given.
ghost use Rattle.std.specs.Prelude.{◌≡◌, ◌<◌, ◌^◌, ◌-◌, ◌++◌, All, Contains, IfOk, OnOk, List, length};
ghost use Rattle.mm_types.specs.declared.call.Entry.{Entry};
ghost use Rattle.trace_reader.specs.Values.{IsTraceValue, children_of};
ghost use Rattle.history.specs.Parents.{parent_lines, parent_trace};
ghost use Rattle.vma_replay.specs.ChildTexts.{child_line};
ghost use Rattle.vma_replay.specs.Internal.Families.{AreRunsOfChildren, IsFamily, text_of_child, text_of_children, text_of_family};
ghost use Rattle.output.specs.declared.giving.TheConstants.{MOST_GIVEN};
ghost use Rattle.output.specs.Giving.{IsGivingText, IsPrinting};
ghost use Rattle.vma_replay.specs.Replaying.{IsRunOf, IsRunOfChild, history_of_run};
ghost use Rattle.vma_replay.specs.declared.words.Mode.{Mode};

use crate::families::Family;
use crate::forks::Fork;
use crate::words::Mode;
use history::{History, SpaceLines, gather, label};
use io_edge::Sink;
use mm_fork::child_history;
use mm_space::Closed;
use mm_types::NoMemory;
use output::{PrintError, ROOM, give_all, give_full, print_history};
use std::alloc::Global;
use std::io::Write;
use trace_reader::Trace;

/// Gives a sink the text of the closed runs of a trace: that of the parent's history, and then that of each child's.
pub(crate) fn give_family<K: Sink>(
    alloc: Global,
    sink: &mut K,
    trace: &Trace,
    own: &SpaceLines<'_>,
    family: &Family,
) -> Result<(), PrintError>
    requires trace { IsTraceValue trace.now }
    requires own { own.now ≡ parent_lines trace.now.lines }
    requires family { (mode : Mode) × IsFamily mode trace.now family.now.history family.now.forks.items family.now.runs.items }
    requires sink { (K.seen sink.old).faults < 2 ^ 64 - 1 }
    ensures { IsGivingText (K.seen sink.old) (K.seen sink.new)
        (text_of_family trace.now family.now.history family.now.forks.items family.now.runs.items) result }
{
    let files = &trace.config.files;
    let runs = family.runs.as_slice();
    let areas = runs[0].list().items();
    let mut piece = Vec::with_capacity(alloc, ROOM)?;
    print_history(
        alloc,
        sink,
        &mut piece,
        own,
        files,
        family.history.items(),
        areas,
    )?;
    print_children(
        alloc,
        sink,
        &mut piece,
        trace,
        family.forks.as_slice(),
        &runs[1..],
    )?;
    give_all(sink, &piece)
}

/// The history that a closed run of the parent of a trace stands for.
pub(crate) fn run_history(
    alloc: Global,
    mode: Mode,
    trace: &Trace,
    run: &Closed,
) -> Result<History, NoMemory>
    requires trace { IsTraceValue trace.now }
    requires run { IsRunOf mode (parent_trace trace.now) run.now }
    ensures { IfOk result (λ history. history ≡ history_of_run mode (parent_trace trace.now) run.now) }
{
    match mode {
        Mode::Serial => label(alloc, trace, run.journal(), run.logs()[0].as_slice()),
        Mode::Threads => gather(alloc, run.journal(), run.logs()),
    }
}

/// Prints the texts of children, one after another: there is a run for each fork.
fn print_children<K: Sink>(
    alloc: Global,
    sink: &mut K,
    piece: &mut Vec<u8>,
    trace: &Trace,
    forks: &[Fork],
    runs: &[Closed],
) -> Result<(), PrintError>
    requires trace { IsTraceValue trace.now }
    requires forks { All (λ fork. Contains (children_of trace.now.lines) fork.child) forks.now }
    requires runs { (parent : List Entry) × AreRunsOfChildren trace.now parent forks.now runs.now }
    requires held { length piece.old.items < MOST_GIVEN }
    requires sink { (K.seen sink.old).faults < 2 ^ 64 - 1 }
    ensures { IsPrinting (K.seen sink.old) (K.seen sink.new) piece.old.items piece.new.items
        (text_of_children trace.now forks.now runs.now) result }
{
    for (place, fork) in forks.iter().enumerate() {
        if let Some(run) = runs.get(place) {
            print_child(alloc, sink, piece, trace, fork, run)?;
        }
    }
    Ok(())
}

/// Prints the text of a child: its line, its history with versions from the fork on, and its final list.
fn print_child<K: Sink>(
    alloc: Global,
    sink: &mut K,
    piece: &mut Vec<u8>,
    trace: &Trace,
    fork: &Fork,
    run: &Closed,
) -> Result<(), PrintError>
    requires trace { IsTraceValue trace.now }
    requires child { Contains (children_of trace.now.lines) fork.now.child }
    requires run { (parent : List Entry) × IsRunOfChild trace.now parent fork.now run.now }
    requires sink { (K.seen sink.old).faults < 2 ^ 64 - 1 }
    ensures { IsPrinting (K.seen sink.old) (K.seen sink.new) piece.old.items piece.new.items
        (text_of_child trace.now fork.now run.now) result }
{
    let own = SpaceLines::child_of(alloc, trace, fork.child)?;
    let history = child_history(alloc, fork.version, run.journal(), run.logs())?;
    let (files, areas) = (&trace.config.files, run.list().items());
    print_child_line(sink, piece, fork)?;
    print_history(alloc, sink, piece, &own, files, history.items(), areas)
}

/// Prints the line before those of a child.
fn print_child_line<K: Sink>(
    sink: &mut K,
    piece: &mut Vec<u8>,
    fork: &Fork,
) -> Result<(), PrintError>
    requires { (K.seen sink.old).faults < 2 ^ 64 - 1 }
    ensures { IsPrinting (K.seen sink.old) (K.seen sink.new) piece.old.items piece.new.items (child_line fork.now) result }
{
    push_child_line(piece, fork)?;
    give_full(sink, piece)
}

/// Appends the line before those of a child: `child <C> of L<line> v<version>`.
#[tactic(auto, unfolding(crate::specs::ChildTexts::child_line))]
fn push_child_line(text: &mut Vec<u8>, fork: &Fork) -> Result<(), NoMemory>
    ensures { OnOk result (text.new.items ≡ text.old.items ++ child_line fork.now) }
{
    let Fork {
        child,
        line,
        version,
    } = *fork;
    write!(text, "child {child} of L{line} v{version}\n").map_err(|_| NoMemory)
}
