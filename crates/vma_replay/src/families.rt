//! The closed runs of a trace: that of its parent, and those of its children.
ghost use Rattle.std.specs.Prelude.{◌≡◌, ◌<◌, ◌≤◌, [], All, IfOk, Ok, Some, length, map, slice_get};
ghost use Rattle.std.specs.Vec.{vec_capacity};
ghost use Rattle.history.specs.Parents.{parent_lines};
ghost use Rattle.trace_reader.specs.Values.{IsTraceValue};
ghost use Rattle.vma_replay.specs.Internal.Families.{AreRunsOfChildren, IsFamily, IsForkOf, IsParentJournal};
ghost use Rattle.vma_replay.specs.Replaying.{IsRunOfChild};
ghost use Rattle.vma_replay.specs.declared.forks.Fork.{Fork};

use crate::forks::{Fork, forks_of};
use crate::printing::run_history;
use crate::running::closed_run;
use crate::words::Mode;
use history::{History, SpaceLines};
use io_edge::Gate;
use mm_fork::inherit;
use mm_space::Closed;
use mm_types::{Entry, NoMemory};
use std::alloc::Global;
use std::sync::Wait;
use std::thread;
use std::thread::Threads;
use trace_reader::{MOST_FORKS, Trace};
use vma_drive::{GateWatcher, NoWatcher, Watcher, run_child};

/// The closed runs of a trace, the parent's first and then one for each child, by ascending child, with the history and the forks of the
/// parent.
#[derive(Drop)]
pub(crate) struct Family {
    pub(crate) history: History,
    pub(crate) forks: Vec<Fork>,
    pub(crate) runs: Vec<Closed>,
}

/// Runs a trace: first the parent, whose lines are given, to its end, and then each child from what the parent had at its fork. The room for
/// the list of all runs is taken before the first space is opened.
pub(crate) fn closed_family<R: Threads + Wait + Sync, G: Gate>(
    rt: &R,
    alloc: Global,
    mode: Mode,
    trace: &Trace,
    lines: &SpaceLines<'_>,
    gate: &G,
) -> Result<Family, NoMemory>
    requires trace { IsTraceValue trace.now }
    requires lines { lines.now ≡ parent_lines trace.now.lines }
    ensures { IfOk result (λ family. IsFamily mode trace.now family.history family.forks.items family.runs.items) }
{
    let mut runs = Vec::with_capacity(alloc, 1 + MOST_FORKS)?;
    let run = closed_run(rt, alloc, mode, trace, gate)?;
    let history = run_history(alloc, mode, trace, &run)?;
    let forks = forks_of(alloc, lines, history.items())?;
    let mut children = children_runs(
        rt,
        alloc,
        mode,
        trace,
        run.journal(),
        forks.as_slice(),
        gate,
    )?;
    runs.push_reserved(run);
    runs.append(&mut children)?;
    Ok(Family {
        history,
        forks,
        runs,
    })
}

/// The closed runs of the children of a parent that has run, one for each fork, which are made here.
fn children_runs<R: Threads + Wait + Sync, G: Gate>(
    rt: &R,
    alloc: Global,
    mode: Mode,
    trace: &Trace,
    parent: &[Entry],
    forks: &[Fork],
    gate: &G,
) -> Result<Vec<Closed>, NoMemory>
    requires trace { IsTraceValue trace.now }
    requires parent { IsParentJournal trace.now.config parent.now }
    requires forks { All (IsForkOf trace.now.lines parent.now) forks.now }
    ensures { IfOk result (λ runs. AreRunsOfChildren trace.now parent.now forks.now runs.items) }
{
    match mode {
        Mode::Serial => run_in_turn(rt, alloc, trace, parent, forks),
        Mode::Threads => run_at_once(rt, alloc, trace, parent, forks, gate),
    }
}

/// Runs children one after the other. What the space of one takes is given back before the next begins.
fn run_in_turn<R: Wait>(
    rt: &R,
    alloc: Global,
    trace: &Trace,
    parent: &[Entry],
    forks: &[Fork],
) -> Result<Vec<Closed>, NoMemory>
    requires trace { IsTraceValue trace.now }
    requires parent { IsParentJournal trace.now.config parent.now }
    requires forks { All (IsForkOf trace.now.lines parent.now) forks.now }
    ensures { IfOk result (λ runs. AreRunsOfChildren trace.now parent.now forks.now runs.items) }
{
    let mut runs = Vec::with_capacity(alloc, forks.len())?;
    for fork in forks {
        let child = closed_child(rt, alloc, trace, parent, fork, &NoWatcher)?;
        runs.push_reserved(child);
    }
    Ok(runs)
}

/// Runs children at once, each in a thread of its own. The gate is called before and after each of their operations.
fn run_at_once<R: Threads + Wait + Sync, G: Gate>(
    rt: &R,
    alloc: Global,
    trace: &Trace,
    parent: &[Entry],
    forks: &[Fork],
    gate: &G,
) -> Result<Vec<Closed>, NoMemory>
    requires trace { IsTraceValue trace.now }
    requires parent { IsParentJournal trace.now.config parent.now }
    requires forks { All (IsForkOf trace.now.lines parent.now) forks.now }
    ensures { IfOk result (λ runs. AreRunsOfChildren trace.now parent.now forks.now runs.items) }
{
    let worker = |place: usize| -> Result<Closed, NoMemory>
        requires { (place < length forks.now) × IsTraceValue trace.now × IsParentJournal trace.now.config parent.now
            × All (IsForkOf trace.now.lines parent.now) forks.now }
        ensures { IfOk result (λ run. (fork : Fork) → slice_get forks.entry.now place ≡ Some fork
            → IsRunOfChild trace.entry.now parent.entry.now fork run) }
    { closed_child(rt, alloc, trace, parent, &forks[place], &GateWatcher(gate)) };
    let room = Vec::with_capacity(alloc, forks.len())?;
    let ended = thread::map_indices(rt, alloc, forks.len(), &worker)?;
    runs_of(room, ended)
}

/// The runs that workers ended with, in this room. Refused where memory ran out in one.
fn runs_of(room: Vec<Closed>, ended: Vec<Result<Closed, NoMemory>>) -> Result<Vec<Closed>, NoMemory>
    requires empty { room.items ≡ [] }
    requires room { length ended.items ≤ vec_capacity room }
    ensures { IfOk result (λ runs. ended.items ≡ map (λ run. Ok run) runs.items) }
{
    let mut runs = room;
    for run in ended {
        runs.push_reserved(run?);
    }
    Ok(runs)
}

/// Runs the lines of a child over a space that begins with what its parent had at the fork, and closes it.
fn closed_child<R: Wait, T: Watcher<R>>(
    rt: &R,
    alloc: Global,
    trace: &Trace,
    parent: &[Entry],
    fork: &Fork,
    watcher: &T,
) -> Result<Closed, NoMemory>
    requires trace { IsTraceValue trace.now }
    requires parent { IsParentJournal trace.now.config parent.now }
    requires fork { IsForkOf trace.now.lines parent.now fork.now }
    ensures { IfOk result (IsRunOfChild trace.now parent.now fork.now) }
{
    let before = inherit(alloc, parent, fork.version)?;
    let lines = SpaceLines::child_of(alloc, trace, fork.child)?;
    run_child(rt, alloc, &trace.config, &lines, before.as_slice(), watcher)
}
