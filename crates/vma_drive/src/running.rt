//! Closed runs of a trace.
ghost use Rattle.std.specs.Prelude.{◌≡◌, ◌∷◌, [], List, IfOk};
ghost use Rattle.lock_core.specs.Facts.{list_after};
ghost use Rattle.trace_reader.specs.Values.{IsTraceValue};
ghost use Rattle.mm_types.specs.declared.call.Seen.{Seen};
ghost use Rattle.history.specs.CallerPlaces.{callers_of};
ghost use Rattle.history.specs.Labels.{IsSerialRun};
ghost use Rattle.history.specs.Parents.{parent_lines};
ghost use Rattle.history.specs.Runs.{IsRun};
ghost use Rattle.vma_drive.specs.Sharing.{AreShares};

use crate::alone::run_alone;
use crate::driving::drive_lines;
use crate::places::shares;
use crate::watcher::NoWatcher;
use area_rules::config_for;
use history::SpaceLines;
use io_edge::Gate;
use mm_space::{Closed, Ready, Space, SpaceName};
use mm_types::NoMemory;
use std::alloc::Global;
use std::marker::Brand;
use std::sync::Wait;
use std::thread::Threads;
use trace_reader::Trace;

/// Runs the lines of the parent of a trace one after the other over a new space, with one pass, and closes it. Refused where memory runs
/// out.
pub fn run_serial<R: Wait>(rt: &R, alloc: Global, trace: &Trace) -> Result<Closed, NoMemory>
    requires { IsTraceValue trace.now }
    ensures run { IfOk result (λ run. (log : List Seen) × (run.logs ≡ log ∷ []) × IsSerialRun trace.now.config (parent_lines trace.now.lines) run.journal log) }
    ensures list { IfOk result (λ run. run.list ≡ list_after trace.now.config run.journal) }
{
    let own = SpaceLines::parent_of(alloc, trace)?;
    let lines = own.items();
    let calls = lines.len() as u64;
    let config = config_for(alloc, &trace.config, calls)?;
    let ready = Ready::make(alloc, config, &[calls])?;
    run_alone::<Brand, R, NoWatcher>(rt, alloc, ready, lines, &NoWatcher)
}

/// Runs the lines of each thread of the parent of a trace over a new space, in a thread of its own, in rounds, so that what a line names was
/// done before it, and closes it. Refused where memory runs out.
pub fn run_threads<R: Threads + Wait + Sync, G: Gate>(
    rt: &R,
    alloc: Global,
    trace: &Trace,
    gate: &G,
) -> Result<Closed, NoMemory>
    requires trace { IsTraceValue trace.now }
    ensures run { IfOk result (λ run. IsRun trace.now.config [] (parent_lines trace.now.lines) (callers_of (parent_lines trace.now.lines))
        run.journal run.logs) }
    ensures list { IfOk result (λ run. run.list ≡ list_after trace.now.config run.journal) }
{
    let own = SpaceLines::parent_of(alloc, trace)?;
    let lines = own.items();
    let config = config_for(alloc, &trace.config, lines.len() as u64)?;
    let operations = shares(alloc, &own)?;
    let ready = Ready::make(alloc, config, &operations)?;
    run_passes::<Brand, R, G>(rt, alloc, ready, &own, gate)
}

/// Opens a space of the callers of these lines, runs the lines of each with its pass, and closes it.
fn run_passes<N: SpaceName + Send + Sync, R: Threads + Wait + Sync, G: Gate>(
    rt: &R,
    alloc: Global,
    ready: Ready,
    lines: &SpaceLines<'_>,
    gate: &G,
) -> Result<Closed, NoMemory>
    requires name { ready ≡ N.name }
    requires before { ready.before ≡ [] }
    requires shares { AreShares lines.now ready.operations }
    ensures run { IfOk result (λ run. IsRun ready.config [] lines.now (callers_of lines.now) run.journal run.logs) }
    ensures list { IfOk result (λ run. run.list ≡ list_after ready.config run.journal) }
{
    let (space, mut passes) = Space::<N>::open(ready);
    drive_lines(rt, alloc, &space, passes.as_mut_slice(), lines, gate)?;
    Ok(space.close(passes))
}
