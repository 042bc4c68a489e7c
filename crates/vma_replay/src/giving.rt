//! Runs of a trace that are given to a sink.
ghost use Rattle.std.specs.Prelude.{◌<◌, ◌^◌, ◌-◌};
ghost use Rattle.trace_reader.specs.Values.{IsTraceValue};
ghost use Rattle.vma_replay.specs.Internal.Giving.{GivesAnOutput, IsDoing, IsRunPrinted};

use crate::families::closed_family;
use crate::in_turn::alone_given;
use crate::printing::give_family;
use crate::replayed::{Replayed, Runs};
use crate::status::Status;
use crate::words::Mode;
use history::{SpaceLines, has_forks};
use io_edge::{Gate, Sink};
use std::alloc::Global;
use std::sync::Wait;
use std::thread::Threads;
use trace_reader::Trace;

/// Runs a trace, and gives a sink its output.
pub(crate) fn give_run<R: Threads + Wait + Sync, K: Sink, G: Gate>(
    rt: &R,
    alloc: Global,
    mode: Mode,
    sink: &mut K,
    trace: &Trace,
    gate: &G,
) -> Replayed
    requires trace { IsTraceValue trace.now }
    requires sink { (K.seen sink.old).faults < 2 ^ 64 - 1 }
    ensures { IsRunPrinted (GivesAnOutput mode trace.now) (K.seen sink.old) (K.seen sink.new) result.status result.runs }
{
    Replayed::of(alloc, run_given(rt, alloc, mode, sink, trace, gate))
}

/// The closed runs of a trace, once their output was given to a sink.
fn run_given<R: Threads + Wait + Sync, K: Sink, G: Gate>(
    rt: &R,
    alloc: Global,
    mode: Mode,
    sink: &mut K,
    trace: &Trace,
    gate: &G,
) -> Result<Runs, Status>
    requires trace { IsTraceValue trace.now }
    requires sink { (K.seen sink.old).faults < 2 ^ 64 - 1 }
    ensures { IsDoing (GivesAnOutput mode trace.now) (K.seen sink.old) (K.seen sink.new) result }
{
    if has_forks(trace.lines.items()) {
        family_given(rt, alloc, mode, sink, trace, gate)
    } else {
        alone_given(rt, alloc, mode, sink, trace, gate)
    }
}

/// The closed runs of a trace that forks, once their output was given to a sink. The runs stand whole before the first byte is given.
fn family_given<R: Threads + Wait + Sync, K: Sink, G: Gate>(
    rt: &R,
    alloc: Global,
    mode: Mode,
    sink: &mut K,
    trace: &Trace,
    gate: &G,
) -> Result<Runs, Status>
    requires trace { IsTraceValue trace.now }
    requires sink { (K.seen sink.old).faults < 2 ^ 64 - 1 }
    ensures { IsDoing (GivesAnOutput mode trace.now) (K.seen sink.old) (K.seen sink.new) result }
{
    let lines = SpaceLines::parent_of(alloc, trace)?;
    let family = closed_family(rt, alloc, mode, trace, &lines, gate)?;
    give_family(alloc, sink, trace, &lines, &family)?;
    Ok(Runs::of(family.runs))
}
