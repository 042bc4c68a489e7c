//! A closed run of a trace, in a mode.
ghost use Rattle.std.specs.Prelude.{◌≡◌, IfOk};
ghost use Rattle.lock_core.specs.Facts.{list_after};
ghost use Rattle.history.specs.Parents.{parent_trace};
ghost use Rattle.trace_reader.specs.Values.{IsTraceValue};
ghost use Rattle.vma_replay.specs.Replaying.{IsRunOf};

use crate::words::Mode;
use io_edge::Gate;
use mm_space::Closed;
use mm_types::NoMemory;
use std::alloc::Global;
use std::sync::Wait;
use std::thread::Threads;
use trace_reader::Trace;
use vma_drive::{run_serial, run_threads};

/// Runs the parent of a trace over a new space, and closes it. Refused where memory runs out.
pub(crate) fn closed_run<R: Threads + Wait + Sync, G: Gate>(
    rt: &R,
    alloc: Global,
    mode: Mode,
    trace: &Trace,
    gate: &G,
) -> Result<Closed, NoMemory>
    requires { IsTraceValue trace.now }
    ensures run { IfOk result (λ run. IsRunOf mode (parent_trace trace.now) run) }
    ensures list { IfOk result (λ run. run.list ≡ list_after trace.now.config run.journal) }
{
    match mode {
        Mode::Serial => run_serial(rt, alloc, trace),
        Mode::Threads => run_threads(rt, alloc, trace, gate),
    }
}
