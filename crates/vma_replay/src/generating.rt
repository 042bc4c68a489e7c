//! A run of a generated trace, and its summary.
ghost use Rattle.std.specs.Prelude.{◌≡◌, ◌≤◌, ◌<◌, ◌^◌, ◌-◌, IfOk};
ghost use Rattle.gen_load.specs.Loads.{load_trace};
ghost use Rattle.lock_core.specs.Facts.{list_after};
ghost use Rattle.trace_reader.specs.Values.{IsTraceValue};
ghost use Rattle.vma_replay.specs.declared.words.Mode.TheVariants.{Serial};
ghost use Rattle.vma_replay.specs.Internal.Giving.{GivesASummary, IsDoing, IsRunPrinted};
ghost use Rattle.vma_replay.specs.Replaying.{IsRunOf};

use crate::replayed::{Replayed, Runs};
use crate::status::Status;
use crate::summary::Summary;
use gen_load::{MOST_OPERATIONS, load};
use io_edge::Sink;
use mm_space::Closed;
use mm_types::NoMemory;
use output::give_all;
use std::alloc::Global;
use std::sync::Wait;
use trace_reader::{Trace, read};
use vma_drive::run_serial;

/// Runs the generated trace of so many operations and a seed in the order of its lines, and gives a sink its summary.
pub(crate) fn give_summary<R: Wait, K: Sink>(
    rt: &R,
    alloc: Global,
    count: u32,
    seed: u64,
    sink: &mut K,
) -> Replayed
    requires count { count ≤ MOST_OPERATIONS }
    requires sink { (K.seen sink.old).faults < 2 ^ 64 - 1 }
    ensures { IsRunPrinted (GivesASummary count seed) (K.seen sink.old) (K.seen sink.new) result.status result.runs }
{
    Replayed::of(alloc, summary_given(rt, alloc, count, seed, sink))
}

/// The closed run of the generated trace, once its summary was given to a sink. The room for it is taken first.
fn summary_given<R: Wait, K: Sink>(
    rt: &R,
    alloc: Global,
    count: u32,
    seed: u64,
    sink: &mut K,
) -> Result<Runs, Status>
    requires count { count ≤ MOST_OPERATIONS }
    requires sink { (K.seen sink.old).faults < 2 ^ 64 - 1 }
    ensures { IsDoing (GivesASummary count seed) (K.seen sink.old) (K.seen sink.new) result }
{
    let mut runs = Vec::with_capacity(alloc, 1)?;
    let run = generated_run(rt, alloc, count, seed)?;
    let text = Summary::of(&run).text(alloc)?;
    give_all(sink, &text)?;
    runs.push_reserved(run);
    Ok(Runs::of(runs))
}

/// Runs the generated trace in the order of its lines over a new space, and closes it.
fn generated_run<R: Wait>(rt: &R, alloc: Global, count: u32, seed: u64) -> Result<Closed, NoMemory>
    requires { count ≤ MOST_OPERATIONS }
    ensures run { IfOk result (λ run. IsRunOf Serial (load_trace count seed) run) }
    ensures list { IfOk result (λ run. run.list ≡ list_after (load_trace count seed).config run.journal) }
{
    let trace = generated_trace(alloc, count, seed)?;
    run_serial(rt, alloc, &trace)
}

/// The generated trace, as the reader of traces reads its text.
pub(crate) fn generated_trace(alloc: Global, count: u32, seed: u64) -> Result<Trace, NoMemory>
    requires { count ≤ MOST_OPERATIONS }
    ensures trace { IfOk result (λ trace. trace ≡ load_trace count seed) }
    ensures value { IfOk result IsTraceValue }
{
    let text = load(alloc, count, seed)?;
    match read(alloc, &text) {
        Ok(trace) => Ok(trace),
        // A generated text is a trace, so it is refused only where memory runs out.
        Err(_) => Err(NoMemory),
    }
}
