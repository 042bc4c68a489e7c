//! A trace over two spaces that are opened here: its lines by threads, and in order.
ghost use Rattle.std.specs.Prelude.{◌≡◌, ◌≤◌, ◌+◌, ◌∷◌, [], length};
ghost use Rattle.history.specs.declared.callers.TheConstants.{MOST_THREADS};
ghost use Rattle.history.specs.Histories.{caller_of};
ghost use Rattle.history.specs.Parents.{parent_lines};
ghost use Rattle.trace_reader.specs.Values.{IsTraceValue};

use crate::judging::parsed;
use history::{Callers, SpaceLines};
use io_edge::PlainGate;
use mm_space::{Closed, Ready, Space, SpaceName};
use mm_types::NoMemory;
use std::alloc::Global;
use std::marker::Brand;
use std::process::Abort;
use std::sync::Wait;
use std::test::Fail;
use std::thread::Threads;
use trace_reader::Trace;
use vma_drive::{drive, in_order};

/// Two threads that map a page each.
const TRACE: &[u8] = b"vmatrace 1\n\
      0 mmap 0x100000 4096 PROT_READ MAP_PRIVATE|MAP_ANONYMOUS|MAP_FIXED -1 0\n\
      1 mmap 0x200000 4096 PROT_READ MAP_PRIVATE|MAP_ANONYMOUS|MAP_FIXED -1 0\n";

/// Opens a space of two callers, runs the lines of each thread with a pass of its own, and closes it. Tells whether all were run.
fn driven<N: SpaceName + Send + Sync, R: Threads + Wait + Sync>(
    rt: &R,
    alloc: Global,
    ready: Ready,
    trace: &Trace,
    most: u64,
) -> (Closed, bool)
    requires name { ready ≡ N.name }
    requires before { ready.before ≡ [] }
    requires trace { IsTraceValue trace.now }
    requires callers { caller_of (parent_lines trace.now.lines) MOST_THREADS ≡ 2 }
    requires most { length (parent_lines trace.now.lines) + length (parent_lines trace.now.lines) ≤ most }
    requires enough { ready.operations ≡ most ∷ most ∷ [] }
{
    let (space, mut passes) = Space::<N>::open(ready);
    let done = drive(rt, alloc, &space, passes.as_mut_slice(), trace, &PlainGate);
    (space.close(passes), done.is_ok())
}

/// What `drive` leaves of a trace of two threads.
fn driven_run<R: Threads + Wait + Sync + Abort>(
    rt: &R,
    alloc: Global,
    trace: &Trace,
) -> Result<(Closed, bool), NoMemory>
    requires { IsTraceValue trace.now }
{
    let own = SpaceLines::parent_of(alloc, trace)?;
    if Callers::of(&own).count() != 2 {
        panic!(rt; "not two threads");
    }
    // For each line of a thread, and each time that one names it.
    let most = 2 * own.items().len() as u64;
    let ready = Ready::make(alloc, trace.config.copy(alloc)?, &[most, most])?;
    Ok(driven::<Brand, R>(rt, alloc, ready, trace, most))
}

/// Opens a space, runs all lines with its one pass, and closes it. Tells whether all were run.
fn ordered<N: SpaceName, R: Wait>(
    rt: &R,
    alloc: Global,
    ready: Ready,
    trace: &Trace,
) -> (Closed, bool)
    requires name { ready ≡ N.name }
    requires before { ready.before ≡ [] }
    requires trace { IsTraceValue trace.now }
    requires enough { ready.operations ≡ length (parent_lines trace.now.lines) ∷ [] }
{
    let (space, mut passes) = Space::<N>::open(ready);
    let done = in_order(rt, alloc, &space, &mut passes[0], trace);
    (space.close(passes), done.is_ok())
}

/// What `in_order` leaves of a trace.
fn ordered_run<R: Wait>(rt: &R, alloc: Global, trace: &Trace) -> Result<(Closed, bool), NoMemory>
    requires { IsTraceValue trace.now }
{
    let own = SpaceLines::parent_of(alloc, trace)?;
    let count = own.items().len() as u64;
    let ready = Ready::make(alloc, trace.config.copy(alloc)?, &[count])?;
    Ok(ordered::<Brand, R>(rt, alloc, ready, trace))
}

#[test]
fn a_trace_runs_over_spaces_that_are_opened_here(rt: HostRuntime) -> Result<(), Fail> {
    let trace = parsed(rt.alloc(), TRACE)?;
    let (driven, is_driven) = driven_run(&rt, rt.alloc(), &trace)?;
    let (ordered, is_ordered) = ordered_run(&rt, rt.alloc(), &trace)?;
    assert!(rt; is_driven && is_ordered && ordered.list().items().len() == 2);
    assert!(rt; driven.list().items() == ordered.list().items());
    Ok(())
}
