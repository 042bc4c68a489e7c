//! Workers that run the lines of a round, each with a pass of its own.
ghost use Rattle.std.specs.Prelude.{ℕ, ◌≡◌, ◌≤◌, ◌<◌, length, slice_get, slice_index, Some, OnOk, OnErr, Vec};
ghost use Rattle.std.specs.declared.alloc.Global.{Global};
ghost use Rattle.history.specs.Histories.{lines_of, AsksItself, AskThemselves};
ghost use Rattle.history.specs.CallerPlaces.{ArePlaces};
ghost use Rattle.fault_path.specs.Passes.{PassView, IsLater};
ghost use Rattle.mm_space.specs.Names.{IsPassOf, ArePasses};
ghost use Rattle.vma_drive.specs.Hearing.{DoesItem, GrewNone, HasRun};
ghost use Rattle.vma_drive.specs.Internal.Rounds.{RanRound};

use crate::busy::{Round, threads_for};
use crate::watcher::{GateWatcher, Watcher};
use fault_path::Pass;
use io_edge::Gate;
use mm_space::{Space, SpaceName};
use mm_types::NoMemory;
use std::alloc::Global;
use std::sync::Wait;
use std::thread;
use std::thread::Threads;
use trace_reader::{Op, TraceLine};

/// Runs the lines of each caller that are of this round with its pass, in a thread of its own.
pub(crate) fn run_workers<N: SpaceName + Send + Sync, R: Threads + Wait + Sync, G: Gate>(
    rt: &R,
    alloc: Global,
    space: &Space<N>,
    passes: &mut [Pass],
    round: Round<'_>,
    gate: &G,
)
    requires some { 0 < length passes.old }
    requires lines { AskThemselves round.lines.now }
    requires places { ArePlaces round.lines.now (length passes.old) round.places.now }
    requires rounds { length round.rounds.now ≡ length round.lines.now }
    requires owed { length round.owed.now ≡ length passes.old }
    requires passes { ArePasses N.name passes.old }
    requires has { (caller : ℕ) (pass : PassView) → slice_get passes.old caller ≡ Some pass
        → HasRun (lines_of round.lines.now caller) pass (slice_index round.owed.now caller)
        × (length (lines_of round.lines.now caller) ≤ slice_index round.owed.now caller) }
    ensures passes { ArePasses N.name passes.new }
    ensures ran { (caller : ℕ) (old new : PassView) (own : Vec ℕ Global) → slice_get passes.old caller ≡ Some old → slice_get passes.new caller ≡ Some new
        → slice_get round.entry.places.now caller ≡ Some own
        → IsLater old new
        × RanRound (lines_of round.entry.lines.now caller) round.entry.rounds.now own.items round.entry.number (slice_index round.entry.owed.now caller) old new }
{
    let worker = |caller: usize, pass: &mut Pass|
        requires { (caller < length round.places.now) × (caller < length round.owed.now) × AskThemselves round.lines.now
            × ArePlaces round.lines.now (length round.places.now) round.places.now
            × (length round.rounds.now ≡ length round.lines.now) × IsPassOf N.name pass.now
            × HasRun (lines_of round.lines.now caller) pass.now (slice_index round.owed.now caller)
            × (length (lines_of round.lines.now caller) ≤ slice_index round.owed.now caller) }
        ensures { IsPassOf N.name pass.exit.now × IsLater pass.entry.now pass.exit.now
            × ((own : Vec ℕ Global) → slice_get round.entry.places.now caller ≡ Some own
            → RanRound (lines_of round.entry.lines.now caller) round.entry.rounds.now own.items round.entry.number
            (slice_index round.entry.owed.now caller) pass.entry.now pass.exit.now) }
    { run_own(rt, alloc, space, pass, round, caller, gate) };
    let threads = threads_for(passes, round);
    thread::for_each_mut(rt, passes, threads, &worker);
}

/// Runs the lines of one caller that are of this round with its pass, in order. Stops where memory runs out.
fn run_own<N: SpaceName, R: Threads + Wait + Sync, G: Gate>(
    rt: &R,
    alloc: Global,
    space: &Space<N>,
    pass: &mut Pass,
    round: Round<'_>,
    caller: usize,
    gate: &G,
)
    requires caller { (caller < length round.places.now) × (caller < length round.owed.now) }
    requires lines { AskThemselves round.lines.now }
    requires places { ArePlaces round.lines.now (length round.places.now) round.places.now }
    requires rounds { length round.rounds.now ≡ length round.lines.now }
    requires pass { IsPassOf N.name pass.old }
    requires has { HasRun (lines_of round.lines.now caller) pass.old (slice_index round.owed.now caller) }
    requires left { length (lines_of round.lines.now caller) ≤ slice_index round.owed.now caller }
    ensures pass { IsPassOf N.name pass.new }
    ensures later { IsLater pass.old pass.new }
    ensures ran { (own : Vec ℕ Global) → slice_get round.entry.places.now caller ≡ Some own
        → RanRound (lines_of round.entry.lines.now caller) round.entry.rounds.now own.items round.entry.number (slice_index round.entry.owed.now caller) pass.old pass.new }
{
    let own = round.places[caller].as_slice();
    let done = (round.owed[caller] - pass.left()) as usize;
    let watcher = GateWatcher(gate);
    for index in done..own.len() {
        let place = own[index] as usize;
        if round.rounds[place] > round.number {
            return;
        }
        let line = &round.lines[place];
        let Ok(()) = run_told(rt, alloc, space, pass, line, &watcher) else {
            return;
        };
    }
}

/// Runs the operation of a line with a pass. A watcher is told before it and after it, whatever it results in. Refused where memory runs out,
/// and then nothing was done.
pub(crate) fn run_told<N: SpaceName, R: Wait, T: Watcher<R>>(
    rt: &R,
    alloc: Global,
    space: &Space<N>,
    pass: &mut Pass,
    line: &TraceLine,
    watcher: &T,
) -> Result<(), NoMemory>
    requires pass { IsPassOf N.name pass.old }
    requires left { 0 < pass.old.left }
    requires op { AsksItself line.now.op }
    ensures pass { IsPassOf N.name pass.new }
    ensures later { IsLater pass.old pass.new }
    ensures ok { OnOk result (DoesItem pass.old pass.new line.now.op) }
    ensures err { OnErr result (GrewNone pass.old pass.new) }
{
    watcher.before(rt, line.number);
    let done = run_op(rt, alloc, space, pass, line.op);
    watcher.after(rt, line.number);
    done
}

/// Runs one operation with a pass. Refused where memory runs out, and then nothing was done.
fn run_op<N: SpaceName, R: Wait>(
    rt: &R,
    alloc: Global,
    space: &Space<N>,
    pass: &mut Pass,
    op: Op,
) -> Result<(), NoMemory>
    requires pass { IsPassOf N.name pass.old }
    requires left { 0 < pass.old.left }
    requires op { AsksItself op }
    ensures pass { IsPassOf N.name pass.new }
    ensures later { IsLater pass.old pass.new }
    ensures ok { OnOk result (DoesItem pass.old pass.new op) }
    ensures err { OnErr result (GrewNone pass.old pass.new) }
{
    pass.facts();
    match op {
        Op::Call(call) => {
            space.call(rt, pass, &call);
        }
        Op::Fault { page, access } => {
            space.fault(rt, pass, page, access);
        }
        Op::Maps => {
            space.maps(rt, alloc, pass)?;
        }
        // The list is what the child begins with.
        Op::Fork { .. } => {
            space.maps(rt, alloc, pass)?;
        }
    }
    Ok(())
}
