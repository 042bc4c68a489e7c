//! Runs the lines of the parent of a trace with passes: in rounds, or all of them in order.
ghost use Rattle.std.specs.Prelude.{ℕ, ◌≡◌, ◌≤◌, length, take, slice_get, slice_index, Some, All, OnOk, IfOk};
ghost use Rattle.trace_reader.specs.declared.trace.TraceLine.{TraceLine};
ghost use Rattle.trace_reader.specs.Values.{IsTraceValue};
ghost use Rattle.history.specs.Histories.{lines_of, AskThemselves};
ghost use Rattle.history.specs.Parents.{parent_lines};
ghost use Rattle.history.specs.Runs.{asked};
ghost use Rattle.history.specs.SpaceLines.{AreSpaceLines};
ghost use Rattle.fault_path.specs.Passes.{PassView, IsLater, seen_by};
ghost use Rattle.mm_space.specs.Names.{IsPassOf, ArePasses};
ghost use Rattle.vma_drive.specs.Hearing.{done_by, own_by, HaveGrown, IsLate, IsUnused, AreFreshPasses, AreToldBy};
ghost use Rattle.vma_drive.specs.Internal.Rounds.{Settled, AtRound};
ghost use Rattle.vma_drive.specs.Sharing.{AreEnough};

use crate::busy::{Round, is_whole};
use crate::rounds::{Telling, count_rounds, rounds_of, tellings_of};
use crate::telling::tell_round;
use crate::watcher::{NoWatcher, Watcher};
use crate::working::{run_told, run_workers};
use fault_path::Pass;
use history::{Callers, SpaceLines, has_forks, lines_of_parent, places_by_caller};
use io_edge::Gate;
use mm_space::{Space, SpaceName};
use mm_types::NoMemory;
use std::alloc::Global;
use std::sync::Wait;
use std::thread::Threads;
use trace_reader::{Trace, TraceLine};

/// Runs the lines of the parent of a trace with the passes of a space, with which nothing was done, in rounds. In a round the lines of each
/// caller are run with its pass, in order, in a thread of its own; before it, for each line of the round that names one, the caller of the
/// named line tells what it has seen. The gate is called before and after each operation with the number of its line. Where memory runs out,
/// each pass has run a beginning of its lines.
pub fn drive<N: SpaceName + Send + Sync, R: Threads + Wait + Sync, G: Gate>(
    rt: &R,
    alloc: Global,
    space: &Space<N>,
    passes: &mut [Pass],
    trace: &Trace,
    gate: &G,
) -> Result<(), NoMemory>
    requires trace { IsTraceValue trace.now }
    requires passes { ArePasses N.name passes.old }
    requires unused { AreFreshPasses passes.old }
    requires enough { AreEnough (parent_lines trace.now.lines) passes.old }
    ensures passes { ArePasses N.name passes.new }
    ensures begun { (caller : ℕ) (pass : PassView) → slice_get passes.new caller ≡ Some pass
        → (count : ℕ) × (done_by pass ≡ asked (take count (lines_of (parent_lines trace.now.lines) caller))) }
    ensures done { OnOk result ((caller : ℕ) (pass : PassView) → slice_get passes.new caller ≡ Some pass
        → done_by pass ≡ asked (lines_of (parent_lines trace.now.lines) caller)) }
    ensures grown { (caller : ℕ) (pass : PassView) → slice_get passes.new caller ≡ Some pass → HaveGrown pass }
    ensures told { OnOk result (AreToldBy (parent_lines trace.now.lines) passes.new) }
{
    let own = SpaceLines::parent_of(alloc, trace)?;
    drive_lines(rt, alloc, space, passes, &own, gate)
}

/// The same of the lines of one space.
pub(crate) fn drive_lines<N: SpaceName + Send + Sync, R: Threads + Wait + Sync, G: Gate>(
    rt: &R,
    alloc: Global,
    space: &Space<N>,
    passes: &mut [Pass],
    lines: &SpaceLines<'_>,
    gate: &G,
) -> Result<(), NoMemory>
    requires passes { ArePasses N.name passes.old }
    requires unused { AreFreshPasses passes.old }
    requires enough { AreEnough lines.now passes.old }
    ensures passes { ArePasses N.name passes.new }
    ensures begun { (caller : ℕ) (pass : PassView) → slice_get passes.new caller ≡ Some pass
        → (count : ℕ) × (done_by pass ≡ asked (take count (lines_of lines.now caller))) }
    ensures done { OnOk result ((caller : ℕ) (pass : PassView) → slice_get passes.new caller ≡ Some pass
        → done_by pass ≡ asked (lines_of lines.now caller)) }
    ensures grown { (caller : ℕ) (pass : PassView) → slice_get passes.new caller ≡ Some pass → HaveGrown pass }
    ensures told { OnOk result (AreToldBy lines.now passes.new) }
    ensures kept { AreSpaceLines lines.now }
{
    let own = lines.items();
    let callers = Callers::of(lines);
    let places = places_by_caller(alloc, lines)?;
    let places = places.as_slice();
    let rounds = rounds_of(alloc, &callers, lines)?;
    let rounds = rounds.as_slice();
    let tellings = tellings_of(alloc, &callers, lines, rounds)?;
    let tellings = tellings.as_slice();
    let mut owed = lefts(alloc, passes)?;
    let owed = owed.as_mut_slice();
    run_rounds(
        rt, alloc, space, passes, own, places, rounds, tellings, owed, gate,
    )
}

/// Runs all rounds, one after the other. `owed` holds for each caller its operations but for those that it told with. Where memory runs
/// out, each pass has run a beginning of its lines.
fn run_rounds<N: SpaceName + Send + Sync, R: Threads + Wait + Sync, G: Gate>(
    rt: &R,
    alloc: Global,
    space: &Space<N>,
    passes: &mut [Pass],
    lines: &[TraceLine],
    places: &[Vec<u32>],
    rounds: &[u32],
    tellings: &[Telling],
    owed: &mut [u64],
    gate: &G,
) -> Result<(), NoMemory>
    requires lines { AskThemselves lines.now }
    requires settled { Settled N.name lines.now places.now rounds.now tellings.now }
    requires first { AtRound N.name lines.now places.now rounds.now tellings.now passes.old owed.old 0 }
    ensures passes { ArePasses N.name passes.new }
    ensures begun { (caller : ℕ) (pass : PassView) → slice_get passes.new caller ≡ Some pass
        → (count : ℕ) × (done_by pass ≡ asked (take count (lines_of lines.now caller))) }
    ensures done { OnOk result ((caller : ℕ) (pass : PassView) → slice_get passes.new caller ≡ Some pass
        → done_by pass ≡ asked (lines_of lines.now caller)) }
    ensures grown { (caller : ℕ) (pass : PassView) → slice_get passes.new caller ≡ Some pass → HaveGrown pass }
    ensures told { OnOk result (AreToldBy lines.now passes.new) }
{
    for number in 0..count_rounds(rounds) {
        tell_round(space, passes, tellings, owed, number);
        let round = Round {
            lines,
            places,
            rounds,
            owed,
            number,
        };
        run_workers(rt, alloc, space, passes, round, gate);
        if !is_whole(passes, round) {
            return Err(NoMemory);
        }
    }
    Ok(())
}

/// Runs all lines of the parent of a trace with one pass with which nothing was done, in order. Where memory runs out, it has run a beginning
/// of them.
pub fn in_order<N: SpaceName, R: Wait>(
    rt: &R,
    alloc: Global,
    space: &Space<N>,
    pass: &mut Pass,
    trace: &Trace,
) -> Result<(), NoMemory>
    requires pass { IsPassOf N.name pass.old }
    requires unused { IsUnused pass.old }
    requires left { length (parent_lines trace.now.lines) ≤ pass.old.left }
    requires lines { AskThemselves trace.now.lines }
    ensures pass { IsPassOf N.name pass.new }
    ensures later { IsLater pass.old pass.new }
    ensures begun { (count : ℕ) × (done_by pass.new ≡ asked (take count (parent_lines trace.now.lines))) }
    ensures done { OnOk result (done_by pass.new ≡ asked (parent_lines trace.now.lines)) }
    ensures late { All (IsLate (length (seen_by pass.old))) (own_by pass.new) }
    ensures grown { HaveGrown pass.new }
{
    let lines = trace.lines.items();
    if has_forks(lines) {
        let own = lines_of_parent(alloc, lines)?;
        in_order_with(rt, alloc, space, pass, own.as_slice(), &NoWatcher)
    } else {
        in_order_with(rt, alloc, space, pass, lines, &NoWatcher)
    }
}

/// The same of these lines, each of which is told before and after its operation.
pub(crate) fn in_order_with<N: SpaceName, R: Wait, T: Watcher<R>>(
    rt: &R,
    alloc: Global,
    space: &Space<N>,
    pass: &mut Pass,
    lines: &[TraceLine],
    watcher: &T,
) -> Result<(), NoMemory>
    requires pass { IsPassOf N.name pass.old }
    requires unused { IsUnused pass.old }
    requires left { length lines.now ≤ pass.old.left }
    requires lines { AskThemselves lines.now }
    ensures pass { IsPassOf N.name pass.new }
    ensures later { IsLater pass.old pass.new }
    ensures begun { (count : ℕ) × (done_by pass.new ≡ asked (take count lines.now)) }
    ensures done { OnOk result (done_by pass.new ≡ asked lines.now) }
    ensures late { All (IsLate (length (seen_by pass.old))) (own_by pass.new) }
    ensures grown { HaveGrown pass.new }
{
    for line in lines {
        run_told(rt, alloc, space, pass, line, watcher)?;
    }
    Ok(())
}

/// How many operations each pass has left.
fn lefts(alloc: Global, passes: &[Pass]) -> Result<Vec<u64>, NoMemory>
    ensures count { IfOk result (λ owed. length owed.items ≡ length passes.now) }
    ensures each { IfOk result (λ owed. (caller : ℕ) (pass : PassView) → slice_get passes.now caller ≡ Some pass
        → slice_index owed.items caller ≡ pass.left) }
{
    let mut owed = Vec::new(alloc);
    for pass in passes {
        owed.push(pass.left())?;
    }
    Ok(owed)
}
