//! What each caller does in its thread, and the space that both share.
ghost use Rattle.std.specs.Prelude.{◌≡◌, ◌≤◌, ◌<◌, ◌+◌, ◌∷◌, [], length, IfOk, slice_get, Some};
ghost use Rattle.mm_types.specs.Config.{IsValidConfig};
ghost use Rattle.area_rules.specs.Journals.{calls_by};
ghost use Rattle.area_rules.specs.Steps.{IsLegalJournal};
ghost use Rattle.lock_core.specs.Facts.{list_after};
ghost use Rattle.fault_path.specs.Passes.{caller, made_by};
ghost use Rattle.mm_space.specs.Names.{IsPassOf, ArePasses};
ghost use Rattle.two_callers.specs.Called.{without_touches, calls_made};
ghost use Rattle.two_callers.specs.Internal.Passes.{Starts, Made};

use fault_path::Pass;
use mm_space::{Closed, Ready, Space, SpaceName};
use mm_types::{Access, Call, Config, Entry, NoMemory, Page};
use std::alloc::Global;
use std::marker::Brand;
use std::sync::Wait;
use std::thread::{Threads, join};

/// The page at which the first caller faults.
pub const FIRST: Page = Page(0x20);

/// The page at which the second caller faults, and whose area it holds.
pub const SECOND: Page = Page(0x80);

/// Runs two callers over a new space, and closes it. Each makes its calls, in order; that each then faults once is no clause. What is left is a legal
/// journal, in which each caller's calls are those that it was to make, and the list after it. Refused where memory runs out.
pub fn run<R: Threads + Wait + Sync>(
    rt: &R,
    alloc: Global,
    config: Config,
    first: &[Call],
    second: &[Call],
) -> Result<Closed, NoMemory>
    requires config { IsValidConfig config }
    requires few { length first.now + length second.now ≤ 1000 }
    ensures legal { IfOk result (λ closed. IsLegalJournal config closed.journal) }
    ensures list { IfOk result (λ closed. closed.list ≡ list_after config closed.journal) }
    ensures first { IfOk result (λ closed. calls_made (calls_by 0 closed.journal) ≡ without_touches first.now) }
    ensures second { IfOk result (λ closed. calls_made (calls_by 1 closed.journal) ≡ without_touches second.now) }
{
    let operations = [first.len() as u64 + 1, second.len() as u64 + 1];
    let ready = Ready::make(alloc, config, &operations)?;
    share::<Brand, R>(rt, alloc, ready, first, second)
}

/// Opens the space, runs each caller in a thread of its own, and closes the space with both passes.
fn share<N: SpaceName + Send + Sync, R: Threads + Wait + Sync>(
    rt: &R,
    alloc: Global,
    ready: Ready,
    first: &[Call],
    second: &[Call],
) -> Result<Closed, NoMemory>
    requires name { ready ≡ N.name }
    requires before { ready.before ≡ [] }
    requires operations { ready.operations ≡ (length first.now + 1) ∷ (length second.now + 1) ∷ [] }
    ensures legal { IfOk result (λ closed. IsLegalJournal ready.config closed.journal) }
    ensures list { IfOk result (λ closed. closed.list ≡ list_after ready.config closed.journal) }
    ensures first { IfOk result (λ closed. calls_made (calls_by 0 closed.journal) ≡ without_touches first.now) }
    ensures second { IfOk result (λ closed. calls_made (calls_by 1 closed.journal) ≡ without_touches second.now) }
{
    let (space, passes) = Space::<N>::open(ready);
    let (one, other) = both(passes);
    let (one, other) = join(
        rt,
        || -> Pass
            requires { Starts N.name first.now one }
            ensures { Made N.name first.entry.now result × (caller result ≡ caller one) }
        { work(rt, &space, one, first, FIRST) },
        || -> Pass
            requires { Starts N.name second.now other }
            ensures { Made N.name second.entry.now result × (caller result ≡ caller other) }
        { hold(&space, work(rt, &space, other, second, SECOND), SECOND) },
    );
    Ok(space.close(all_of::<N>(alloc, one, other)?))
}

/// The two passes of a space.
fn both(mut passes: Vec<Pass>) -> (Pass, Pass)
    requires two { length passes.items ≡ 2 }
    ensures first { slice_get passes.items 0 ≡ Some result.0 }
    ensures second { slice_get passes.items 1 ≡ Some result.1 }
{
    let second = passes.remove(1);
    let first = passes.remove(0);
    (first, second)
}

/// The passes of a space again, each in its caller's place.
fn all_of<N: SpaceName>(alloc: Global, one: Pass, other: Pass) -> Result<Vec<Pass>, NoMemory>
    requires two { length N.name.operations ≡ 2 }
    requires one { IsPassOf N.name one × (caller one ≡ 0) }
    requires other { IsPassOf N.name other × (caller other ≡ 1) }
    ensures passes { IfOk result (λ passes. ArePasses N.name passes.items) }
    ensures items { IfOk result (λ passes. passes.items ≡ one ∷ other ∷ []) }
{
    let mut passes = Vec::with_capacity(alloc, 2)?;
    passes.push(one)?;
    passes.push(other)?;
    Ok(passes)
}

/// What a caller does: its calls, in order, and then a fault.
fn work<N: SpaceName, R: Wait>(
    rt: &R,
    space: &Space<N>,
    mut pass: Pass,
    calls: &[Call],
    page: Page,
) -> Pass
    requires { Starts N.name calls.now pass }
    ensures { Made N.name calls.now result × (caller result ≡ caller pass) }
{
    for call in calls {
        space.call(rt, &mut pass, call);
    }
    space.fault(rt, &mut pass, page, Access::Read);
    pass
}

/// Holds the area at a page for a moment: whatever calls are made meanwhile, it is the same at the look.
fn hold<N: SpaceName>(space: &Space<N>, pass: Pass, page: Page) -> Pass
    requires { IsPassOf N.name pass }
    ensures mine { IsPassOf N.name result }
    ensures by { caller result ≡ caller pass }
    ensures made { made_by result ≡ made_by pass }
{
    match space.view().read_lock(pass, page) {
        Ok(mut held) => {
            held.look();
            held.unlock()
        }
        Err((pass, _)) => pass,
    }
}

/// How many entries a caller has in a journal.
pub fn entries_of(journal: &[Entry], caller: u32) -> usize
    ensures { result ≡ length (calls_by caller journal.now) }
{
    journal
        .iter()
        .filter(|entry| entry.caller == caller)
        .count()
}
