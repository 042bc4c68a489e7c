//! Closed runs by one pass alone: of all lines of a trace, one after the other.
ghost use Rattle.std.specs.Prelude.{◌≡◌, ◌≤◌, ◌+◌, ◌∷◌, ◌++◌, [], ℕ, List, IfOk, length};
ghost use Rattle.lock_core.specs.Facts.{list_after};
ghost use Rattle.mm_types.specs.Config.{IsValidConfig};
ghost use Rattle.mm_types.specs.declared.call.Entry.{Entry};
ghost use Rattle.area_rules.specs.Steps.{IsLegalJournal};
ghost use Rattle.history.specs.Histories.{AskThemselves};
ghost use Rattle.mm_space.specs.Names.{AreStrangers};
ghost use Rattle.mm_fork.specs.Children.{IsChildRun};
ghost use Rattle.vma_drive.specs.Alone.{RanAlone};
ghost use Rattle.vma_drive.specs.Sharing.{AreOfOneThread, NameNoLine};

use crate::driving::in_order_with;
use crate::watcher::Watcher;
use area_rules::config_for;
use history::SpaceLines;
use mm_space::{Closed, Ready, Space, SpaceName};
use mm_types::{Config, Entry, NoMemory};
use std::alloc::Global;
use std::marker::Brand;
use std::sync::Wait;
use trace_reader::TraceLine;

/// Runs the lines of a child, of its one thread, over a space that begins with what the child inherits, and closes it. Each line is told
/// before and after its operation. Refused where memory runs out.
pub fn run_child<R: Wait, T: Watcher<R>>(
    rt: &R,
    alloc: Global,
    config: &Config,
    own: &SpaceLines<'_>,
    before: &[Entry],
    watcher: &T,
) -> Result<Closed, NoMemory>
    requires config { IsValidConfig config.now }
    requires few { length before.now + length own.now ≤ 16777216 }
    requires legal { IsLegalJournal config.now before.now }
    requires strangers { AreStrangers before.now }
    requires own { AreOfOneThread own.now }
    requires alone { NameNoLine own.now }
    ensures run { IfOk result (λ run. (made : List Entry) × (run.journal ≡ before.now ++ made)
        × IsChildRun config.now before.now own.now 1 made run.logs) }
    ensures list { IfOk result (λ run. run.list ≡ list_after config.now run.journal) }
{
    let lines = own.items();
    let count = lines.len() as u64;
    let config = config_for(alloc, config, before.len() as u64 + count)?;
    let ready = Ready::make_after(rt, alloc, config, before, &[count])?;
    run_alone::<Brand, R, T>(rt, alloc, ready, lines, watcher)
}

/// Opens a space of one caller, runs all lines with its pass, and closes it.
pub(crate) fn run_alone<N: SpaceName, R: Wait, T: Watcher<R>>(
    rt: &R,
    alloc: Global,
    ready: Ready,
    lines: &[TraceLine],
    watcher: &T,
) -> Result<Closed, NoMemory>
    requires name { ready ≡ N.name }
    requires strangers { AreStrangers ready.before }
    requires one { ready.operations ≡ length lines.now ∷ [] }
    requires lines { AskThemselves lines.now }
    ensures { IfOk result (RanAlone ready.config ready.before lines.now) }
{
    let (space, mut passes) = Space::<N>::open(ready);
    in_order_with(rt, alloc, &space, &mut passes[0], lines, watcher)?;
    Ok(space.close(passes))
}
