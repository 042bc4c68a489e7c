//! The forks of a trace whose parent has run.
ghost use Rattle.std.specs.Prelude.{◌≡◌, ◌++◌, IfOk, OnOk};
ghost use Rattle.output.specs.Giving.{AreLegal};
ghost use Rattle.vma_replay.specs.Forks.{fork_of, forks_from, forks_of};

use history::{Item, SpaceLines};
use mm_types::NoMemory;
use output::AnsweredLines;
use std::alloc::Global;
use trace_reader::{Op, TraceLine};

/// A fork of a parent that has run.
#[derive(Clone, Copy, Debug, PartialEq, Eq)]
pub struct Fork {
    /// The child, by the number of its one thread.
    pub child: u32,
    /// The number of the line that forked it.
    pub line: u64,
    /// The version of the parent there: how many calls of the parent the child begins with.
    pub version: u64,
}

/// The forks of a legal history of a parent's lines, by ascending child.
pub(crate) fn forks_of(
    alloc: Global,
    lines: &SpaceLines<'_>,
    items: &[Item],
) -> Result<Vec<Fork>, NoMemory>
    requires { AreLegal lines.now items.now }
    ensures { IfOk result (λ forks. forks.items ≡ forks_of lines.now items.now) }
{
    let mut forks = forks_from(alloc, lines, items)?;
    forks.sort_by_key(|fork| fork.child)?;
    Ok(forks)
}

/// The forks of a legal history, in its order.
fn forks_from(alloc: Global, lines: &SpaceLines<'_>, items: &[Item]) -> Result<Vec<Fork>, NoMemory>
    requires { AreLegal lines.now items.now }
    ensures { IfOk result (λ forks. forks.items ≡ forks_from lines.now items.now) }
{
    let mut forks = Vec::new(alloc);
    let mut answered = AnsweredLines::new(alloc, lines)?;
    for item in items {
        push_fork(&mut forks, answered.next(item), item)?;
    }
    Ok(forks)
}

/// Appends the fork of an item, if the line that it answers forks.
fn push_fork(forks: &mut Vec<Fork>, line: &TraceLine, item: &Item) -> Result<(), NoMemory>
    ensures { OnOk result (forks.new.items ≡ forks.old.items ++ fork_of line.now item.now) }
{
    if let Op::Fork { child } = line.op {
        forks.push(Fork {
            child,
            line: line.number,
            version: item.version,
        })?;
    }
    Ok(())
}
