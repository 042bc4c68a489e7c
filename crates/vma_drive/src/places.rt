//! How many operations each caller of a trace has.
ghost use Rattle.std.specs.Prelude.{IfOk};
ghost use Rattle.vma_drive.specs.Sharing.{AreShares};

use crate::naming::tells_by_caller;
use history::{Callers, SpaceLines};
use mm_types::NoMemory;
use std::alloc::Global;

/// How many operations each caller has: one for each of its lines, and one for each time that a line names one of them.
pub(crate) fn shares(alloc: Global, lines: &SpaceLines<'_>) -> Result<Vec<u64>, NoMemory>
    ensures { IfOk result (λ operations. AreShares lines.now operations.items) }
{
    let callers = Callers::of(lines);
    let tells = tells_by_caller(&callers, lines);
    let mut operations = Vec::new(alloc);
    for caller in 0..callers.count().max(1) {
        operations.push(callers.lines(caller) + tells[caller])?;
    }
    Ok(operations)
}
