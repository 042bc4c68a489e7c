//! Whether a history is legal and of the lines of a child.
ghost use Rattle.std.specs.Prelude.{◌≡◌, ◌≤◌, ◌^◌, Err, [], Contains, OnOk, length};
ghost use Rattle.trace_reader.specs.Values.{IsTraceValue, children_of};
ghost use Rattle.history.specs.declared.answers.BadEntry.{BadEntry};
ghost use Rattle.history.specs.Checking.{IsHistoryRefused};
ghost use Rattle.history.specs.Histories.{IsLegalHistory};
ghost use Rattle.history.specs.SpaceLines.{child_lines};

use history::{CheckError, History, SpaceLines, check_after};
use mm_types::Entry;
use std::alloc::Global;
use trace_reader::Trace;

/// Judges the history of a child of a trace, which began with these entries, as `check` does that of a space that began empty: `Ok` exactly
/// where it is legal and of the child's lines, and else the first item that is bad, or its end. The only other error is out of memory.
pub fn check_child(
    alloc: Global,
    trace: &Trace,
    child: u32,
    before: &[Entry],
    history: &History,
) -> Result<(), CheckError>
    requires trace { IsTraceValue trace.now }
    requires child { Contains (children_of trace.now.lines) child }
    requires begun { length before.now ≤ 2 ^ 31 }
    ensures legal { OnOk result (IsLegalHistory trace.now.config before.now (child_lines trace.now.lines child) history.now) }
    ensures refused { (bad : BadEntry) → result ≡ Err (CheckError.Bad bad)
        → IsHistoryRefused trace.now.config before.now (child_lines trace.now.lines child) history.now bad }
{
    let lines = SpaceLines::child_of(alloc, trace, child)?;
    check_after(alloc, &trace.config, before, &lines, history)
}
