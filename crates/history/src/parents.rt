//! The lines of the parent, of a trace that forks.
ghost use Rattle.std.specs.Prelude.{◌≡◌, IfOk, filter, not};
ghost use Rattle.trace_reader.specs.Lines.{has_child};
ghost use Rattle.trace_reader.specs.Values.{child_of, children_of};
ghost use Rattle.history.specs.Parents.{parent_lines};

use mm_types::NoMemory;
use std::alloc::Global;
use trace_reader::{Op, TraceLine};

/// The lines of the parent, in order: those of threads that no line makes as a child. Fails only where memory runs out.
pub fn lines_of_parent(alloc: Global, lines: &[TraceLine]) -> Result<Vec<TraceLine>, NoMemory>
    ensures { IfOk result (λ own. own.items ≡ parent_lines lines.now) }
{
    let children = children_of(alloc, lines)?;
    lines_of_others(alloc, lines, children.as_slice())
}

/// The lines of threads that are none of these children.
fn lines_of_others(
    alloc: Global,
    lines: &[TraceLine],
    children: &[u32],
) -> Result<Vec<TraceLine>, NoMemory>
    ensures { IfOk result (λ own. own.items ≡ filter (λ line. not (has_child children.now line.thread)) lines.now) }
{
    let own = lines
        .iter()
        .filter(|line| !has_child(children, line.thread));
    Ok(own.copied().collect(alloc)?)
}

/// The children that lines make.
fn children_of(alloc: Global, lines: &[TraceLine]) -> Result<Vec<u32>, NoMemory>
    ensures { IfOk result (λ children. children.items ≡ children_of lines.now) }
{
    let children = lines.iter().filter_map(|line| child_of(line.op));
    Ok(children.collect(alloc)?)
}

/// The child that an operation makes, if it makes one.
fn child_of(op: Op) -> Option<u32>
    ensures { result ≡ child_of op }
{
    match op {
        Op::Fork { child } => Some(child),
        Op::Call(_) | Op::Fault { .. } | Op::Maps => None,
    }
}

/// Whether a thread is one of these children.
fn has_child(children: &[u32], thread: u32) -> bool
    ensures { result ≡ has_child children.now thread }
{
    children.contains(&thread)
}
