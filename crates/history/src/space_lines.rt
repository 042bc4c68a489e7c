//! The lines of one space of a trace.
ghost use Rattle.std.specs.Prelude.{◌≡◌, ◌<◌, false, All, Contains, IfOk, IsOk, is_some};
ghost use Rattle.std.specs.List.{list_any};
ghost use Rattle.trace_reader.specs.Values.{IsTraceValue, child_of, children_of};
ghost use Rattle.history.specs.declared.callers.TheConstants.{MOST_THREADS};
ghost use Rattle.history.specs.Histories.{AskThemselves};
ghost use Rattle.history.specs.Parents.{parent_lines};
ghost use Rattle.history.specs.SpaceLines.{AreSpaceLines, child_lines};

use crate::parents::lines_of_parent;
use mm_types::NoMemory;
use std::alloc::Global;
use std::marker::Model;
use trace_reader::{Op, Trace, TraceLine};

/// Lines that are all of a trace, or some of them.
#[derive(Debug, Drop)]
enum Held<'a> {
    Whole(&'a [TraceLine]),
    Part(Vec<TraceLine>),
}

/// The lines of one space of a trace: of its parent, or of a child. Contracts see them as a list. What holds of every such list, `items`
/// tells: whoever has one need not ask for it.
#[derive(Debug, Drop)]
pub struct SpaceLines<'a> {
    lines: Held<'a>,
}

impl<'a> Model for SpaceLines<'a> {
    ghost use Rattle.std.specs.Prelude.{List};
    ghost use Rattle.trace_reader.specs.declared.trace.TraceLine.{TraceLine};

    ghost Value = { List TraceLine };

    ghost use Rattle.history.specs.SpaceLines.{AreSpaceLines, held_lines};

    ghost view = { λ own. held_lines own.lines };

    ghost invariant = { λ own. AreSpaceLines (held_lines own.lines) };
}

impl<'a> SpaceLines<'a> {
    /// The lines of the parent of a trace. Where no line forks these are all of its lines, and no memory is taken. Fails only where memory
    /// runs out.
    #[tactic(auto, using(crate::proofs::OneSpace::space_of_parent, crate::proofs::OneSpace::whole_is_space, crate::proofs::OneSpace::whole_is_parent))]
    pub fn parent_of(alloc: Global, trace: &'a Trace) -> Result<SpaceLines<'a>, NoMemory>
        requires { IsTraceValue trace.now }
        ensures own { IfOk result (λ own. own ≡ parent_lines trace.now.lines) }
        ensures alone { list_any (λ line. is_some (child_of line.op)) trace.now.lines ≡ false → IsOk result }
    {
        let lines = trace.lines.items();
        if has_forks(lines) {
            let own = lines_of_parent(alloc, lines)?;
            Ok(SpaceLines {
                lines: Held::Part(own),
            })
        } else {
            Ok(SpaceLines {
                lines: Held::Whole(lines),
            })
        }
    }

    /// The lines of a child of a trace. Fails only where memory runs out.
    #[tactic(auto, using(crate::proofs::OneSpace::space_of_child))]
    pub fn child_of(alloc: Global, trace: &'a Trace, child: u32) -> Result<SpaceLines<'a>, NoMemory>
        requires trace { IsTraceValue trace.now }
        requires child { Contains (children_of trace.now.lines) child }
        ensures { IfOk result (λ own. own ≡ child_lines trace.now.lines child) }
    {
        let own = lines_of_child(alloc, trace.lines.items(), child)?;
        Ok(SpaceLines {
            lines: Held::Part(own),
        })
    }

    /// Shows the lines, in their order.
    #[tactic(auto, using(crate::proofs::OneSpace::space_threads, crate::proofs::OneSpace::space_asks))]
    pub fn items(&self) -> &[TraceLine]
        ensures lines { result.now ≡ self.now }
        ensures kept { AreSpaceLines result.now }
        ensures threads { All (λ line. line.thread < MOST_THREADS) result.now }
        ensures ask { AskThemselves result.now }
    {
        match &self.lines {
            Held::Whole(lines) => lines,
            Held::Part(lines) => lines.as_slice(),
        }
    }
}

/// Whether a line forks.
pub fn has_forks(lines: &[TraceLine]) -> bool
    ensures { result ≡ list_any (λ line. is_some (child_of line.op)) lines.now }
{
    lines.iter().any(|line| is_fork(line.op))
}

/// Whether an operation makes a child.
fn is_fork(op: Op) -> bool
    ensures { result ≡ is_some (child_of op) }
{
    matches!(op, Op::Fork { .. })
}

/// The lines of a child, in order: those of its one thread. Fails only where memory runs out.
fn lines_of_child(
    alloc: Global,
    lines: &[TraceLine],
    child: u32,
) -> Result<Vec<TraceLine>, NoMemory>
    ensures { IfOk result (λ own. own.items ≡ child_lines lines.now child) }
{
    let own = lines.iter().filter(|line| line.thread == child);
    Ok(own.copied().collect(alloc)?)
}
