//! Whether a trace has a child.
ghost use Rattle.std.specs.Prelude.{◌≡◌, ◌↔◌, Contains, IsTrue, false, nat_eq};
ghost use Rattle.std.specs.Option.{option_map_or};
ghost use Rattle.std.specs.List.{list_any};
ghost use Rattle.trace_reader.specs.Values.{child_of, children_of};

use trace_reader::{Op, Trace, TraceLine};

/// Whether a line of a trace forks this child, as `check_child` and `SpaceLines::child_of` ask.
pub fn has_child(trace: &Trace, child: u32) -> bool
    ensures { IsTrue result ↔ Contains (children_of trace.now.lines) child }
{
    fork_it(trace.lines.items(), child)
}

/// Whether one of some lines forks this child.
fn fork_it(lines: &[TraceLine], child: u32) -> bool
    ensures { result ≡ list_any (λ line. option_map_or (λ own. nat_eq own child) (child_of line.op) false) lines.now }
{
    lines.iter().any(|line| forks(line.op, child))
}

/// Whether an operation forks this child.
fn forks(op: Op, child: u32) -> bool
    ensures { result ≡ option_map_or (λ own. nat_eq own child) (child_of op) false }
{
    match op {
        Op::Fork { child: own } => own == child,
        Op::Call(_) | Op::Fault { .. } | Op::Maps => false,
    }
}
