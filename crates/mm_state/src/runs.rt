//! Changes that take away areas which adjoin each other.
ghost use Rattle.std.specs.Prelude.{ℕ, ◌≤◌, ◌-◌, length, take, drop};
ghost use Rattle.mm_state.specs.Internal.Runs.{IsRunOfRemovals};

use mm_types::Span;
use split_merge::Change;

/// Changes from a place on, which take away areas that adjoin each other, and the pages of the areas.
#[derive(Clone, Copy)]
pub(crate) struct Run {
    pub(crate) first: usize,
    pub(crate) span: Span,
}

/// The longest run that ends before a place. It has no change where the last one there takes no area away.
pub(crate) fn run_before(changes: &[Change], end: usize) -> Run
    requires { end ≤ length changes.now }
    ensures first { result.first ≤ end }
    ensures run { IsRunOfRemovals result.span.lo result.span.hi (take (end - result.first) (drop result.first changes.now)) }
    ensures longest { (first lo hi : ℕ) → IsRunOfRemovals lo hi (take (end - first) (drop first changes.now)) → result.first ≤ first }
{
    let mut first = end;
    let mut lo = 0;
    let mut hi = 0;
    while first > 0 {
        let Change::Detach(area) = &changes[first - 1] else {
            break;
        };
        if first == end {
            hi = area.span.hi;
        } else if area.span.hi != lo {
            break;
        }
        lo = area.span.lo;
        first -= 1;
    }
    Run {
        first,
        span: Span { lo, hi },
    }
}
