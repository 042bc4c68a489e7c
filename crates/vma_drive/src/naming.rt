//! Lines that name lines which they come after.
ghost use Rattle.std.specs.Prelude.{ℕ, ◌≡◌, ◌<◌, ◌≤◌, slice_index};
ghost use Rattle.trace_reader.specs.declared.limits.TheConstants.{MOST_LINES};
ghost use Rattle.trace_reader.specs.Values.{AreNumbered};
ghost use Rattle.history.specs.declared.callers.TheConstants.{MOST_THREADS};
ghost use Rattle.history.specs.Threads.{counts_below};
ghost use Rattle.vma_drive.specs.Naming.{HasNumber, tells};

use history::{Callers, MOST_THREADS, SpaceLines};
use trace_reader::TraceLine;

/// The place of the line of this number, found by halving.
pub(crate) fn place_of(lines: &[TraceLine], number: u64) -> usize
    requires numbered { AreNumbered lines.now }
    requires some { (place : ℕ) × HasNumber lines.now number place }
    ensures { HasNumber lines.now number result }
{
    lines.partition_point(|line| line.number < number)
}

/// How often lines name a line of each caller.
pub(crate) fn tells_by_caller(callers: &Callers, lines: &SpaceLines<'_>) -> [u64; MOST_THREADS]
    requires { callers.now ≡ counts_below MOST_THREADS lines.now }
    ensures tells { (caller : ℕ) → caller < MOST_THREADS → slice_index result caller ≡ tells lines.now caller }
    ensures few { (caller : ℕ) → caller < MOST_THREADS → slice_index result caller ≤ MOST_LINES }
{
    let lines = lines.items();
    let mut tells = [0; MOST_THREADS];
    for line in lines {
        if let Some(number) = line.after {
            let named = &lines[place_of(lines, number)];
            tells[callers.caller(named.thread) as usize] += 1;
        }
    }
    tells
}
