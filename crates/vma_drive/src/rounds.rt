//! Rounds: when each line of a trace is run, where lines name earlier ones.
ghost use Rattle.std.specs.Prelude.{ℕ, ◌≡◌, ◌≤◌, ◌<◌, ◌+◌, length, slice_index, All, IfOk, IfSome};
ghost use Rattle.trace_reader.specs.declared.limits.TheConstants.{MOST_LINES};
ghost use Rattle.trace_reader.specs.Values.{AreNumbered};
ghost use Rattle.history.specs.declared.callers.TheConstants.{MOST_THREADS};
ghost use Rattle.history.specs.Threads.{counts_below};
ghost use Rattle.vma_drive.specs.Naming.{HasNumber};
ghost use Rattle.vma_drive.specs.Internal.Rounds.{AreRounds, AreTellings};

use crate::naming::place_of;
use history::{Callers, MOST_THREADS, SpaceLines};
use mm_types::NoMemory;
use std::alloc::Global;
use trace_reader::TraceLine;

/// What one caller tells another before a round.
#[derive(Clone, Copy, Debug, PartialEq, Eq)]
pub(crate) struct Telling {
    pub(crate) round: u32,
    pub(crate) teller: u32,
    pub(crate) hearer: u32,
}

/// The round of each line: the greater of that of its caller's line before it, and of one more than that of the line that it names.
/// It is 0 where there is neither.
pub(crate) fn rounds_of(
    alloc: Global,
    callers: &Callers,
    lines: &SpaceLines<'_>,
) -> Result<Vec<u32>, NoMemory>
    requires { callers.now ≡ counts_below MOST_THREADS lines.now }
    ensures { IfOk result (λ rounds. AreRounds lines.now rounds.items) }
{
    let lines = lines.items();
    let mut rounds = Vec::new(alloc);
    let mut reached = [0; MOST_THREADS];
    for line in lines {
        let caller = callers.caller(line.thread) as usize;
        let round = round_of(reached[caller], lines, line.after, rounds.as_slice());
        reached[caller] = round;
        rounds.push(round)?;
    }
    Ok(rounds)
}

/// What is told for each line that names one.
pub(crate) fn tellings_of(
    alloc: Global,
    callers: &Callers,
    lines: &SpaceLines<'_>,
    rounds: &[u32],
) -> Result<Vec<Telling>, NoMemory>
    requires callers { callers.now ≡ counts_below MOST_THREADS lines.now }
    requires rounds { length rounds.now ≡ length lines.now }
    ensures { IfOk result (λ tellings. AreTellings lines.now rounds.now tellings.items) }
{
    let lines = lines.items();
    let mut tellings = Vec::new(alloc);
    for (place, line) in lines.iter().enumerate() {
        if let Some(number) = line.after {
            let named = &lines[place_of(lines, number)];
            let teller = callers.caller(named.thread);
            let hearer = callers.caller(line.thread);
            tellings.push(Telling {
                round: rounds[place],
                teller,
                hearer,
            })?;
        }
    }
    Ok(tellings)
}

/// How many rounds there are.
pub(crate) fn count_rounds(rounds: &[u32]) -> u32
    requires { All (λ round. round < MOST_LINES) rounds.now }
    ensures above { All (λ round. round < result) rounds.now }
    ensures least { (bound : ℕ) → All (λ round. round < bound) rounds.now → result ≤ bound }
{
    let mut count = 0;
    for round in rounds {
        if count <= *round {
            count = *round + 1;
        }
    }
    count
}

/// The round of a line after its caller's lines so far, where it may name a line of known round.
fn round_of(reached: u32, lines: &[TraceLine], after: Option<u64>, rounds: &[u32]) -> u32
    requires numbered { AreNumbered lines.now }
    requires named { IfSome after (λ number. (said : ℕ) × HasNumber lines.now number said × (said < length rounds.now)) }
    requires few { (reached < MOST_LINES) × All (λ round. round + 1 < MOST_LINES) rounds.now }
    ensures reached { reached ≤ result }
    ensures above { IfSome after (λ number. (said : ℕ) × HasNumber lines.now number said × (slice_index rounds.now said < result)) }
    ensures least { (bound : ℕ) → reached ≤ bound
        → IfSome after (λ number. (said : ℕ) × HasNumber lines.now number said × (slice_index rounds.now said < bound)) → result ≤ bound }
{
    match after {
        Some(number) => reached.max(rounds[place_of(lines, number)] + 1),
        None => reached,
    }
}
