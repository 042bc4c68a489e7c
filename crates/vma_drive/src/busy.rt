//! Which callers have a line in a round.
ghost use Rattle.std.specs.Prelude.{◌≡◌, ◌≤◌, ◌<◌, ◌+◌, ◌↔◌, ℕ, length, slice_get, slice_index, Some, IsTrue, Vec};
ghost use Rattle.std.specs.declared.alloc.Global.{Global};
ghost use Rattle.vma_drive.specs.Hearing.{own_by};
ghost use Rattle.vma_drive.specs.Internal.Rounds.{HaveThreadsApart, HasLineByRound, HasNoLineNext};
ghost use Rattle.vma_drive.specs.Internal.Callers.{ArePlacesIn, IsRoundOf};

use fault_path::Pass;
use trace_reader::TraceLine;

/// A round: which lines of a trace are run in it, and by which callers.
#[derive(Clone, Copy)]
pub(crate) struct Round<'a> {
    /// The lines of the trace.
    pub(crate) lines: &'a [TraceLine],
    /// Where those of each caller stand.
    pub(crate) places: &'a [Vec<u32>],
    /// The round of each line.
    pub(crate) rounds: &'a [u32],
    /// How many operations each caller has, but for those that it told with.
    pub(crate) owed: &'a [u64],
    /// The number of this round.
    pub(crate) number: u32,
}

/// In how many threads a round is run: as few as give each caller with a line its own, where they share out neighbouring callers evenly.
pub(crate) fn threads_for(passes: &[Pass], round: Round<'_>) -> usize
    requires some { 0 < length passes.now }
    requires round { IsRoundOf round passes.now }
    ensures some { 0 < result }
    ensures apart { HaveThreadsApart round.entry.places.now round.entry.rounds.now round.entry.number passes.now result }
    ensures fewest { (fewer : ℕ) → 0 < fewer → HaveThreadsApart round.entry.places.now round.entry.rounds.now round.entry.number passes.now fewer → result ≤ fewer }
{
    let mut closest = passes.len();
    let mut last = None;
    for (caller, pass) in passes.iter().enumerate() {
        if has_line(pass, round, caller) {
            if let Some(before) = last {
                closest = closest.min(caller - before);
            }
            last = Some(caller);
        }
    }
    passes.len().div_ceil(closest)
}

/// Whether no caller has a line left of a round or of a lower one.
pub(crate) fn is_whole(passes: &[Pass], round: Round<'_>) -> bool
    requires { IsRoundOf round passes.now }
    ensures { IsTrue result ↔ HasNoLineNext round.entry.places.now round.entry.rounds.now round.entry.number passes.now }
{
    for (caller, pass) in passes.iter().enumerate() {
        if has_line(pass, round, caller) {
            return false;
        }
    }
    true
}

/// Whether the next line of a caller is of this round or of a lower one.
fn has_line(pass: &Pass, round: Round<'_>, caller: usize) -> bool
    requires caller { (caller < length round.places.now) × (caller < length round.owed.now) }
    requires within { ArePlacesIn (length round.rounds.now) round.places.now }
    requires left { pass.now.left + length (own_by pass.now) ≡ slice_index round.owed.now caller }
    ensures { (own : Vec ℕ Global) → slice_get round.entry.places.now caller ≡ Some own
        → IsTrue result ↔ HasLineByRound own.items round.entry.rounds.now round.entry.number pass.now }
{
    let own = round.places[caller].as_slice();
    let done = (round.owed[caller] - pass.left()) as usize;
    done < own.len() && round.rounds[own[done] as usize] <= round.number
}
