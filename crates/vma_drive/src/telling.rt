//! What callers tell each other before a round.
ghost use Rattle.std.specs.Prelude.{ℕ, ◌≡◌, ◌≤◌, ◌<◌, ◌+◌, if◌then◌else◌, nat_eq, length, slice_get, slice_index, Some, All};
ghost use Rattle.fault_path.specs.Passes.{PassView, seen_by};
ghost use Rattle.mm_space.specs.Names.{ArePasses};
ghost use Rattle.vma_drive.specs.declared.rounds.Telling.{Telling};
ghost use Rattle.vma_drive.specs.Hearing.{own_by};
ghost use Rattle.vma_drive.specs.Internal.Rounds.{IsMoved, tells_from};

use crate::rounds::Telling;
use fault_path::Pass;
use mm_space::{Space, SpaceName};

/// Before a round: what is told then. `owed` holds for each caller its operations but for those that it told with.
pub(crate) fn tell_round<N: SpaceName>(
    space: &Space<N>,
    passes: &mut [Pass],
    tellings: &[Telling],
    owed: &mut [u64],
    round: u32,
)
    requires passes { ArePasses N.name passes.old }
    requires callers { All (λ telling. (telling.teller < length passes.old) × (telling.hearer < length passes.old)) tellings.now }
    requires owed { length owed.old ≡ length passes.old }
    requires left { (caller : ℕ) (pass : PassView) → slice_get passes.old caller ≡ Some pass
        → (pass.left ≤ slice_index owed.old caller) × (tells_from round caller tellings.now ≤ pass.left) }
    ensures passes { ArePasses N.name passes.new }
    ensures moved { (caller : ℕ) (old new : PassView) → slice_get passes.old caller ≡ Some old → slice_get passes.new caller ≡ Some new
        → IsMoved old new × (new.left + slice_index owed.old caller ≡ old.left + slice_index owed.new caller) }
    ensures owed { (caller : ℕ) → caller < length passes.old
        → slice_index owed.new caller + tells_from round caller tellings.now ≡ slice_index owed.old caller + tells_from (round + 1) caller tellings.now }
    ensures heard { (index : ℕ) (telling : Telling) (teller hearer : PassView) → slice_get tellings.now index ≡ Some telling → telling.round ≡ round
        → slice_get passes.old telling.teller ≡ Some teller → slice_get passes.new telling.hearer ≡ Some hearer
        → All (λ said. said.version ≤ length (seen_by hearer)) (own_by teller) }
{
    for telling in tellings {
        if telling.round == round {
            let teller = telling.teller as usize;
            pass_note(space, passes, teller, telling.hearer as usize);
            owed[teller] -= 1;
        }
    }
}

/// One caller tells another what it has seen.
fn pass_note<N: SpaceName>(space: &Space<N>, passes: &mut [Pass], teller: usize, hearer: usize)
    requires passes { ArePasses N.name passes.old }
    requires callers { (teller < length passes.old) × (hearer < length passes.old) }
    requires left { (pass : PassView) → slice_get passes.old teller ≡ Some pass → 0 < pass.left }
    ensures passes { ArePasses N.name passes.new }
    ensures moved { (caller : ℕ) (old new : PassView) → slice_get passes.old caller ≡ Some old → slice_get passes.new caller ≡ Some new
        → IsMoved old new × (new.left + (if nat_eq caller teller then 1 else 0) ≡ old.left) }
    ensures heard { (told heard : PassView) → slice_get passes.old teller ≡ Some told → slice_get passes.new hearer ≡ Some heard
        → All (λ said. said.version ≤ length (seen_by heard)) (own_by told) }
{
    passes[teller].facts();
    let note = space.tell(&mut passes[teller]);
    space.hear(&mut passes[hearer], note);
}
