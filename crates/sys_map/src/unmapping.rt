//! munmap(2) as a plan.
ghost use Rattle.std.specs.Prelude.{◌≡◌, []};
ghost use Rattle.mm_types.specs.declared.call.Counters.{Counters};
ghost use Rattle.mm_types.specs.Config.{IsValidConfig};
ghost use Rattle.mm_types.specs.declared.call.Errno.{Errno};
ghost use Rattle.mm_types.specs.declared.call.Reply.TheVariants.{Refused};
ghost use Rattle.area_list.specs.Areas.{IsSound};
ghost use Rattle.area_rules.specs.Munmap.{range_of, munmap_unsealed};
ghost use Rattle.area_rules.specs.Tables.{space_of};
ghost use Rattle.split_merge.specs.Calls.{IsPrepared, IsPlannedCall};
ghost use Rattle.split_merge.specs.Plans.{IsLocal};

use area_rules::{end_of, is_aligned, range_of};
use mm_types::{Config, Errno, Reply};
use split_merge::{Areas, Plan, is_too_long, plan_cut};

/// One call of munmap(2), planned. `addr` and `len` are in bytes. The reply and the list that the plan makes are those
/// of its table without the test of seals, which `guard` of sys_seal makes, and do not depend on the counters. After a refusal the
/// plan is empty. No memory is taken.
#[tactic(auto, using(split_merge::proofs::Refusing::nothing_made, split_merge::proofs::Refusing::nothing_local, split_merge::proofs::Refusing::nothing_kept), unfolding(area_rules::specs::Munmap::munmap_unsealed, area_rules::specs::Munmap::munmap_rows))]
pub fn plan_munmap<A: Areas>(
    config: &Config,
    areas: &A,
    addr: u64,
    len: u64,
    plan: &mut Plan,
) -> Reply
    requires valid { IsValidConfig config.now }
    requires sound { IsSound config.now (A.list areas.now) }
    requires prepared { IsPrepared config.now (A.bounds areas.now) (A.most areas.now) plan.old }
    ensures planned { (counters : Counters) → IsPlannedCall (A.bounds areas.now) (A.most areas.now) (A.list areas.now)
        (munmap_unsealed config.now (space_of (A.list areas.now) counters) addr len) result plan.old plan.new }
    ensures local { IsLocal (range_of addr len) (A.list areas.now) plan.new.changes }
    ensures refused { (errno : Errno) → result ≡ Refused errno → plan.new.changes ≡ [] }
{
    if !is_aligned(addr) {
        return Reply::Refused(Errno::Einval);
    }
    if len == 0 {
        return Reply::Refused(Errno::Einval);
    }
    if u128::from(config.limit) < end_of(addr, len) {
        return Reply::Refused(Errno::Einval);
    }
    plan_cut(areas, range_of(addr, len), plan);
    if is_too_long(config.areas, areas, plan) {
        plan.clear();
        return Reply::Refused(Errno::Enomem);
    }
    Reply::Zero
}
