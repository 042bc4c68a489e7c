//! mremap(2) as a plan.
ghost use Rattle.std.specs.Prelude.{◌≡◌, ℕ, []};
ghost use Rattle.mm_types.specs.declared.call.Counters.{Counters};
ghost use Rattle.mm_types.specs.declared.call.Errno.{Errno};
ghost use Rattle.mm_types.specs.declared.call.Reply.TheVariants.{Addr, Refused};
ghost use Rattle.mm_types.specs.Config.{IsValidConfig};
ghost use Rattle.area_list.specs.Areas.{IsSound};
ghost use Rattle.area_rules.specs.Mremap.{mremap_args, mremap_unsealed};
ghost use Rattle.area_rules.specs.Munmap.{range_of};
ghost use Rattle.area_rules.specs.Tables.{space_of};
ghost use Rattle.split_merge.specs.Calls.{IsPrepared, IsPlannedCall};
ghost use Rattle.split_merge.specs.Plans.{IsLocalToEither};

use crate::plan_cases::plan_change;
use crate::refusal::old_area;
use area_rules::MremapArgs;
use mm_types::{Config, Errno, PAGE_SIZE, Reply};
use split_merge::{Areas, Plan, is_too_long};

/// One call of mremap(2), planned. Addresses and lengths are in bytes. The reply and the list that the plan makes are
/// those of its table without the test of seals, which `guard` of sys_seal makes, and do not depend on the counters. After a
/// refusal the plan is empty. No memory is taken.
pub fn plan_mremap<A: Areas>(
    config: &Config,
    areas: &A,
    old: u64,
    old_len: u64,
    new_len: u64,
    flags: u32,
    new: u64,
    plan: &mut Plan,
) -> Reply
    requires valid { IsValidConfig config.now }
    requires sound { IsSound config.now (A.list areas.now) }
    requires prepared { IsPrepared config.now (A.bounds areas.now) (A.most areas.now) plan.old }
    ensures planned { (counters : Counters) → IsPlannedCall (A.bounds areas.now) (A.most areas.now) (A.list areas.now)
        (mremap_unsealed config.now (space_of (A.list areas.now) counters) (mremap_args old old_len new_len flags new))
        result plan.old plan.new }
    ensures local { (addr : ℕ) → result ≡ Addr addr
        → IsLocalToEither (range_of old old_len) (range_of addr new_len) (A.list areas.now) plan.new.changes }
    ensures refused { (errno : Errno) → result ≡ Refused errno → plan.new.changes ≡ [] }
{
    let args = MremapArgs::of(old, old_len, new_len, flags, new);
    let area = match old_area(config, areas, &args) {
        Ok(area) => area,
        Err(errno) => return Reply::Refused(errno),
    };
    let Some(page) = plan_change(config, areas, &area, &args, plan) else {
        return Reply::Refused(Errno::Enomem);
    };
    if is_too_long(config.areas, areas, plan) {
        plan.clear();
        return Reply::Refused(Errno::Enomem);
    }
    Reply::Addr(PAGE_SIZE * page)
}
