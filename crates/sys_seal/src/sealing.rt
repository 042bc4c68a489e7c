//! mseal(2) as a plan.
ghost use Rattle.std.specs.Prelude.{◌≡◌, []};
ghost use Rattle.mm_types.specs.Config.{IsValidConfig};
ghost use Rattle.mm_types.specs.declared.call.Counters.{Counters};
ghost use Rattle.mm_types.specs.declared.call.Errno.{Errno};
ghost use Rattle.mm_types.specs.declared.call.Reply.TheVariants.{Refused};
ghost use Rattle.area_list.specs.Areas.{IsSound};
ghost use Rattle.area_rules.specs.Mseal.{mseal};
ghost use Rattle.area_rules.specs.Munmap.{range_of};
ghost use Rattle.area_rules.specs.Tables.{space_of};
ghost use Rattle.split_merge.specs.Calls.{IsPrepared, IsPlannedCall};
ghost use Rattle.split_merge.specs.Plans.{IsLocal};

use area_list::AttrChange;
use area_rules::{mseal_answer, range_of};
use mm_types::{Config, Errno, Reply};
use split_merge::{Areas, Plan, has_hole, is_too_long, plan_attributes};

/// One call of mseal(2), planned. `addr` and `len` are in bytes. EINVAL where a flag is set, the address is not aligned, or the range
/// ends past 2^64; ENOMEM where a page of the range is not mapped, or too many areas would be left; no error for an empty range.
/// The reply and the list that the plan makes are those of its table, and do not depend on the counters. After a refusal the plan
/// is empty. No memory is taken.
pub fn plan_seal<A: Areas>(
    config: &Config,
    areas: &A,
    addr: u64,
    len: u64,
    flags: u64,
    plan: &mut Plan,
) -> Reply
    requires valid { IsValidConfig config.now }
    requires sound { IsSound config.now (A.list areas.now) }
    requires prepared { IsPrepared config.now (A.bounds areas.now) (A.most areas.now) plan.old }
    ensures planned { (counters : Counters) → IsPlannedCall (A.bounds areas.now) (A.most areas.now) (A.list areas.now)
        (mseal config.now (space_of (A.list areas.now) counters) addr len flags) result plan.old plan.new }
    ensures local { IsLocal (range_of addr len) (A.list areas.now) plan.new.changes }
    ensures refused { (errno : Errno) → result ≡ Refused errno → plan.new.changes ≡ [] }
{
    if let Some(reply) = mseal_answer(addr, len, flags) {
        return reply;
    }
    let range = range_of(addr, len);
    if has_hole(areas, range) {
        return Reply::Refused(Errno::Enomem);
    }
    plan_attributes(areas, range, AttrChange::Seal, plan);
    if is_too_long(config.areas, areas, plan) {
        plan.clear();
        return Reply::Refused(Errno::Enomem);
    }
    Reply::Zero
}
