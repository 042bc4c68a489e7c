//! mmap(2) as a plan.
ghost use Rattle.std.specs.Prelude.{◌≡◌, ◌≤◌, ℕ, []};
ghost use Rattle.mm_types.specs.declared.call.Errno.{Errno};
ghost use Rattle.mm_types.specs.declared.call.Reply.TheVariants.{Addr, Refused};
ghost use Rattle.area_list.specs.Areas.{IsCanonical};
ghost use Rattle.area_rules.specs.Mmap.{start_of, mmap_unsealed};
ghost use Rattle.area_rules.specs.Munmap.{range_of};
ghost use Rattle.area_rules.specs.Placement.{bounds_of};
ghost use Rattle.area_rules.specs.Tables.{space_of, counters_of};
ghost use Rattle.area_rules.specs.Steps.{IsReady};
ghost use Rattle.split_merge.specs.Calls.{IsPrepared, IsPlannedCall};
ghost use Rattle.split_merge.specs.Plans.{IsLocal};

use crate::hint::place;
use crate::refusal::request_error;
use area_list::page_of;
use area_rules::{is_fixed, new_area, objects_numbered, pages_of};
use mm_types::{Config, Counters, Errno, MmapArgs, PAGE_SIZE, Reply};
use split_merge::{Areas, Plan, Planned, is_too_long, plan_put};

/// The page where the mapping begins, if it has a place.
#[tactic(auto, unfolding(area_rules::specs::Mmap::start_of))]
fn start_of<A: Areas>(config: &Config, areas: &A, args: &MmapArgs) -> Option<u64>
    requires canonical { IsCanonical (A.bounds areas.now).limit (A.list areas.now) }
    requires bounds { A.bounds areas.now ≡ bounds_of config.now }
    requires some_bytes { 1 ≤ args.now.len }
    ensures { result ≡ start_of config.now (A.list areas.now) args.now }
{
    if is_fixed(args) {
        Some(page_of(args.addr))
    } else {
        place(config, areas, pages_of(args.len), args.addr)
    }
}

/// One call of mmap(2), planned. `counters` are those before it. The reply, the counters and the list that the plan makes are
/// those of its table without the test of seals, which `guard` of sys_seal makes. After a refusal the plan is empty. No memory is
/// taken.
pub fn plan_mmap<A: Areas>(
    config: &Config,
    counters: Counters,
    areas: &A,
    args: &MmapArgs,
    plan: &mut Plan,
) -> Planned
    requires ready { IsReady config.now (space_of (A.list areas.now) counters) }
    requires prepared { IsPrepared config.now (A.bounds areas.now) (A.most areas.now) plan.old }
    ensures planned { IsPlannedCall (A.bounds areas.now) (A.most areas.now) (A.list areas.now)
        (mmap_unsealed config.now (space_of (A.list areas.now) counters) args.now) result.reply plan.old plan.new }
    ensures counters { result.counters ≡ counters_of (mmap_unsealed config.now (space_of (A.list areas.now) counters) args.now).space }
    ensures local { (addr : ℕ) → result.reply ≡ Addr addr → IsLocal (range_of addr args.now.len) (A.list areas.now) plan.new.changes }
    ensures refused { (errno : Errno) → result.reply ≡ Refused errno → plan.new.changes ≡ [] }
{
    if let Some(errno) = request_error(config, areas, args) {
        return refused(errno, counters);
    }
    let Some(start) = start_of(config, areas, args) else {
        return refused(Errno::Enomem, counters);
    };
    plan_put(areas, new_area(config, counters.objects, args, start), plan);
    if is_too_long(config.areas, areas, plan) {
        plan.clear();
        return refused(Errno::Enomem, counters);
    }
    Planned {
        reply: Reply::Addr(PAGE_SIZE * start),
        counters: Counters {
            objects: objects_numbered(counters.objects, args),
            ..counters
        },
    }
}

/// A refusal, which leaves the counters.
fn refused(errno: Errno, counters: Counters) -> Planned
    ensures { result ≡ record { reply = Refused errno; counters = counters } }
{
    Planned {
        reply: Reply::Refused(errno),
        counters,
    }
}
