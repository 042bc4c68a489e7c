//! The call of mprotect(2) as a plan over a list of areas.
#![tactic(auto)]

ghost use Rattle.std.specs.Prelude.{◌≡◌, ◌<◌, ◌≤◌, ◌+◌, ◌*◌, ℕ, [], Some};
ghost use Rattle.mm_types.specs.declared.call.Counters.{Counters};
ghost use Rattle.mm_types.specs.declared.call.Reply.{Reply};
ghost use Rattle.mm_types.specs.Config.{IsValidConfig};
ghost use Rattle.area_list.specs.Areas.{IsSound, area_at};
ghost use Rattle.area_rules.specs.Mprotect.{stop_of, stop_error, protected_prefix, mprotect_unsealed_rows, mprotect_unsealed};
ghost use Rattle.area_rules.specs.Munmap.{range_of};
ghost use Rattle.area_rules.specs.Tables.{space_of};
ghost use Rattle.mm_types.specs.Rows.{first_row};
ghost use Rattle.split_merge.specs.Calls.{IsPrepared, IsPlannedCall};
ghost use Rattle.split_merge.specs.Plans.{IsLocal, Makes, IsPlannedFor, IsFreshPlan};

use area_list::page_of;
use area_rules::{mprotect_answer, range_of, stopped_reply};
use mm_types::{Config, Errno, Prot, Reply, Span};
use split_merge::{Areas, Plan, is_too_long, plan_protect};

/// Plans the protection on the pages of the range before the first that is not mapped or may not have it, and gives the
/// error there, if there is such a page. None is mapped from the page `limit` on.
fn plan_prefix<A: Areas>(
    areas: &A,
    limit: u64,
    range: Span,
    prot: Prot,
    plan: &mut Plan,
) -> Option<Errno>
    requires limit { limit ≡ (A.bounds areas.now).limit }
    requires list { IsPlannedFor (A.bounds areas.now) (A.most areas.now) (A.list areas.now) }
    requires some_pages { range.lo < range.hi }
    requires fresh { IsFreshPlan (A.most areas.now) plan.old }
    ensures error { let stop = stop_of prot range (A.list areas.now) in
        result ≡ stop_error range stop (area_at (A.list areas.now) stop) }
    ensures makes { Makes plan.new.changes (A.list areas.now) (protected_prefix prot range (A.list areas.now)) }
    ensures local { IsLocal range (A.list areas.now) plan.new.changes }
    ensures room { plan.new.room ≡ plan.old.room }
{
    if limit <= range.lo {
        return Some(Errno::Enomem);
    }
    let below = Span {
        hi: range.hi.min(limit),
        ..range
    };
    let error = plan_protect(areas, below, prot, plan);
    if limit < range.hi {
        return error.or(Some(Errno::Enomem));
    }
    error
}

/// One call of mprotect(2), planned. `addr` and `len` are in bytes. The reply and the list that the plan makes are those
/// of its table without the test of seals, which `guard` of sys_seal makes, and do not depend on the counters. Where the call stops
/// at a page that is not mapped (ENOMEM) or may not have the protection (EACCES), the plan has the new protection of the pages
/// before it; after every other refusal it is empty. No memory is taken.
#[tactic(auto, using(split_merge::proofs::Refusing::nothing_made, split_merge::proofs::Refusing::nothing_local, split_merge::proofs::Refusing::nothing_kept), unfolding(area_rules::specs::Mprotect::mprotect_unsealed, area_rules::specs::Mprotect::mprotect_unsealed_rows, area_rules::specs::Mprotect::protect_request_rows))]
pub fn plan_mprotect<A: Areas>(
    config: &Config,
    areas: &A,
    addr: u64,
    len: u64,
    prot: Prot,
    plan: &mut Plan,
) -> Reply
    requires valid { IsValidConfig config.now }
    requires sound { IsSound config.now (A.list areas.now) }
    requires prepared { IsPrepared config.now (A.bounds areas.now) (A.most areas.now) plan.old }
    ensures planned { (counters : Counters) → IsPlannedCall (A.bounds areas.now) (A.most areas.now) (A.list areas.now)
        (mprotect_unsealed config.now (space_of (A.list areas.now) counters) addr len prot) result plan.old plan.new }
    ensures local { IsLocal (range_of addr len) (A.list areas.now) plan.new.changes }
    ensures early { (reply : Reply) → first_row (mprotect_unsealed_rows config.now (A.list areas.now) addr len prot) ≡ Some reply
        → plan.new.changes ≡ [] }
{
    if let Some(reply) = mprotect_answer(addr, len) {
        return reply;
    }
    let limit = page_of(config.limit);
    let error = plan_prefix(areas, limit, range_of(addr, len), prot, plan);
    if is_too_long(config.areas, areas, plan) {
        plan.clear();
        return Reply::Refused(Errno::Enomem);
    }
    stopped_reply(error)
}
