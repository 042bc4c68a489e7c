//! The call of brk(2) as a plan over a list of areas.
#![tactic(auto)]

ghost use Rattle.std.specs.Prelude.{◌≡◌, ◌≤◌, ◌<◌, ◌||◌, false, nat_eq, nat_lt, [], if◌then◌else◌};
ghost use Rattle.mm_types.specs.Config.{IsValidConfig};
ghost use Rattle.mm_types.specs.declared.call.Counters.{Counters};
ghost use Rattle.mm_types.specs.declared.call.Reply.TheVariants.{Addr};
ghost use Rattle.area_list.specs.Areas.{IsSound, page_of};
ghost use Rattle.area_rules.specs.Brk.{brk, has_room_above, pages_between};
ghost use Rattle.area_rules.specs.Tables.{pages_of, space_of, has_too_many_areas};
ghost use Rattle.split_merge.specs.Calls.{IsPrepared, IsPlannedCall};
ghost use Rattle.split_merge.specs.Plans.{applied, IsPlanOf, IsLocal};

use area_list::page_of;
use area_rules::{heap_area, is_below_heap, pages_between, pages_of};
use mm_types::{Config, Reply};
use split_merge::{Areas, Plan, has_sealed, is_free, is_too_long, plan_cut, plan_put};

/// Whether the pages that a higher break takes, and one more, are free and end at or below the limit.
#[tactic(auto, unfolding(area_rules::specs::Brk::has_room_above))]
fn has_room_above<A: Areas>(config: &Config, old_break: u64, areas: &A, addr: u64) -> bool
    requires sound { IsSound config.now (A.list areas.now) }
    requires limit { (A.bounds areas.now).limit ≡ page_of config.now.limit }
    requires raised { pages_of old_break < pages_of addr }
    ensures { (counters : Counters) → counters.brk ≡ old_break
        → result ≡ has_room_above config.now (space_of (A.list areas.now) counters) addr }
{
    let taken = pages_between(old_break, addr);
    taken.hi < page_of(config.limit) && is_free(areas, taken.hi + 1 - taken.lo, taken.lo)
}

/// Answers the break that is asked for, and where the planned list would have too many areas, the one before it with an empty plan.
fn settle_break<A: Areas>(
    config: &Config,
    old_break: u64,
    areas: &A,
    addr: u64,
    plan: &mut Plan,
) -> Reply
    requires sound { IsSound config.now (A.list areas.now) }
    requires limit { (A.bounds areas.now).limit ≡ page_of config.now.limit }
    requires plan { IsPlanOf (A.list areas.now) plan.old.changes }
    ensures reply { let long = has_too_many_areas config.now (applied plan.old.changes (A.list areas.now)) in
        result ≡ Addr (if long then old_break else addr) }
    ensures changes { let long = has_too_many_areas config.now (applied plan.old.changes (A.list areas.now)) in
        plan.new.changes ≡ (if long then [] else plan.old.changes) }
    ensures room { plan.new.room ≡ plan.old.room }
{
    if is_too_long(config.areas, areas, plan) {
        plan.clear();
        return Reply::Addr(old_break);
    }
    Reply::Addr(addr)
}

/// Lowers the break: the pages that it gives back are unmapped, unless one of them is sealed or too many areas would be left.
fn plan_lower<A: Areas>(
    config: &Config,
    old_break: u64,
    areas: &A,
    addr: u64,
    plan: &mut Plan,
) -> Reply
    requires valid { IsValidConfig config.now }
    requires sound { IsSound config.now (A.list areas.now) }
    requires prepared { IsPrepared config.now (A.bounds areas.now) (A.most areas.now) plan.old }
    requires bounded { old_break ≤ config.now.limit }
    requires heap { (nat_eq config.now.heap 0 || nat_lt addr config.now.heap) ≡ false }
    requires lowered { pages_of addr < pages_of old_break }
    ensures planned { (counters : Counters) → counters.brk ≡ old_break
        → IsPlannedCall (A.bounds areas.now) (A.most areas.now) (A.list areas.now)
        (brk config.now (space_of (A.list areas.now) counters) addr) result plan.old plan.new }
    ensures kept { result ≡ Addr old_break → plan.new.changes ≡ [] }
    ensures local { IsLocal (pages_between addr old_break) (A.list areas.now) plan.new.changes }
{
    let range = pages_between(addr, old_break);
    if has_sealed(areas, range) {
        return Reply::Addr(old_break);
    }
    plan_cut(areas, range, plan);
    settle_break(config, old_break, areas, addr, plan)
}

/// Raises the break: the pages that it takes are mapped, unless there is no room for them and one more, or there would be too many
/// areas.
fn plan_raise<A: Areas>(
    config: &Config,
    old_break: u64,
    areas: &A,
    addr: u64,
    plan: &mut Plan,
) -> Reply
    requires valid { IsValidConfig config.now }
    requires sound { IsSound config.now (A.list areas.now) }
    requires prepared { IsPrepared config.now (A.bounds areas.now) (A.most areas.now) plan.old }
    requires heap { (nat_eq config.now.heap 0 || nat_lt addr config.now.heap) ≡ false }
    requires raised { pages_of old_break < pages_of addr }
    ensures planned { (counters : Counters) → counters.brk ≡ old_break
        → IsPlannedCall (A.bounds areas.now) (A.most areas.now) (A.list areas.now)
        (brk config.now (space_of (A.list areas.now) counters) addr) result plan.old plan.new }
    ensures kept { result ≡ Addr old_break → plan.new.changes ≡ [] }
    ensures local { IsLocal (pages_between old_break addr) (A.list areas.now) plan.new.changes }
{
    if !has_room_above(config, old_break, areas, addr) {
        return Reply::Addr(old_break);
    }
    let taken = heap_area(pages_between(old_break, addr));
    plan_put(areas, taken, plan);
    settle_break(config, old_break, areas, addr, plan)
}

/// One call of brk(2), planned. `old_break` is the break before it, and `addr` the one that is asked for, both in bytes. The reply is the
/// break after the call, as the kernel's is, and never an error. It and the list that the plan makes are those of the table, and
/// do not depend on the counter of objects. Where the break stays, the plan is empty; else it changes only areas near
/// the pages between the two breaks. No memory is taken.
#[tactic(auto, using(split_merge::proofs::Refusing::nothing_local))]
pub fn plan_brk<A: Areas>(
    config: &Config,
    old_break: u64,
    areas: &A,
    addr: u64,
    plan: &mut Plan,
) -> Reply
    requires valid { IsValidConfig config.now }
    requires sound { IsSound config.now (A.list areas.now) }
    requires prepared { IsPrepared config.now (A.bounds areas.now) (A.most areas.now) plan.old }
    requires bounded { old_break ≤ config.now.limit }
    ensures planned { (counters : Counters) → counters.brk ≡ old_break
        → IsPlannedCall (A.bounds areas.now) (A.most areas.now) (A.list areas.now)
        (brk config.now (space_of (A.list areas.now) counters) addr) result plan.old plan.new }
    ensures moved { (counters : Counters) → counters.brk ≡ old_break
        → result ≡ Addr (brk config.now (space_of (A.list areas.now) counters) addr).space.brk }
    ensures kept { result ≡ Addr old_break → plan.new.changes ≡ [] }
    ensures lowered { addr ≤ old_break → IsLocal (pages_between addr old_break) (A.list areas.now) plan.new.changes }
    ensures raised { old_break ≤ addr → IsLocal (pages_between old_break addr) (A.list areas.now) plan.new.changes }
{
    if is_below_heap(config, addr) {
        return Reply::Addr(old_break);
    }
    let (old, new) = (pages_of(old_break), pages_of(addr));
    if new == old {
        return Reply::Addr(addr);
    }
    if new < old {
        plan_lower(config, old_break, areas, addr, plan)
    } else {
        plan_raise(config, old_break, areas, addr, plan)
    }
}
