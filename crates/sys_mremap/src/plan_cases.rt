//! The cases of mremap(2) as plans: a move, growth in place, and shrinking in place.
ghost use Rattle.std.specs.Prelude.{◌≡◌, ◌<◌, ◌≤◌, ◌^◌, true, IfSome};
ghost use Rattle.area_list.specs.Areas.{page_of};
ghost use Rattle.area_rules.specs.Mremap.{old_range, lengthens, shrunk_list, lengthened_list, has_room, mremap_change};
ghost use Rattle.split_merge.specs.Plans.{IsPlannedFor, IsFreshPlan};
ghost use Rattle.sys_mremap.specs.Internal.Cases.{IsAdmitted, goes_elsewhere, MakesAt, PlansChange};

use crate::destination::{goes_elsewhere, other_place};
use area_list::page_of;
use area_rules::{MremapArgs, added_range, carried_area, lengthens, old_range, pages_of};
use mm_types::{Config, Record, Span};
use split_merge::{Areas, Plan, plan_cut, plan_move, plan_put};

/// Plans that the area moves to another place, if there is one, and answers the page where it begins there.
fn plan_elsewhere<A: Areas>(
    config: &Config,
    areas: &A,
    area: &Record,
    args: &MremapArgs,
    plan: &mut Plan,
) -> Option<u64>
    requires admitted { IsAdmitted config.now (A.bounds areas.now) (A.most areas.now) (A.list areas.now) args.now area.now }
    requires elsewhere { goes_elsewhere config.now (A.list areas.now) args.now ≡ true }
    requires fresh { IsFreshPlan (A.most areas.now) plan.old }
    ensures change { PlansChange args.now plan.new.changes (A.list areas.now) (mremap_change config.now (A.list areas.now) area.now args.now) result }
    ensures low { IfSome result (λ page. page < 2 ^ 52) }
    ensures room { plan.new.room ≡ plan.old.room }
{
    let start = other_place(config, areas, args)?;
    let span = Span {
        lo: start,
        hi: start + pages_of(args.new_len),
    };
    let moved = carried_area(area, page_of(args.old), span);
    plan_move(areas, moved, old_range(args), plan);
    Some(start)
}

/// Plans that the area runs on after the old range, up to the new length.
fn plan_longer<A: Areas>(
    config: &Config,
    areas: &A,
    area: &Record,
    args: &MremapArgs,
    plan: &mut Plan,
)
    requires admitted { IsAdmitted config.now (A.bounds areas.now) (A.most areas.now) (A.list areas.now) args.now area.now }
    requires longer { lengthens args.now ≡ true }
    requires has_room { has_room config.now (A.list areas.now) args.now ≡ true }
    requires fresh { IsFreshPlan (A.most areas.now) plan.old }
    ensures made { MakesAt (page_of args.now.old) args.now plan.new.changes (A.list areas.now) (lengthened_list (A.list areas.now) area.now args.now) }
    ensures room { plan.new.room ≡ plan.old.room }
{
    let added = added_range(args);
    plan_put(areas, carried_area(area, added.lo, added), plan);
}

/// Plans that nothing of the old range is left past the new length.
fn plan_shrinking<A: Areas>(areas: &A, args: &MremapArgs, plan: &mut Plan)
    requires list { IsPlannedFor (A.bounds areas.now) (A.most areas.now) (A.list areas.now) }
    requires within { (old_range args.now).hi ≤ (A.bounds areas.now).limit }
    requires fresh { IsFreshPlan (A.most areas.now) plan.old }
    ensures made { MakesAt (page_of args.now.old) args.now plan.new.changes (A.list areas.now) (shrunk_list (A.list areas.now) args.now) }
    ensures room { plan.new.room ≡ plan.old.room }
{
    let first = page_of(args.old);
    let rest = Span {
        lo: first + pages_of(args.new_len),
        hi: first + pages_of(args.old_len),
    };
    if rest.lo < rest.hi {
        plan_cut(areas, rest, plan);
    }
}

/// Plans the first case that there is: to another place, grown in place, or shrunk in place. Answers the page where
/// the range begins then, or nothing where there is no place for it.
pub(crate) fn plan_change<A: Areas>(
    config: &Config,
    areas: &A,
    area: &Record,
    args: &MremapArgs,
    plan: &mut Plan,
) -> Option<u64>
    requires admitted { IsAdmitted config.now (A.bounds areas.now) (A.most areas.now) (A.list areas.now) args.now area.now }
    requires fresh { IsFreshPlan (A.most areas.now) plan.old }
    ensures change { PlansChange args.now plan.new.changes (A.list areas.now) (mremap_change config.now (A.list areas.now) area.now args.now) result }
    ensures low { IfSome result (λ page. page < 2 ^ 52) }
    ensures room { plan.new.room ≡ plan.old.room }
{
    if goes_elsewhere(config, areas, args) {
        return plan_elsewhere(config, areas, area, args, plan);
    }
    if lengthens(args) {
        plan_longer(config, areas, area, args, plan);
    } else {
        plan_shrinking(areas, args, plan);
    }
    Some(page_of(args.old))
}
