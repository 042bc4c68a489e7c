//! Moves: an area is put at a new place, and the pages of a hole are unmapped.
ghost use Rattle.std.specs.Prelude.{◌≡◌, ◌<◌, ◌≤◌, false, if◌then◌else◌, nat_lt};
ghost use Rattle.mm_types.specs.Records.{IsValid};
ghost use Rattle.area_list.specs.Changes.{cut, put};
ghost use Rattle.area_list.specs.Areas.{overlap};
ghost use Rattle.split_merge.specs.Plans.{Makes, IsLocalToEither, IsPlannedFor, IsFreshPlan};

use crate::areas::Areas;
use crate::becoming::Becoming;
use crate::plan::Plan;
use crate::walk::plan_changes;
use mm_types::{Record, Span};

/// The two spans, the one that begins lower first.
fn in_order(a: Span, b: Span) -> (Span, Span)
    ensures { result ≡ (if nat_lt a.lo b.lo then (a, b) else (b, a)) }
{
    if a.lo < b.lo { (a, b) } else { (b, a) }
}

/// Plans that the area lies over what was there, as one with the neighbours that join it, and that no area keeps a page
/// of the hole, which shares no page with it: what mremap(2) does where it moves an area.
pub fn plan_move<A: Areas>(areas: &A, area: Record, hole: Span, plan: &mut Plan)
    requires list { IsPlannedFor (A.bounds areas.now) (A.most areas.now) (A.list areas.now) }
    requires valid { IsValid area }
    requires within { area.span.hi ≤ (A.bounds areas.now).limit }
    requires some_pages { hole.lo < hole.hi }
    requires beside { overlap hole area.span ≡ false }
    requires fresh { IsFreshPlan (A.most areas.now) plan.old }
    ensures makes { Makes plan.new.changes (A.list areas.now) (cut hole (put area (A.list areas.now))) }
    ensures local { IsLocalToEither hole area.span (A.list areas.now) plan.new.changes }
    ensures room { plan.new.room ≡ plan.old.room }
{
    let (low, high) = in_order(hole, area.span);
    let becoming = Becoming::Outside { low, high };
    plan_changes(areas, &becoming, Some(area), plan);
}
