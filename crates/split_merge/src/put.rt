ghost use Rattle.std.specs.Prelude.{◌≡◌, ◌≤◌};
ghost use Rattle.mm_types.specs.Records.{IsValid};
ghost use Rattle.area_list.specs.Changes.{put};
ghost use Rattle.split_merge.specs.Plans.{Makes, IsLocal, IsPlannedFor, IsFreshPlan};

use crate::areas::Areas;
use crate::becoming::Becoming;
use crate::plan::Plan;
use crate::walk::plan_changes;
use mm_types::Record;

/// Plans that the area lies over what was there, as one with the neighbours that join it. The joined area takes the place
/// of an old one that has some of its pages, if one has.
pub fn plan_put<A: Areas>(areas: &A, area: Record, plan: &mut Plan)
    requires list { IsPlannedFor (A.bounds areas.now) (A.most areas.now) (A.list areas.now) }
    requires valid { IsValid area }
    requires within { area.span.hi ≤ (A.bounds areas.now).limit }
    requires fresh { IsFreshPlan (A.most areas.now) plan.old }
    ensures makes { Makes plan.new.changes (A.list areas.now) (put area (A.list areas.now)) }
    ensures local { IsLocal area.span (A.list areas.now) plan.new.changes }
    ensures room { plan.new.room ≡ plan.old.room }
{
    let becoming = Becoming::Outside {
        low: area.span,
        high: area.span,
    };
    plan_changes(areas, &becoming, Some(area), plan);
}
