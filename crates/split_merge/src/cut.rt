ghost use Rattle.std.specs.Prelude.{◌≡◌, ◌<◌, ◌≤◌, ◌+◌, ◌*◌};
ghost use Rattle.area_list.specs.Changes.{cut};
ghost use Rattle.split_merge.specs.Plans.{Makes, IsLocal, IsPlannedFor, IsFreshPlan};

use crate::areas::Areas;
use crate::becoming::Becoming;
use crate::plan::Plan;
use crate::walk::plan_changes;
use mm_types::Span;

/// Plans that no area keeps a page of the span.
pub fn plan_cut<A: Areas>(areas: &A, span: Span, plan: &mut Plan)
    requires list { IsPlannedFor (A.bounds areas.now) (A.most areas.now) (A.list areas.now) }
    requires some_pages { span.lo < span.hi }
    requires within { span.hi ≤ (A.bounds areas.now).limit }
    requires fresh { IsFreshPlan (A.most areas.now) plan.old }
    ensures makes { Makes plan.new.changes (A.list areas.now) (cut span (A.list areas.now)) }
    ensures local { IsLocal span (A.list areas.now) plan.new.changes }
    ensures room { plan.new.room ≡ plan.old.room }
{
    let becoming = Becoming::Outside {
        low: span,
        high: span,
    };
    plan_changes(areas, &becoming, None, plan);
}
