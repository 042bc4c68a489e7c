ghost use Rattle.std.specs.Prelude.{◌≡◌, ◌<◌, ◌≤◌};
ghost use Rattle.area_list.specs.Changes.{changed_list};
ghost use Rattle.area_list.specs.Laws.{AllMayBecome};
ghost use Rattle.split_merge.specs.Plans.{Makes, IsLocal, IsPlannedFor, IsFreshPlan};

use crate::areas::Areas;
use crate::becoming::Becoming;
use crate::plan::Plan;
use crate::walk::plan_changes;
use area_list::AttrChange;
use mm_types::Span;

/// Plans that the attributes of all mapped pages of the span change, which may change so.
pub fn plan_attributes<A: Areas>(areas: &A, span: Span, change: AttrChange, plan: &mut Plan)
    requires list { IsPlannedFor (A.bounds areas.now) (A.most areas.now) (A.list areas.now) }
    requires some_pages { span.lo < span.hi }
    requires within { span.hi ≤ (A.bounds areas.now).limit }
    requires fresh { IsFreshPlan (A.most areas.now) plan.old }
    requires may { AllMayBecome change span (A.list areas.now) }
    ensures makes { Makes plan.new.changes (A.list areas.now) (changed_list change span (A.list areas.now)) }
    ensures local { IsLocal span (A.list areas.now) plan.new.changes }
    ensures room { plan.new.room ≡ plan.old.room }
{
    plan_changes(areas, &Becoming::Changed { span, change }, None, plan);
}
