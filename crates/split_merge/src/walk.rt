//! The walk of a plan along the areas of a list.
ghost use Rattle.std.specs.Prelude.{◌≡◌, ◌≤◌, ◌+◌, ◌*◌, ◌++◌, length};
ghost use Rattle.area_list.specs.Areas.{IsCanonical};
ghost use Rattle.split_merge.specs.Internal.Becoming.{lower_span, upper_span, AreSpansInOrder, BeginsOne};
ghost use Rattle.split_merge.specs.Internal.Planner.{all_planned};

use crate::areas::Areas;
use crate::becoming::Becoming;
use crate::plan::Plan;
use crate::planner::Planner;
use mm_types::{Page, Record};

/// Plans what becomes of the areas of a list, with at most one new area in its place, all joined as a canonical list has
/// them. It goes along the areas near the spans whose pages change, those that end where one begins or begin where one
/// ends too, since these may join. What lies between two spans it passes over: at most one area there is looked at.
pub(crate) fn plan_changes<A: Areas>(
    areas: &A,
    becoming: &Becoming,
    new: Option<Record>,
    plan: &mut Plan,
)
    requires canonical { IsCanonical (A.bounds areas.now).limit (A.list areas.now) }
    requires spans { AreSpansInOrder (lower_span becoming.now) (upper_span becoming.now) }
    requires new { BeginsOne becoming.now new }
    requires room { length plan.old.changes + (2 * length (A.list areas.now) + 3) ≤ plan.old.room }
    ensures { plan.new ≡ record plan.old { changes = plan.old.changes ++ all_planned becoming.now new (A.list areas.now) } }
{
    let low = becoming.low();
    let high = becoming.high();
    let mut planner = Planner::new(new);
    let mut page = low.lo.saturating_sub(1);
    while let Some(area) = areas.from(Page(page)) {
        if high.hi < area.span.lo {
            break;
        }
        if low.hi < area.span.lo && area.span.hi < high.lo {
            planner.pass(&area, plan);
            page = high.lo - 1;
        } else {
            planner.take(becoming, &area, plan);
            page = area.span.hi;
        }
    }
    planner.finish(plan);
}
