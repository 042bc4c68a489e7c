ghost use Rattle.std.specs.Prelude.{◌≡◌, ◌<◌, ◌≤◌};
ghost use Rattle.area_list.specs.Areas.{area_at};
ghost use Rattle.area_rules.specs.Mprotect.{stop_of, stop_error, protected_prefix};
ghost use Rattle.split_merge.specs.Plans.{Makes, IsLocal, IsPlannedFor, IsFreshPlan};

use crate::areas::Areas;
use crate::becoming::Becoming;
use crate::plan::Plan;
use crate::stops::stop_of;
use crate::walk::plan_changes;
use area_list::AttrChange;
use mm_types::{Errno, Prot, Span};

/// Plans that the pages of the span have the protection, up to the first page that is not mapped or may not have it.
/// Says why it stops before the span's end: ENOMEM where the page is not mapped, EACCES where it may not have the
/// protection (mprotect(2)).
pub fn plan_protect<A: Areas>(areas: &A, span: Span, prot: Prot, plan: &mut Plan) -> Option<Errno>
    requires list { IsPlannedFor (A.bounds areas.now) (A.most areas.now) (A.list areas.now) }
    requires some_pages { span.lo < span.hi }
    requires within { span.hi ≤ (A.bounds areas.now).limit }
    requires fresh { IsFreshPlan (A.most areas.now) plan.old }
    ensures error { let stop = stop_of prot span (A.list areas.now) in result ≡ stop_error span stop (area_at (A.list areas.now) stop) }
    ensures makes { Makes plan.new.changes (A.list areas.now) (protected_prefix prot span (A.list areas.now)) }
    ensures local { IsLocal span (A.list areas.now) plan.new.changes }
    ensures room { plan.new.room ≡ plan.old.room }
{
    let stop = stop_of(areas, span, prot);
    let prefix = Span {
        hi: stop.page,
        ..span
    };
    let becoming = Becoming::Changed {
        span: prefix,
        change: AttrChange::Protection(prot),
    };
    plan_changes(areas, &becoming, None, plan);
    stop.error
}
