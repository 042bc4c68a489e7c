//! Page faults over a list of areas: the verdict, and the growth of an area as a plan.
ghost use Rattle.std.specs.Prelude.{◌≡◌, ℕ, []};
ghost use Rattle.mm_types.specs.Config.{IsValidConfig};
ghost use Rattle.mm_types.specs.declared.call.Counters.{Counters};
ghost use Rattle.mm_types.specs.declared.call.Errno.{Errno};
ghost use Rattle.mm_types.specs.declared.area.Record.{Record};
ghost use Rattle.mm_types.specs.declared.call.Reply.TheVariants.{Grown, Refused};
ghost use Rattle.area_list.specs.Areas.{IsSound};
ghost use Rattle.area_list.specs.Areas.{IsCanonical};
ghost use Rattle.area_rules.specs.Growing.{AreGrowersPrivate, grows, touch};
ghost use Rattle.area_rules.specs.Verdicts.{unmapped_verdict, verdict};
ghost use Rattle.area_rules.specs.Tables.{space_of};
ghost use Rattle.split_merge.specs.Calls.{IsPrepared, IsPlannedCall};
ghost use Rattle.split_merge.specs.Plans.{IsOneAlter};

use area_rules::{area_verdict, grown_to, permits};
use mm_types::{Access, Config, Errno, Page, Record, Reply, Verdict};
use split_merge::{Areas, Plan, area_at, grower, plan_growth};

/// The verdict at a page that no area has, by the area that would grow into it.
fn unmapped_verdict(grower: Option<Record>) -> Verdict
    ensures { result ≡ unmapped_verdict grower }
{
    match grower {
        Some(_) => Verdict::AccErr,
        None => Verdict::MapErr,
    }
}

/// The verdict on a fault that grows no area. Two looks by page at most.
#[tactic(auto, unfolding(area_rules::specs::Verdicts::verdict))]
pub fn verdict<A: Areas>(config: &Config, areas: &A, page: Page, access: Access) -> Verdict
    requires canonical { IsCanonical (A.bounds areas.now).limit (A.list areas.now) }
    ensures { result ≡ verdict config.now (A.list areas.now) page.0 access }
{
    match area_at(areas, page.0) {
        Some(area) => area_verdict(config.files.items(), page.0, access, &area),
        None => unmapped_verdict(grower(config, areas, page.0)),
    }
}

/// Whether a fault grows an area: one grows into its page, and allows the access. One look by page.
#[tactic(auto, unfolding(area_rules::specs::Growing::grows))]
pub fn grows<A: Areas>(config: &Config, areas: &A, page: Page, access: Access) -> bool
    requires canonical { IsCanonical (A.bounds areas.now).limit (A.list areas.now) }
    ensures { result ≡ grows config.now (A.list areas.now) page.0 access }
{
    match grower(config, areas, page.0) {
        Some(area) => permits(area.attr.prot, access),
        None => false,
    }
}

/// A touch of a page, planned: where the area right above the page grows downwards and allows the access, it takes the page
/// (`MAP_GROWSDOWN` of mmap(2)). The reply and the list that the plan makes are those of its rule, and do not depend on the
/// counters. The plan is then one change, of this area. EFAULT where no area grows, and then the plan is empty. No memory is taken.
pub fn plan_touch<A: Areas>(
    config: &Config,
    areas: &A,
    page: Page,
    access: Access,
    plan: &mut Plan,
) -> Reply
    requires valid { IsValidConfig config.now }
    requires sound { IsSound config.now (A.list areas.now) }
    requires private { AreGrowersPrivate (A.list areas.now) }
    requires prepared { IsPrepared config.now (A.bounds areas.now) (A.most areas.now) plan.old }
    ensures planned { (counters : Counters) → IsPlannedCall (A.bounds areas.now) (A.most areas.now) (A.list areas.now)
        (touch config.now (space_of (A.list areas.now) counters) page.0 access) result plan.old plan.new }
    ensures altered { (area : Record) (index : ℕ) → result ≡ Grown area index → IsOneAlter plan.new.changes area }
    ensures refused { (errno : Errno) → result ≡ Refused errno → plan.new.changes ≡ [] }
{
    let Some(area) = grower(config, areas, page.0) else {
        return Reply::Refused(Errno::Efault);
    };
    if !permits(area.attr.prot, access) {
        return Reply::Refused(Errno::Efault);
    }
    plan_growth(areas, page.0, &area, plan);
    Reply::Grown {
        area: grown_to(page.0, &area),
        index: 0,
    }
}
