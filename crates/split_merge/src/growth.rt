ghost use Rattle.std.specs.Prelude.{◌≡◌, ◌∷◌, [], Some};
ghost use Rattle.mm_types.specs.declared.config.Config.{Config};
ghost use Rattle.area_list.specs.Areas.{IsCanonical};
ghost use Rattle.area_rules.specs.Growing.{grower, grown_to, grown_list};
ghost use Rattle.split_merge.specs.declared.plan.Change.TheVariants.{Alter};
ghost use Rattle.split_merge.specs.Plans.{Makes, IsFreshPlan};

use crate::areas::Areas;
use crate::plan::{Change, Plan};
use area_rules::grown_to;
use mm_types::Record;

/// Plans that the area grows into the page: one change.
pub fn plan_growth<A: Areas>(areas: &A, page: u64, old: &Record, plan: &mut Plan)
    requires canonical { IsCanonical (A.bounds areas.now).limit (A.list areas.now) }
    requires grower { (config : Config) × (grower config (A.list areas.now) page ≡ Some old.now) }
    requires fresh { IsFreshPlan (A.most areas.now) plan.old }
    ensures makes { Makes plan.new.changes (A.list areas.now) (grown_list page (A.list areas.now)) }
    ensures altered { plan.new.changes ≡ Alter old.now (grown_to page old.now) ∷ [] }
    ensures room { plan.new.room ≡ plan.old.room }
{
    let new = grown_to(page, old);
    plan.push(Change::Alter { old: *old, new });
}
