//! Where a step may be taken.
ghost use Rattle.std.specs.Prelude.{◌≡◌, ◌≤◌, ◌↔◌, All, IsTrue};
ghost use Rattle.area_rules.specs.Growing.{AreGrowersPrivate};
ghost use Rattle.area_rules.specs.Tables.{space_of};
ghost use Rattle.area_rules.specs.Steps.{IsReady};

use area_list::sound;
use mm_types::{AreaList, Config, Counters, Record};

/// Whether each area's object is at most this number.
fn are_counted(objects: u32, areas: &[Record]) -> bool
    ensures { IsTrue result ↔ All (λ area. area.object ≤ objects) areas.now }
{
    areas.iter().all(|area| area.object <= objects)
}

/// Whether what may grow is private anonymous memory.
fn are_growers_private(areas: &[Record]) -> bool
    ensures { IsTrue result ↔ AreGrowersPrivate areas.now }
{
    areas
        .iter()
        .all(|area| !area.attr.grows || area.object == 0)
}

/// Whether a step may be taken: the configuration is valid, the list is sound, no object is above the counter, one more can
/// be counted, what may grow is private anonymous memory, and the break lies at or below the limit.
pub fn is_ready(config: &Config, counters: Counters, list: &AreaList) -> bool
    ensures { IsTrue result ↔ IsReady config.now (space_of list.now counters) }
{
    config.valid()
        && sound(config, list)
        && are_counted(counters.objects, list.items())
        && counters.objects < u32::MAX
        && are_growers_private(list.items())
        && counters.brk <= config.limit
}
