//! A fault that grows an area, as one call on a list of areas.
ghost use Rattle.std.specs.Prelude.{◌≡◌, IfOk};
ghost use Rattle.area_rules.specs.Growing.{touch};
ghost use Rattle.area_rules.specs.Tables.{space_of};
ghost use Rattle.area_model.specs.Stepped.{outcome_of};

use crate::growing::{grower, grown_list};
use crate::step::Stepped;
use crate::tables::refused;
use area_rules::{grown_to, permits};
use mm_types::{Access, AreaList, Config, Counters, Errno, NoMemory, Record, Reply};
use std::alloc::Global;

/// One touch of a page: the area above it grows into it, and any other touch is refused and changes nothing.
#[tactic(auto, unfolding(area_rules::specs::Growing::touch, area_rules::specs::Growing::grows))]
pub(crate) fn touch(
    alloc: Global,
    config: &Config,
    counters: Counters,
    areas: &[Record],
    page: u64,
    access: Access,
) -> Result<Stepped, NoMemory>
    ensures { IfOk result
        (λ stepped. outcome_of stepped ≡ touch config.now (space_of areas.now counters) page access) }
{
    let Some(area) = grower(config, areas, page) else {
        return refused(alloc, counters, areas, Errno::Efault);
    };
    if !permits(area.attr.prot, access) {
        return refused(alloc, counters, areas, Errno::Efault);
    }
    Ok(Stepped {
        list: AreaList::of(grown_list(alloc, page, areas)?),
        counters,
        reply: Reply::Grown {
            area: grown_to(page, &area),
            index: 0,
        },
    })
}
