//! munmap(2): the tests of its table in their order, and the unmapping itself.
ghost use Rattle.std.specs.Prelude.{◌≡◌, IfOk};
ghost use Rattle.area_rules.specs.Munmap.{munmap_unsealed};
ghost use Rattle.area_rules.specs.Tables.{space_of};
ghost use Rattle.area_model.specs.Stepped.{outcome_of};
ghost use Rattle.area_rules.specs.Steps.{IsReady};

use crate::step::Stepped;
use crate::tables::{has_too_many_areas, refused};
use area_list::cut;
use area_rules::{end_of, is_aligned, range_of};
use mm_types::{AreaList, Config, Counters, Errno, NoMemory, Record, Reply};
use std::alloc::Global;

/// One call of munmap(2) on a list of areas.
#[tactic(auto, using(area_list::proofs::SmallNumbers::all_small), unfolding(area_rules::specs::Munmap::munmap_unsealed, area_rules::specs::Munmap::munmap_rows))]
pub(crate) fn munmap(
    alloc: Global,
    config: &Config,
    counters: Counters,
    areas: &[Record],
    addr: u64,
    len: u64,
) -> Result<Stepped, NoMemory>
    requires { IsReady config.now (space_of areas.now counters) }
    ensures { IfOk result
        (λ stepped. outcome_of stepped ≡ munmap_unsealed config.now (space_of areas.now counters) addr len) }
{
    if !is_aligned(addr) {
        return refused(alloc, counters, areas, Errno::Einval);
    }
    if len == 0 {
        return refused(alloc, counters, areas, Errno::Einval);
    }
    if u128::from(config.limit) < end_of(addr, len) {
        return refused(alloc, counters, areas, Errno::Einval);
    }
    let left = cut(alloc, range_of(addr, len), areas)?;
    if has_too_many_areas(config, left.as_slice()) {
        return refused(alloc, counters, areas, Errno::Enomem);
    }
    Ok(Stepped {
        list: AreaList::of(left),
        counters,
        reply: Reply::Zero,
    })
}
