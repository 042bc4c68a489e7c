//! What the slow calls have in common.
ghost use Rattle.std.specs.Prelude.{◌≡◌, IfOk};
ghost use Rattle.area_rules.specs.Tables.{space_of, has_too_many_areas};
ghost use Rattle.area_model.specs.Stepped.{outcome_of};

use crate::step::Stepped;
use mm_types::{AreaList, Config, Counters, Errno, NoMemory, Record, Reply};
use std::alloc::Global;

/// Whether a list has more areas than are allowed.
pub(crate) fn has_too_many_areas(config: &Config, areas: &[Record]) -> bool
    ensures { result ≡ has_too_many_areas config.now areas.now }
{
    let most = config.areas;
    areas.len() > most as usize
}

/// A reply that leaves the list and the counters as they were.
pub(crate) fn unchanged(
    alloc: Global,
    counters: Counters,
    areas: &[Record],
    reply: Reply,
) -> Result<Stepped, NoMemory>
    ensures { IfOk result
        (λ stepped. outcome_of stepped ≡ record { space = space_of areas.now counters; reply = reply }) }
{
    Ok(Stepped {
        list: AreaList::of(Vec::from_slice(alloc, areas)?),
        counters,
        reply,
    })
}

/// A refusal, which leaves them as they were.
pub(crate) fn refused(
    alloc: Global,
    counters: Counters,
    areas: &[Record],
    errno: Errno,
) -> Result<Stepped, NoMemory>
    ensures { IfOk result (λ stepped.
        outcome_of stepped ≡ record { space = space_of areas.now counters; reply = Reply.Refused errno }) }
{
    unchanged(alloc, counters, areas, Reply::Refused(errno))
}
