//! mseal(2): the tests of its table in their order, and the seals themselves.
ghost use Rattle.std.specs.Prelude.{◌≡◌, ◌≤◌, All, IfOk};
ghost use Rattle.mm_types.specs.Records.{IsValid};
ghost use Rattle.area_list.specs.Areas.{Neighbours};
ghost use Rattle.area_rules.specs.Mseal.{has_hole, mseal};
ghost use Rattle.area_rules.specs.Tables.{space_of};
ghost use Rattle.area_model.specs.Stepped.{outcome_of};
ghost use Rattle.area_rules.specs.Steps.{IsReady};

use crate::step::Stepped;
use crate::tables::{has_too_many_areas, refused, unchanged};
use area_list::{AttrChange, area_at, changed_list};
use area_rules::{mseal_answer, range_of};
use mm_types::{AreaList, Config, Counters, Errno, NoMemory, Record, Reply, Span};
use std::alloc::Global;

/// Whether a page of the span is not mapped.
fn has_hole(span: Span, areas: &[Record]) -> bool
    requires valid { All IsValid areas.now }
    requires ordered { Neighbours (λ a b. a.span.hi ≤ b.span.lo) areas.now }
    ensures { result ≡ has_hole span areas.now }
{
    let mut page = span.lo;
    while page < span.hi {
        let Some(area) = area_at(areas, page) else {
            return true;
        };
        page = area.span.hi;
    }
    false
}

/// One call of mseal(2) on a list of areas.
#[tactic(auto, using(area_list::proofs::SmallNumbers::all_small), unfolding(area_rules::specs::Mseal::mseal, area_rules::specs::Mseal::mseal_rows, area_rules::specs::Mseal::seal_request_rows))]
pub(crate) fn mseal(
    alloc: Global,
    config: &Config,
    counters: Counters,
    areas: &[Record],
    addr: u64,
    len: u64,
    flags: u64,
) -> Result<Stepped, NoMemory>
    requires { IsReady config.now (space_of areas.now counters) }
    ensures { IfOk result
        (λ stepped. outcome_of stepped ≡ mseal config.now (space_of areas.now counters) addr len flags) }
{
    if let Some(reply) = mseal_answer(addr, len, flags) {
        return unchanged(alloc, counters, areas, reply);
    }
    let range = range_of(addr, len);
    if has_hole(range, areas) {
        return refused(alloc, counters, areas, Errno::Enomem);
    }
    let sealed = changed_list(alloc, AttrChange::Seal, range, areas)?;
    if has_too_many_areas(config, sealed.as_slice()) {
        return refused(alloc, counters, areas, Errno::Enomem);
    }
    Ok(Stepped {
        list: AreaList::of(sealed),
        counters,
        reply: Reply::Zero,
    })
}
