//! mprotect(2): the tests of its table in their order, and the new protection up to where it stops.
ghost use Rattle.std.specs.Prelude.{◌≡◌, ◌≤◌, All, IfOk, option_copied};
ghost use Rattle.mm_types.specs.Records.{IsValid};
ghost use Rattle.area_list.specs.Areas.{Neighbours};
ghost use Rattle.area_rules.specs.Mprotect.{stop_of, stop_error, mprotect_unsealed};
ghost use Rattle.area_rules.specs.Tables.{space_of};
ghost use Rattle.area_model.specs.Stepped.{outcome_of};
ghost use Rattle.area_rules.specs.Steps.{IsReady};

use crate::step::Stepped;
use crate::tables::{has_too_many_areas, refused, unchanged};
use area_list::{AttrChange, area_at, changed_list};
use area_rules::{mprotect_answer, range_of, stopped_reply};
use mm_types::{AreaList, Config, Counters, Errno, NoMemory, Prot, Record, Span, holds_all};
use std::alloc::Global;

/// The first page of the range that is not mapped or may not have the protection, or the range's end.
fn stop_of(prot: Prot, range: Span, areas: &[Record]) -> u64
    requires valid { All IsValid areas.now }
    requires ordered { Neighbours (λ a b. a.span.hi ≤ b.span.lo) areas.now }
    ensures { result ≡ stop_of prot range areas.now }
{
    let mut page = range.lo;
    while page < range.hi {
        let Some(area) = area_at(areas, page) else {
            return page;
        };
        if !holds_all(area.attr.most, prot) {
            return page;
        }
        page = area.span.hi;
    }
    range.hi
}

/// Why the call stops before the range's end, if it does: the page there is not mapped, or may not have the
/// protection.
#[tactic(auto, unfolding(area_rules::specs::Mprotect::stop_error))]
fn stop_error(range: Span, stop: u64, area: Option<&Record>) -> Option<Errno>
    ensures { result ≡ stop_error range stop (option_copied area.entry) }
{
    if range.hi <= stop {
        return None;
    }
    match area {
        Some(_) => Some(Errno::Eacces),
        None => Some(Errno::Enomem),
    }
}

/// One call of mprotect(2) on a list of areas.
#[tactic(auto, using(area_list::proofs::SmallNumbers::all_small), unfolding(area_rules::specs::Mprotect::mprotect_unsealed, area_rules::specs::Mprotect::mprotect_unsealed_rows, area_rules::specs::Mprotect::protect_request_rows, area_rules::specs::Mprotect::protected_prefix))]
pub(crate) fn mprotect(
    alloc: Global,
    config: &Config,
    counters: Counters,
    areas: &[Record],
    addr: u64,
    len: u64,
    prot: Prot,
) -> Result<Stepped, NoMemory>
    requires { IsReady config.now (space_of areas.now counters) }
    ensures { IfOk result
        (λ stepped. outcome_of stepped ≡ mprotect_unsealed config.now (space_of areas.now counters) addr len prot) }
{
    if let Some(reply) = mprotect_answer(addr, len) {
        return unchanged(alloc, counters, areas, reply);
    }
    let range = range_of(addr, len);
    let stop = stop_of(prot, range, areas);
    let prefix = Span { hi: stop, ..range };
    let protected = changed_list(alloc, AttrChange::Protection(prot), prefix, areas)?;
    if has_too_many_areas(config, protected.as_slice()) {
        return refused(alloc, counters, areas, Errno::Enomem);
    }
    Ok(Stepped {
        list: AreaList::of(protected),
        counters,
        reply: stopped_reply(stop_error(range, stop, area_at(areas, stop))),
    })
}
