//! brk(2): the cases of its table in their order.
ghost use Rattle.std.specs.Prelude.{◌≡◌, ◌||◌, if◌then◌else◌, IfOk};
ghost use Rattle.area_rules.specs.Brk.{pages_between, break_kept, break_moved, lowered_list, raised_list};
ghost use Rattle.area_rules.specs.Brk.{has_room_above, brk};
ghost use Rattle.area_rules.specs.Seals.{has_sealed};
ghost use Rattle.area_rules.specs.Tables.{space_of, has_too_many_areas};
ghost use Rattle.area_model.specs.Stepped.{outcome_of};
ghost use Rattle.area_rules.specs.Steps.{IsReady};

use crate::placement::is_free;
use crate::seal_guard::has_sealed;
use crate::step::Stepped;
use crate::tables::{has_too_many_areas, unchanged};
use area_list::{cut, page_of, put};
use area_rules::{heap_area, is_below_heap, pages_between, pages_of};
use mm_types::{AreaList, Config, Counters, NoMemory, Record, Reply};
use std::alloc::Global;

/// The break stays, and so does all else.
fn break_kept(alloc: Global, counters: Counters, areas: &[Record]) -> Result<Stepped, NoMemory>
    ensures { IfOk result (λ stepped. outcome_of stepped ≡ break_kept (space_of areas.now counters)) }
{
    unchanged(alloc, counters, areas, Reply::Addr(counters.brk))
}

/// The break is the address, with this list.
fn break_moved(counters: Counters, addr: u64, areas: Vec<Record>) -> Stepped
    ensures { outcome_of result ≡ break_moved (space_of areas.items counters) addr areas.items }
{
    Stepped {
        list: AreaList::of(areas),
        counters: Counters {
            brk: addr,
            ..counters
        },
        reply: Reply::Addr(addr),
    }
}

/// A lower break, unless a page that it gives back is sealed or too many areas would be left.
#[tactic(auto, using(area_list::proofs::SmallNumbers::all_small))]
fn lowered(
    alloc: Global,
    config: &Config,
    counters: Counters,
    areas: &[Record],
    addr: u64,
) -> Result<Stepped, NoMemory>
    requires { IsReady config.now (space_of areas.now counters) }
    ensures { IfOk result (λ stepped. outcome_of stepped
        ≡ (if has_sealed (pages_between addr counters.brk) areas.now
        || has_too_many_areas config.now (lowered_list (space_of areas.now counters) addr)
        then break_kept (space_of areas.now counters)
        else break_moved (space_of areas.now counters) addr (lowered_list (space_of areas.now counters) addr))) }
{
    let given_back = pages_between(addr, counters.brk);
    let left = cut(alloc, given_back, areas)?;
    if has_sealed(given_back, areas) || has_too_many_areas(config, left.as_slice()) {
        return break_kept(alloc, counters, areas);
    }
    Ok(break_moved(counters, addr, left))
}

/// Whether the pages that a higher break takes, and one more, are free and end at or below the limit.
#[tactic(auto, unfolding(area_rules::specs::Brk::has_room_above))]
fn has_room_above(config: &Config, counters: Counters, areas: &[Record], addr: u64) -> bool
    ensures { result ≡ has_room_above config.now (space_of areas.now counters) addr }
{
    let (old, new) = (pages_of(counters.brk), pages_of(addr));
    new < page_of(config.limit) && is_free(areas, (new + 1).saturating_sub(old), old)
}

/// A higher break, unless there is no room or there would be too many areas.
#[tactic(auto, using(area_list::proofs::SmallNumbers::all_small))]
fn raised(
    alloc: Global,
    config: &Config,
    counters: Counters,
    areas: &[Record],
    addr: u64,
) -> Result<Stepped, NoMemory>
    requires { IsReady config.now (space_of areas.now counters) }
    ensures { IfOk result (λ stepped. outcome_of stepped
        ≡ (if has_room_above config.now (space_of areas.now counters) addr
        then (if has_too_many_areas config.now (raised_list (space_of areas.now counters) addr)
        then break_kept (space_of areas.now counters)
        else break_moved (space_of areas.now counters) addr (raised_list (space_of areas.now counters) addr))
        else break_kept (space_of areas.now counters))) }
{
    if !has_room_above(config, counters, areas, addr) {
        return break_kept(alloc, counters, areas);
    }
    let taken = heap_area(pages_between(counters.brk, addr));
    let longer = put(alloc, taken, areas)?;
    if has_too_many_areas(config, longer.as_slice()) {
        return break_kept(alloc, counters, areas);
    }
    Ok(break_moved(counters, addr, longer))
}

/// One call of brk(2) on a list of areas.
#[tactic(auto, unfolding(area_rules::specs::Brk::brk, area_rules::specs::Brk::brk_rows))]
pub(crate) fn brk(
    alloc: Global,
    config: &Config,
    counters: Counters,
    areas: &[Record],
    addr: u64,
) -> Result<Stepped, NoMemory>
    requires { IsReady config.now (space_of areas.now counters) }
    ensures { IfOk result
        (λ stepped. outcome_of stepped ≡ brk config.now (space_of areas.now counters) addr) }
{
    if is_below_heap(config, addr) {
        return break_kept(alloc, counters, areas);
    }
    let (old, new) = (pages_of(counters.brk), pages_of(addr));
    if new == old {
        return Ok(break_moved(counters, addr, Vec::from_slice(alloc, areas)?));
    }
    if new < old {
        return lowered(alloc, config, counters, areas, addr);
    }
    raised(alloc, config, counters, areas, addr)
}
