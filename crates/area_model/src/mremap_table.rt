//! mremap(2): the tests of its table in their order, and the move, the shrinking or the growth itself.
ghost use Rattle.std.specs.Prelude.{◌≡◌, ◌<◌, ◌≤◌, ◌+◌, ◌^◌, ◌&&◌, All, IfOk, IfSome, nat_le};
ghost use Rattle.std.specs.Prelude.{option_and_then};
ghost use Rattle.mm_types.specs.Config.{IsValidConfig};
ghost use Rattle.mm_types.specs.Records.{IsValid};
ghost use Rattle.area_list.specs.Areas.{area_at, page_of};
ghost use Rattle.area_rules.specs.Tables.{space_of};
ghost use Rattle.area_model.specs.Stepped.{outcome_of};
ghost use Rattle.area_rules.specs.Steps.{IsReady};
ghost use Rattle.mm_types.specs.Rows.{first_row};
ghost use Rattle.area_rules.specs.Mremap.{range_rows, mremap_rows, moved, shrunk_list, has_room};
ghost use Rattle.area_rules.specs.Mremap.{lengthened_list, new_place, mremap_change, mremap_unsealed};

use crate::placement::{is_free, place};
use crate::step::Stepped;
use crate::tables::{has_too_many_areas, refused};
use area_list::{area_at, cut, page_of, put};
use area_rules::{
    Moved, MremapArgs, added_range, area_refusal, bounds_of, carried_area, fits, lengthens,
    may_move, moves_to, mremap_refusal, old_range, pages_of,
};
use mm_types::{AreaList, Config, Counters, Errno, NoMemory, PAGE_SIZE, Record, Reply, Span};
use std::alloc::Global;

/// The first test of the old range that refuses the call.
#[tactic(auto, using(area_list::proofs::SmallNumbers::small_found))]
fn range_error(areas: &[Record], args: &MremapArgs) -> Option<Errno>
    requires { All IsValid areas.now }
    ensures { result ≡ first_row (range_rows areas.now args.now) }
{
    match area_at(areas, page_of(args.old)) {
        Some(area) => area_refusal(area, args),
        None => Some(Errno::Efault),
    }
}

/// The first test of the call that refuses it.
fn request_error(config: &Config, areas: &[Record], args: &MremapArgs) -> Option<Errno>
    requires { All IsValid areas.now }
    ensures { result ≡ first_row (mremap_rows config.now areas.now args.now) }
{
    if let Some(errno) = mremap_refusal(config, args) {
        return Some(errno);
    }
    range_error(areas, args)
}

/// The area put at its new place, and the old range cut out after.
#[tactic(auto, unfolding(area_rules::specs::Mremap::moved_list))]
fn moved_to(
    alloc: Global,
    areas: &[Record],
    area: &Record,
    args: &MremapArgs,
    start: u64,
) -> Result<Moved, NoMemory>
    requires valid { All IsValid areas.now }
    requires of_list { IsValid area.now }
    requires low { start < 2 ^ 52 }
    ensures { IfOk result (λ v. v ≡ moved areas.now area.now args.now start) }
{
    let span = Span {
        lo: start,
        hi: start + pages_of(args.new_len),
    };
    let put = put(alloc, carried_area(area, page_of(args.old), span), areas)?;
    let left = cut(alloc, old_range(args), put.as_slice())?;
    Ok(Moved {
        areas: AreaList::of(left),
        page: start,
    })
}

/// The area shrunk in place: what lies past the new length is cut out.
#[tactic(auto, using(area_list::proofs::SmallNumbers::all_small), unfolding(area_rules::specs::Mremap::shrunk_list))]
fn shrunk_list(alloc: Global, areas: &[Record], args: &MremapArgs) -> Result<Vec<Record>, NoMemory>
    requires { All IsValid areas.now }
    ensures { IfOk result (λ v. v.items ≡ shrunk_list areas.now args.now) }
{
    let first = page_of(args.old);
    let span = Span {
        lo: first + pages_of(args.new_len),
        hi: first + pages_of(args.old_len),
    };
    if span.lo < span.hi {
        return cut(alloc, span, areas);
    }
    Ok(Vec::from_slice(alloc, areas)?)
}

/// Whether the added range is free and ends at or below the limit.
#[tactic(auto, unfolding(area_rules::specs::Mremap::has_room))]
fn has_room(config: &Config, areas: &[Record], args: &MremapArgs) -> bool
    ensures { result ≡ has_room config.now areas.now args.now }
{
    let first = page_of(args.old);
    let (old_pages, new_pages) = (pages_of(args.old_len), pages_of(args.new_len));
    fits(first, new_pages, page_of(config.limit))
        && is_free(
            areas,
            new_pages.saturating_sub(old_pages),
            first + old_pages,
        )
}

/// The area grown in place: an area that runs on is put after the old range.
#[tactic(auto, using(area_list::proofs::SmallNumbers::all_small, area_list::proofs::SmallNumbers::small_valid), unfolding(area_rules::specs::Mremap::lengthened_list))]
fn lengthened_list(
    alloc: Global,
    areas: &[Record],
    area: &Record,
    args: &MremapArgs,
) -> Result<Vec<Record>, NoMemory>
    requires valid { All IsValid areas.now }
    requires of_list { IsValid area.now }
    ensures { IfOk result (λ v. v.items ≡ lengthened_list areas.now area.now args.now) }
{
    let span = added_range(args);
    put(alloc, carried_area(area, span.lo, span), areas)
}

/// Where a range that grows may move to.
#[tactic(auto, unfolding(area_rules::specs::Mremap::new_place))]
fn new_place(config: &Config, areas: &[Record], args: &MremapArgs) -> Option<u64>
    requires { IsValidConfig config.now }
    ensures value { result ≡ new_place config.now areas.now args.now }
    ensures low { IfSome result (λ start. start < 2 ^ 52) }
{
    if may_move(args) {
        place(bounds_of(config), areas, pages_of(args.new_len), 0)
    } else {
        None
    }
}

/// The first case that holds: to a fixed place, shrunk in place, grown in place, moved to a place that is found.
#[tactic(auto, unfolding(area_rules::specs::Mremap::mremap_change))]
fn mremap_change(
    alloc: Global,
    config: &Config,
    areas: &[Record],
    area: &Record,
    args: &MremapArgs,
) -> Result<Option<Moved>, NoMemory>
    requires config { IsValidConfig config.now }
    requires valid { All IsValid areas.now }
    requires of_list { IsValid area.now }
    ensures value { IfOk result (λ v. v ≡ mremap_change config.now areas.now area.now args.now) }
    ensures low { IfOk result (λ v. IfSome v (λ moved. moved.page < 2 ^ 52)) }
{
    let page = page_of(args.old);
    if moves_to(args) {
        let moved = moved_to(alloc, areas, area, args, page_of(args.new))?;
        return Ok(Some(moved));
    }
    if !lengthens(args) {
        let areas = AreaList::of(shrunk_list(alloc, areas, args)?);
        return Ok(Some(Moved { areas, page }));
    }
    if has_room(config, areas, args) {
        let areas = AreaList::of(lengthened_list(alloc, areas, area, args)?);
        return Ok(Some(Moved { areas, page }));
    }
    match new_place(config, areas, args) {
        Some(start) => {
            let moved = moved_to(alloc, areas, area, args, start)?;
            Ok(Some(moved))
        }
        None => Ok(None),
    }
}

/// What becomes of the area that has the first page of the old range.
fn change(
    alloc: Global,
    config: &Config,
    areas: &[Record],
    args: &MremapArgs,
) -> Result<Option<Moved>, NoMemory>
    requires config { IsValidConfig config.now }
    requires valid { All IsValid areas.now }
    ensures value { IfOk result (λ v. v
        ≡ option_and_then (λ area. mremap_change config.now areas.now area args.now)
        (area_at areas.now (page_of args.now.old))) }
    ensures low { IfOk result (λ v. IfSome v (λ moved. moved.page < 2 ^ 52)) }
{
    match area_at(areas, page_of(args.old)) {
        Some(area) => mremap_change(alloc, config, areas, area, args),
        None => Ok(None),
    }
}

/// One call of mremap(2) on a list of areas.
#[tactic(auto, unfolding(area_rules::specs::Mremap::mremap_unsealed, area_rules::specs::Mremap::mremap_changed_unsealed, area_rules::specs::Mremap::mremap_done))]
pub(crate) fn mremap(
    alloc: Global,
    config: &Config,
    counters: Counters,
    areas: &[Record],
    args: &MremapArgs,
) -> Result<Stepped, NoMemory>
    requires { IsReady config.now (space_of areas.now counters) }
    ensures { IfOk result
        (λ stepped. outcome_of stepped ≡ mremap_unsealed config.now (space_of areas.now counters) args.now) }
{
    if let Some(errno) = request_error(config, areas, args) {
        return refused(alloc, counters, areas, errno);
    }
    let Some(moved) = change(alloc, config, areas, args)? else {
        return refused(alloc, counters, areas, Errno::Enomem);
    };
    let Moved { areas: list, page } = moved;
    if has_too_many_areas(config, list.items()) {
        return refused(alloc, counters, areas, Errno::Enomem);
    }
    Ok(Stepped {
        list,
        counters,
        reply: Reply::Addr(PAGE_SIZE * page),
    })
}
