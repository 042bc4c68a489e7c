//! mmap(2): the tests of its table in their order, and the mapping itself.
ghost use Rattle.std.specs.Prelude.{◌≡◌, ◌<◌, ◌^◌, IfOk, IfSome};
ghost use Rattle.mm_types.specs.Config.{IsValidConfig};
ghost use Rattle.mm_types.specs.Rows.{first_row};
ghost use Rattle.area_rules.specs.Tables.{space_of};
ghost use Rattle.area_rules.specs.Steps.{IsReady};
ghost use Rattle.area_rules.specs.Mmap.{is_taken, start_of, mapped_list, mmap_rows, mmap_unsealed};
ghost use Rattle.area_model.specs.Stepped.{outcome_of};

use crate::placement::{is_free, place};
use crate::step::Stepped;
use crate::tables::{has_too_many_areas, refused};
use area_list::{page_of, put};
use area_rules::{
    bounds_of, is_fixed, is_noreplace, mmap_refusal, new_area, objects_numbered, pages_of,
};
use mm_types::{AreaList, Config, Counters, Errno, MmapArgs, NoMemory, PAGE_SIZE, Record, Reply};
use std::alloc::Global;

/// Whether a page of the range is mapped, and the call keeps what is mapped.
#[tactic(auto, unfolding(area_rules::specs::Mmap::is_taken))]
fn is_taken(areas: &[Record], args: &MmapArgs) -> bool
    ensures { result ≡ is_taken areas.now args.now }
{
    is_noreplace(args) && !is_free(areas, pages_of(args.len), page_of(args.addr))
}

/// The first test of the request that refuses it.
#[tactic(auto, unfolding(area_rules::specs::Mmap::is_taken))]
fn request_error(config: &Config, areas: &[Record], args: &MmapArgs) -> Option<Errno>
    ensures { result ≡ first_row (mmap_rows config.now areas.now args.now) }
{
    mmap_refusal(config, args, is_taken(areas, args))
}

/// The page where the mapping begins, if it has a place.
#[tactic(auto, unfolding(area_rules::specs::Mmap::start_of))]
fn start_of(config: &Config, areas: &[Record], args: &MmapArgs) -> Option<u64>
    requires { IsValidConfig config.now }
    ensures value { result ≡ start_of config.now areas.now args.now }
    ensures low { IfSome result (λ start. start < 2 ^ 52) }
{
    if is_fixed(args) {
        Some(page_of(args.addr))
    } else {
        place(bounds_of(config), areas, pages_of(args.len), args.addr)
    }
}

/// The list with the new area.
#[tactic(auto, using(area_list::proofs::SmallNumbers::all_small), unfolding(area_rules::specs::Mmap::mapped_list))]
fn mapped_list(
    alloc: Global,
    config: &Config,
    counters: Counters,
    areas: &[Record],
    args: &MmapArgs,
    start: u64,
) -> Result<Vec<Record>, NoMemory>
    requires ready { IsReady config.now (space_of areas.now counters) }
    requires low { start < 2 ^ 52 }
    ensures { IfOk result (λ v. v.items ≡ mapped_list config.now (space_of areas.now counters) args.now start) }
{
    put(
        alloc,
        new_area(config, counters.objects, args, start),
        areas,
    )
}

/// One call of mmap(2) on a list of areas.
pub(crate) fn mmap(
    alloc: Global,
    config: &Config,
    counters: Counters,
    areas: &[Record],
    args: &MmapArgs,
) -> Result<Stepped, NoMemory>
    requires { IsReady config.now (space_of areas.now counters) }
    ensures { IfOk result (λ stepped. outcome_of stepped ≡ mmap_unsealed config.now (space_of areas.now counters) args.now) }
{
    if let Some(errno) = request_error(config, areas, args) {
        return refused(alloc, counters, areas, errno);
    }
    let Some(start) = start_of(config, areas, args) else {
        return refused(alloc, counters, areas, Errno::Enomem);
    };
    let mapped_list = mapped_list(alloc, config, counters, areas, args, start)?;
    if has_too_many_areas(config, mapped_list.as_slice()) {
        return refused(alloc, counters, areas, Errno::Enomem);
    }
    Ok(Stepped {
        list: AreaList::of(mapped_list),
        counters: Counters {
            objects: objects_numbered(counters.objects, args),
            brk: counters.brk,
        },
        reply: Reply::Addr(PAGE_SIZE * start),
    })
}
