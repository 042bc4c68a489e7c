//! Plans over a list of one area in chunks.
ghost use Rattle.std.specs.Prelude.{◌≡◌, ◌<◌, ◌≤◌, ◌∷◌, [], IfOk};
ghost use Rattle.mm_types.specs.Records.{IsValid};

use crate::settings::READ;
use mm_types::{ADDRESS_LIMIT, Attr, Config, Files, NoMemory, Record, Span};
use plain_space::AreaChunks;
use split_merge::{Change, Plan, plan_cut, plan_put};
use std::alloc::Global;
use std::process::Abort;
use std::test::Fail;

/// Private anonymous memory on these pages.
fn area(lo: u64, hi: u64) -> Record
    requires some_pages { lo < hi }
    requires within { hi ≤ 1024 }
    ensures valid { IsValid result }
    ensures end { result.span.hi ≡ hi }
{
    Record {
        span: Span { lo, hi },
        attr: Attr {
            prot: READ,
            most: READ,
            shared: false,
            grows: false,
            sealed: false,
            heap: false,
        },
        object: 0,
        offset: 0,
    }
}

/// A list of at most four areas.
fn no_areas(alloc: Global) -> Result<AreaChunks, NoMemory>
    ensures { IfOk result (λ areas. (areas.list ≡ []) × (areas.most ≡ 4) × (1024 ≤ areas.bounds.limit)) }
{
    let config = Config {
        min: 0x1_0000,
        top: 0x2_8000,
        limit: ADDRESS_LIMIT,
        areas: 4,
        files: Files::of(Vec::new(alloc)),
        heap: 0,
    };
    AreaChunks::with_room(alloc, &config)
}

/// The list of an area on pages 12 to 19.
fn one_area(alloc: Global) -> Result<AreaChunks, NoMemory>
    ensures { IfOk result (λ areas. (areas.most ≡ 4) × (1024 ≤ areas.bounds.limit)) }
{
    let mut areas = no_areas(alloc)?;
    let mut plan = Plan::with_room(alloc, 4)?;
    let _kept = areas.copy_list(alloc)?;
    plan_put(&areas, area(12, 20), &mut plan);
    areas.apply(&plan);
    Ok(areas)
}

/// An area becomes another in the only change of a plan.
fn alters(rt: &impl Abort, plan: &Plan, old: Record, new: Record) {
    assert_eq!(rt; plan.changes(), [Change::Alter { old, new }].as_slice());
}

#[test]
fn area_grows_at_its_lower_end(rt: HostRuntime) -> Result<(), Fail> {
    let areas = one_area(rt.alloc())?;
    let mut plan = Plan::with_room(rt.alloc(), 4)?;
    let _kept = areas.copy_list(rt.alloc())?;
    plan_put(&areas, area(10, 12), &mut plan);
    alters(&rt, &plan, area(12, 20), area(10, 20));
    Ok(())
}

#[test]
fn area_shrinks_at_its_lower_end(rt: HostRuntime) -> Result<(), Fail> {
    let areas = one_area(rt.alloc())?;
    let mut plan = Plan::with_room(rt.alloc(), 4)?;
    let _kept = areas.copy_list(rt.alloc())?;
    plan_cut(&areas, Span { lo: 12, hi: 13 }, &mut plan);
    alters(&rt, &plan, area(12, 20), area(13, 20));
    Ok(())
}

#[test]
fn area_is_replaced_by_a_wider_one(rt: HostRuntime) -> Result<(), Fail> {
    let areas = one_area(rt.alloc())?;
    let mut plan = Plan::with_room(rt.alloc(), 4)?;
    let _kept = areas.copy_list(rt.alloc())?;
    plan_put(&areas, area(10, 30), &mut plan);
    alters(&rt, &plan, area(12, 20), area(10, 30));
    Ok(())
}
