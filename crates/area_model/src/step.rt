//! The step: one call on a list of areas.
ghost use Rattle.std.specs.Prelude.{◌≡◌, IfOk};
ghost use Rattle.area_rules.specs.Steps.{step_unsealed, step, IsReady};
ghost use Rattle.area_rules.specs.Tables.{space_of};
ghost use Rattle.area_model.specs.Stepped.{outcome_of};

use crate::brk_table::brk;
use crate::mmap_table::mmap;
use crate::mprotect_table::mprotect;
use crate::mremap_table::mremap;
use crate::mseal_table::mseal;
use crate::munmap_table::munmap;
use crate::seal_guard::guarded;
use crate::touch_table::touch;
use area_rules::MremapArgs;
use mm_types::{AreaList, Call, Config, Counters, NoMemory, Record, Reply};
use std::alloc::Global;

/// The outcome of a call: the list of areas after it, what is kept besides, and its reply.
#[derive(Debug, Drop)]
pub struct Stepped {
    /// The areas after the call.
    pub list: AreaList,
    /// How many objects are numbered after it, and the break.
    pub counters: Counters,
    /// What the call returned.
    pub reply: Reply,
}

/// One call by its table, without the tests of seals.
#[tactic(auto, unfolding(area_rules::specs::Steps::step_unsealed))]
fn step_unsealed(
    alloc: Global,
    config: &Config,
    counters: Counters,
    areas: &[Record],
    call: &Call,
) -> Result<Stepped, NoMemory>
    requires { IsReady config.now (space_of areas.now counters) }
    ensures { IfOk result
        (λ stepped. outcome_of stepped ≡ step_unsealed config.now (space_of areas.now counters) call.now) }
{
    match call {
        Call::Mmap(args) => mmap(alloc, config, counters, areas, args),
        Call::Munmap { addr, len } => munmap(alloc, config, counters, areas, *addr, *len),
        Call::Mprotect { addr, len, prot } => mprotect(
            alloc, config, counters, areas, *addr, *len, *prot,
        ),
        Call::Mremap {
            old,
            old_len,
            new_len,
            flags,
            new,
        } => {
            let args = MremapArgs::of(*old, *old_len, *new_len, *flags, *new);
            mremap(alloc, config, counters, areas, &args)
        }
        Call::Touch { page, access } => touch(alloc, config, counters, areas, page.0, *access),
        Call::Brk { addr } => brk(alloc, config, counters, areas, *addr),
        Call::Mseal { addr, len, flags } => mseal(
            alloc, config, counters, areas, *addr, *len, *flags,
        ),
    }
}

/// One call on a list of areas, as mmap(2), munmap(2), mprotect(2), mremap(2), brk(2) and mseal(2) have it, or a fault that
/// grows an area. `counters` is how many objects were numbered before it, and the break. A refused call leaves list and
/// counters as they were, but mprotect(2) keeps the new protection of the pages before the one at which it stopped. A call
/// that would change a sealed page is refused. The one error is that memory runs out.
#[tactic(auto, using(area_rules::proofs::Guarding::step_guarded))]
pub fn model_step(
    alloc: Global,
    config: &Config,
    counters: Counters,
    list: &AreaList,
    call: &Call,
) -> Result<Stepped, NoMemory>
    requires { IsReady config.now (space_of list.now counters) }
    ensures { IfOk result
        (λ stepped. outcome_of stepped ≡ step config.now (space_of list.now counters) call.now) }
{
    let areas = list.items();
    let stepped = step_unsealed(alloc, config, counters, areas, call)?;
    guarded(alloc, counters, areas, call, stepped)
}
