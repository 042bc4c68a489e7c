//! One call of any kind as a plan.
ghost use Rattle.std.specs.Prelude.{◌≡◌, ℕ};
ghost use Rattle.mm_types.specs.declared.call.Reply.TheVariants.{Addr};
ghost use Rattle.area_rules.specs.Tables.{space_of};
ghost use Rattle.area_rules.specs.Steps.{step, step_unsealed, IsReady};
ghost use Rattle.split_merge.specs.Calls.{IsPrepared};
ghost use Rattle.sys_seal.specs.Guards.{IsPlannedWhole};
ghost use Rattle.sys_calls.specs.Touches.{TouchesOne};

use mm_types::{Call, Config, Counters, Reply};
use split_merge::{Areas, Plan, Planned};
use sys_brk::plan_brk;
use sys_map::{plan_mmap, plan_munmap, plan_touch};
use sys_mprotect::plan_mprotect;
use sys_mremap::plan_mremap;
use sys_seal::{guard, plan_seal};

/// What a call of brk(2) answers, which is the break after it, with the counters.
fn with_break(reply: Reply, counters: Counters) -> Planned
    ensures { (brk : ℕ) → reply ≡ Addr brk → result ≡ record { reply = reply; counters = record counters { brk = brk } } }
{
    let brk = match reply {
        Reply::Addr(brk) => brk,
        _ => counters.brk,
    };
    Planned {
        reply,
        counters: Counters { brk, ..counters },
    }
}

/// One call by its table, planned, without the tests of seals.
#[tactic(auto, unfolding(area_rules::specs::Steps::step_unsealed))]
fn plan_unsealed<A: Areas>(
    config: &Config,
    counters: Counters,
    areas: &A,
    call: &Call,
    plan: &mut Plan,
) -> Planned
    requires ready { IsReady config.now (space_of (A.list areas.now) counters) }
    requires prepared { IsPrepared config.now (A.bounds areas.now) (A.most areas.now) plan.old }
    ensures planned { IsPlannedWhole (A.bounds areas.now) (A.most areas.now) (A.list areas.now)
        (step_unsealed config.now (space_of (A.list areas.now) counters) call.now) result plan.old plan.new }
    ensures touch { TouchesOne call.now plan.new.changes }
{
    let reply = match call {
        Call::Mmap(args) => return plan_mmap(config, counters, areas, args, plan),
        Call::Munmap { addr, len } => plan_munmap(config, areas, *addr, *len, plan),
        Call::Mprotect { addr, len, prot } => plan_mprotect(
            config, areas, *addr, *len, *prot, plan,
        ),
        Call::Mremap {
            old,
            old_len,
            new_len,
            flags,
            new,
        } => plan_mremap(config, areas, *old, *old_len, *new_len, *flags, *new, plan),
        Call::Touch { page, access } => plan_touch(config, areas, *page, *access, plan),
        Call::Brk { addr } => {
            let reply = plan_brk(config, counters.brk, areas, *addr, plan);
            return with_break(reply, counters);
        }
        Call::Mseal { addr, len, flags } => plan_seal(config, areas, *addr, *len, *flags, plan),
    };
    Planned { reply, counters }
}

/// One call, planned. `counters` are those before it. The reply, the counters and the list that the plan makes are those of the
/// step, by the call's table. A touch is one change at most. No memory is taken.
pub fn plan_call<A: Areas>(
    config: &Config,
    counters: Counters,
    areas: &A,
    call: &Call,
    plan: &mut Plan,
) -> Planned
    requires ready { IsReady config.now (space_of (A.list areas.now) counters) }
    requires prepared { IsPrepared config.now (A.bounds areas.now) (A.most areas.now) plan.old }
    ensures planned { IsPlannedWhole (A.bounds areas.now) (A.most areas.now) (A.list areas.now)
        (step config.now (space_of (A.list areas.now) counters) call.now) result plan.old plan.new }
    ensures touch { TouchesOne call.now plan.new.changes }
{
    let planned = plan_unsealed(config, counters, areas, call, plan);
    guard(areas, call, counters, planned, plan)
}
