//! Calls that would change sealed pages.
ghost use Rattle.std.specs.Prelude.{◌≡◌, ◌≤◌, length};
ghost use Rattle.std.specs.Option.{option_to_list};
ghost use Rattle.std.specs.List.{list_any};
ghost use Rattle.area_list.specs.Areas.{IsCanonical};
ghost use Rattle.area_rules.specs.Guarded.{is_sealed_off};
ghost use Rattle.area_rules.specs.Seals.{has_sealed};
ghost use Rattle.area_rules.specs.Steps.{step, step_unsealed};
ghost use Rattle.area_rules.specs.Tables.{AddressSpace, counters_of};
ghost use Rattle.mm_types.specs.declared.config.Config.{Config};
ghost use Rattle.split_merge.specs.Plans.{PlanView, IsPlannedFor};
ghost use Rattle.sys_seal.specs.Guards.{IsPlannedWhole};

use area_rules::guarded_ranges;
use mm_types::{Call, Counters, Errno, Reply, Span};
use split_merge::{Areas, Plan, Planned, has_sealed};

/// Whether a page of the range is sealed, if there is a range.
fn has_sealed_in<A: Areas>(areas: &A, range: Option<Span>) -> bool
    requires { IsCanonical (A.bounds areas.now).limit (A.list areas.now) }
    ensures { result ≡ list_any (λ span. has_sealed span (A.list areas.now)) (option_to_list range) }
{
    match range {
        Some(range) => has_sealed(areas, range),
        None => false,
    }
}

/// Whether a call would change sealed pages, where all its other tests answer so.
#[tactic(auto, unfolding(area_rules::specs::Guarded::is_sealed_off))]
fn is_sealed_off<A: Areas>(areas: &A, call: &Call, reply: &Reply) -> bool
    requires { IsCanonical (A.bounds areas.now).limit (A.list areas.now) }
    ensures { result ≡ is_sealed_off (A.list areas.now) call.now reply.now }
{
    let [first, second] = guarded_ranges(call, reply);
    has_sealed_in(areas, first) || has_sealed_in(areas, second)
}

/// The tests of seals of a planned call: where it would change sealed pages, EPERM, an empty plan, and the counters before it.
/// `planned` is what its own plan call answered over this list without these tests, and `before` are the counters before it
/// (mseal(2)). With them it is planned as the call's whole table has it.
pub fn guard<A: Areas>(
    areas: &A,
    call: &Call,
    before: Counters,
    planned: Planned,
    plan: &mut Plan,
) -> Planned
    requires { IsPlannedFor (A.bounds areas.now) (A.most areas.now) (A.list areas.now) }
    ensures planned { (config : Config) (space : AddressSpace) (fresh : PlanView) → space.areas ≡ A.list areas.now
        → counters_of space ≡ before
        → IsPlannedWhole (A.bounds areas.now) (A.most areas.now) (A.list areas.now) (step_unsealed config space call.now) planned fresh plan.old
        → IsPlannedWhole (A.bounds areas.now) (A.most areas.now) (A.list areas.now) (step config space call.now) result fresh plan.new }
    ensures short { length plan.new.changes ≤ length plan.old.changes }
{
    if is_sealed_off(areas, call, &planned.reply) {
        plan.clear();
        return Planned {
            reply: Reply::Refused(Errno::Eperm),
            counters: before,
        };
    }
    planned
}
