//! The tests of seals, which mseal(2) adds to the tables of the other calls.
ghost use Rattle.std.specs.Prelude.{◌≡◌, IfOk};
ghost use Rattle.std.specs.List.{list_any};
ghost use Rattle.std.specs.Option.{option_to_list};
ghost use Rattle.area_rules.specs.Guarded.{is_sealed_off, guarded};
ghost use Rattle.area_rules.specs.Seals.{has_sealed};
ghost use Rattle.area_rules.specs.Tables.{space_of};
ghost use Rattle.area_model.specs.Stepped.{outcome_of};

use crate::step::Stepped;
use crate::tables::refused;
use area_list::overlap;
use area_rules::guarded_ranges;
use mm_types::{Call, Counters, Errno, NoMemory, Record, Reply, Span};
use std::alloc::Global;

/// Whether a page of the span, which has one, is sealed.
#[tactic(auto, unfolding(area_rules::specs::Seals::has_sealed))]
pub(crate) fn has_sealed(span: Span, areas: &[Record]) -> bool
    ensures { result ≡ has_sealed span areas.now }
{
    areas
        .iter()
        .any(|area| area.attr.sealed && overlap(area.span, span))
}

/// Whether a page of the span, which has one, is sealed, if there is a span.
fn has_sealed_in(span: Option<Span>, areas: &[Record]) -> bool
    ensures { result ≡ list_any (λ range. has_sealed range areas.now) (option_to_list span) }
{
    match span {
        Some(span) => has_sealed(span, areas),
        None => false,
    }
}

/// Whether a call that its table answers so without the test of seals would change sealed pages.
#[tactic(auto, unfolding(area_rules::specs::Guarded::is_sealed_off))]
fn is_sealed_off(areas: &[Record], call: &Call, reply: &Reply) -> bool
    ensures { result ≡ is_sealed_off areas.now call.now reply.now }
{
    let [first, second] = guarded_ranges(call, reply);
    has_sealed_in(first, areas) || has_sealed_in(second, areas)
}

/// The outcome of a call with the seals: one that would change sealed pages is refused and changes nothing.
#[tactic(auto, unfolding(area_rules::specs::Guarded::guarded))]
pub(crate) fn guarded(
    alloc: Global,
    counters: Counters,
    areas: &[Record],
    call: &Call,
    stepped: Stepped,
) -> Result<Stepped, NoMemory>
    ensures { IfOk result
        (λ after. outcome_of after ≡ guarded (space_of areas.now counters) call.now (outcome_of stepped)) }
{
    if is_sealed_off(areas, call, &stepped.reply) {
        return refused(alloc, counters, areas, Errno::Eperm);
    }
    Ok(stepped)
}
