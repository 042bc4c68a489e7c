//! Laws of the definitions. Each is the contract of a function that does nothing.
ghost use Rattle.std.specs.Prelude.{◌≡◌, ◌≤◌, ◌<◌, ◌+◌, ◌*◌, ◌↔◌, ℕ, List, length};
ghost use Rattle.mm_types.specs.declared.area.Record.{Record};
ghost use Rattle.mm_types.specs.declared.area.Span.{Span};
ghost use Rattle.mm_types.specs.Config.{IsValidConfig};
ghost use Rattle.mm_types.specs.declared.call.Call.{Call};
ghost use Rattle.mm_types.specs.declared.call.Entry.{Entry};
ghost use Rattle.mm_types.specs.declared.call.Seen.{Seen};
ghost use Rattle.mm_types.specs.declared.config.Config.{Config};
ghost use Rattle.area_list.specs.Areas.{IsCanonical};
ghost use Rattle.area_list.specs.Changes.{cut, put, changed_list};
ghost use Rattle.area_list.specs.declared.attributes.AttrChange.{AttrChange};
ghost use Rattle.area_rules.specs.Journals.{IsReadRight};
ghost use Rattle.area_rules.specs.Steps.{step, IsReady, after, IsLegalJournal};
ghost use Rattle.area_rules.specs.Tables.{AddressSpace};
ghost use Rattle.area_rules.specs.Limits.{config_for};
ghost use Rattle.area_rules.specs.declared.area_limit.TheConstants.{AREAS_BY_CALL};

/// A cut leaves at most one area more, since only one goes past both ends of the span; a put leaves at most two, its own among them; and new
/// attributes leave at most two, one at each end of the span.
pub fn changes_make_few_areas()
    ensures cut { (end : ℕ) (span : Span) (areas : List Record) → span.lo ≤ span.hi → IsCanonical end areas
        → length (cut span areas) ≤ length areas + 1 }
    ensures put { (end : ℕ) (area : Record) (areas : List Record) → area.span.lo ≤ area.span.hi → IsCanonical end areas
        → length (put area areas) ≤ length areas + 2 }
    ensures changed { (end : ℕ) (change : AttrChange) (span : Span) (areas : List Record) → span.lo ≤ span.hi → IsCanonical end areas
        → length (changed_list change span areas) ≤ length areas + 2 }
{}

/// A call leaves at most three areas more, and so many calls at most three each.
pub fn calls_make_few_areas()
    ensures step { (config : Config) (space : AddressSpace) (call : Call) → IsReady config space
        → length (step config space call).space.areas ≤ length space.areas + AREAS_BY_CALL }
    ensures journal { (config : Config) (journal : List Entry) → IsValidConfig config → length journal ≤ 3000000000
        → length (after config journal).areas ≤ AREAS_BY_CALL * length journal }
{}

/// So many calls do not reach the limit of areas that is made for them: each leaves and answers what it does with the configuration itself,
/// a journal of so many is legal with the one where it is with the other, and so is what was read of it.
pub fn limit_is_not_reached()
    ensures valid { (calls : ℕ) (config : Config) → IsValidConfig config → IsValidConfig (config_for calls config) }
    ensures after { (calls : ℕ) (config : Config) (journal : List Entry) → IsValidConfig config → calls ≤ 3000000000 → length journal ≤ calls
        → after (config_for calls config) journal ≡ after config journal }
    ensures step { (calls : ℕ) (config : Config) (journal : List Entry) (call : Call) → IsValidConfig config → calls ≤ 3000000000
        → length journal < calls → step (config_for calls config) (after config journal) call ≡ step config (after config journal) call }
    ensures legal { (calls : ℕ) (config : Config) (journal : List Entry) → IsValidConfig config → calls ≤ 3000000000 → length journal ≤ calls
        → IsLegalJournal (config_for calls config) journal ↔ IsLegalJournal config journal }
    ensures reads { (calls : ℕ) (config : Config) (journal : List Entry) (read : Seen) → IsValidConfig config → calls ≤ 3000000000
        → length journal ≤ calls → IsReadRight (config_for calls config) journal read ↔ IsReadRight config journal read }
{}
