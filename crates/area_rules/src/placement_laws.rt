//! Laws of the searches by which areas are placed. Each is the contract of a function that does nothing.
ghost use Rattle.std.specs.Prelude.{◌≡◌, ◌↔◌, ◌<◌, ◌+◌, ◌/◌, ℕ, max, nat_le, Bool, false, ◌&&◌, List, Some, None};
ghost use Rattle.std.specs.Option.{option_or};
ghost use Rattle.mm_types.specs.declared.area.Record.{Record};
ghost use Rattle.mm_types.specs.declared.config.Config.{Config};
ghost use Rattle.mm_types.specs.declared.config.TheConstants.{PAGE_SIZE, ADDRESS_LIMIT};
ghost use Rattle.area_list.specs.Areas.{page_of};
ghost use Rattle.area_rules.specs.declared.placement.Bounds.{Bounds};
ghost use Rattle.area_rules.specs.declared.placement.TheConstants.{FLOOR, WINDOW_END};
ghost use Rattle.area_rules.specs.Tables.{pages_of};
ghost use Rattle.mm_types.specs.Searches.{IsGreatest, IsLeast, NonePasses};
ghost use Rattle.area_rules.specs.Placement.{greatest_below, least_below, passes_below};
ghost use Rattle.area_rules.specs.Placement.{bounds_of, is_free, is_high, high_place, place_low, place};

/// The search from above finds the greatest number below a bound that passes a test, and nothing exactly where none
/// passes.
pub fn greatest_below_finds_the_greatest()
    ensures found { (passes : ℕ → Bool) (bound n : ℕ) →
        (greatest_below passes bound ≡ Some n) ↔ IsGreatest (passes_below passes bound) n }
    ensures none { (passes : ℕ → Bool) (bound : ℕ) →
        (greatest_below passes bound ≡ None) ↔ NonePasses (passes_below passes bound) }
{}

/// The search from below finds the least number below a bound that passes a test, and nothing exactly where none
/// passes.
pub fn least_below_finds_the_least()
    ensures found { (passes : ℕ → Bool) (bound n : ℕ) →
        (least_below passes bound ≡ Some n) ↔ IsLeast (passes_below passes bound) n }
    ensures none { (passes : ℕ → Bool) (bound : ℕ) →
        (least_below passes bound ≡ None) ↔ NonePasses (passes_below passes bound) }
{}

/// The second search begins at a third of user memory, rounded up to a page.
#[tactic(auto, unfolding(crate::specs::Tables::pages_of))]
pub fn floor_is_a_third_of_user_memory()
    ensures { FLOOR ≡ pages_of (ADDRESS_LIMIT / 3) }
{}

/// The window ends at the end of user memory of 47 bits.
pub fn window_ends_with_narrow_memory()
    ensures page { WINDOW_END ≡ page_of ADDRESS_LIMIT }
    ensures number { WINDOW_END ≡ 0x7_ffff_ffff }
{}

/// Without a hint no call is high. Where user memory ends with the window, no hint is high, and a call without one goes to the
/// greatest free start whose pages end at or below the top, or else to the least from the floor on whose pages end at or below
/// the limit.
pub fn narrow_placement()
    ensures unhinted { (bounds : Bounds) (areas : List Record) (pages : ℕ) → place bounds areas pages 0 ≡ place_low bounds areas pages }
    ensures none_high { (config : Config) (hint : ℕ) → config.limit ≡ ADDRESS_LIMIT → is_high (bounds_of config) hint ≡ false }
    ensures narrow { (config : Config) (areas : List Record) (pages hint : ℕ) → config.limit ≡ ADDRESS_LIMIT → hint < PAGE_SIZE
        → place (bounds_of config) areas pages hint
        ≡ option_or (high_place (bounds_of config) areas pages)
        (least_below (λ start. nat_le (max FLOOR (page_of config.min)) start
        && (nat_le (start + pages) (page_of config.limit) && is_free areas pages start)) (page_of config.limit + 1)) }
{}
