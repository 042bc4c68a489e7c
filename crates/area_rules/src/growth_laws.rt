//! Laws of areas that grow. Each is the contract of a function that does nothing.
ghost use Rattle.std.specs.Prelude.{◌≡◌, ◌≤◌, ◌-◌, ℕ, List, true, length};
ghost use Rattle.mm_types.specs.declared.area.Record.{Record};
ghost use Rattle.area_list.specs.Areas.{IsCanonical};
ghost use Rattle.area_rules.specs.Placement.{is_free};
ghost use Rattle.area_rules.specs.Growing.{grown_list, AreGrowersPrivate};

/// A list in which the area above a page grew into it is as canonical as before, where that page and the one below it are free and
/// what grows is private anonymous memory. It has as many areas.
pub fn growing_keeps_the_list_canonical()
    ensures canonical { (end page : ℕ) (areas : List Record) → IsCanonical end areas → AreGrowersPrivate areas → 1 ≤ page
        → is_free areas 2 (page - 1) ≡ true → IsCanonical end (grown_list page areas) }
    ensures count { (page : ℕ) (areas : List Record) → length (grown_list page areas) ≡ length areas }
{}
