//! Which lists of areas are sound.
ghost use Rattle.std.specs.Prelude.{◌≡◌, ◌≤◌, ◌↔◌, All, IsTrue, false, length};
ghost use Rattle.mm_types.specs.Records.{IsValid};
ghost use Rattle.area_list.specs.Areas.{IsSound, Neighbours, joins};

use crate::areas::{joins, page_of};
use mm_types::{AreaList, Config, Record, is_valid};

/// Whether each record stands for an area.
fn are_valid(areas: &[Record]) -> bool
    ensures { IsTrue result ↔ All IsValid areas.now }
{
    areas.iter().all(|area| is_valid(area))
}

/// Whether each area ends at or below this page.
fn end_below(end: u64, areas: &[Record]) -> bool
    ensures { IsTrue result ↔ All (λ area. area.span.hi ≤ end) areas.now }
{
    areas.iter().all(|area| area.span.hi <= end)
}

/// Whether the areas lie in ascending order without overlap.
fn are_ordered(areas: &[Record]) -> bool
    ensures { IsTrue result ↔ Neighbours (λ a b. a.span.hi ≤ b.span.lo) areas.now }
{
    let mut rest = areas;
    while let [a, tail @ ..] = rest {
        if let [b, ..] = tail
            && b.span.lo < a.span.hi
        {
            return false;
        }
        rest = tail;
    }
    true
}

/// Whether no two neighbours are one area.
fn are_apart(areas: &[Record]) -> bool
    ensures { IsTrue result ↔ Neighbours (λ a b. joins a b ≡ false) areas.now }
{
    let mut rest = areas;
    while let [a, tail @ ..] = rest {
        if let [b, ..] = tail
            && joins(a, b)
        {
            return false;
        }
        rest = tail;
    }
    true
}

/// Whether a list has no more areas than are allowed.
fn is_short(config: &Config, areas: &[Record]) -> bool
    ensures { IsTrue result ↔ (length areas.now ≤ config.now.areas) }
{
    areas.len() <= config.areas as usize
}

/// Whether a list is sound for a configuration: its records stand for areas and end at or below the limit, they lie
/// in ascending order without overlap, no two neighbours are one area, and there are no more than are allowed.
pub fn sound(config: &Config, list: &AreaList) -> bool
    ensures { IsTrue result ↔ IsSound config.now list.now }
{
    let areas = list.items();
    are_valid(areas)
        && end_below(page_of(config.limit), areas)
        && are_ordered(areas)
        && are_apart(areas)
        && is_short(config, areas)
}
