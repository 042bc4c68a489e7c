//! Where a new area goes that names no fixed place. Everything is counted in pages, but the hint is an address.
ghost use Rattle.std.specs.Prelude.{◌≡◌, ◌<◌, ◌≤◌, ◌+◌, ◌^◌, ◌||◌, ℕ, IfSome, false, max, nat_le};
ghost use Rattle.std.specs.List.{list_all};
ghost use Rattle.area_rules.specs.Placement.{is_free, hinted_place, highest_below, low_place, place_low, place};
ghost use Rattle.area_rules.specs.Blockers.{blocker};
ghost use Rattle.area_rules.specs.declared.placement.TheConstants.{WINDOW_END};

use area_rules::{Bounds, FLOOR, WINDOW_END, fits, hint_page, is_high, window_end};
use mm_types::Record;

/// Whether no area has one of so many pages from this start on.
pub(crate) fn is_free(areas: &[Record], pages: u64, start: u64) -> bool
    requires { start + pages < 2 ^ 64 }
    ensures { result ≡ is_free areas.now pages start }
{
    is_each_clear(areas, pages, start)
}

/// Whether each area begins behind so many pages from this start on, or ends before them.
fn is_each_clear(areas: &[Record], pages: u64, start: u64) -> bool
    requires { start + pages < 2 ^ 64 }
    ensures { result ≡ list_all (λ area. nat_le (start + pages) area.span.lo || nat_le area.span.hi start) areas.now }
{
    areas.iter().all(|area| start + pages <= area.span.lo || area.span.hi <= start)
}

/// The first area that has one of so many pages from this start on.
#[tactic(auto, unfolding(area_rules::specs::Blockers::blocker))]
fn blocker(areas: &[Record], pages: u64, start: u64) -> Option<Record>
    requires { start + pages < 2 ^ 64 }
    ensures { result ≡ blocker areas.now pages start }
{
    areas
        .iter()
        .find(|area| area.span.lo < start + pages && start < area.span.hi)
        .copied()
}

/// The hint's page, where so many pages from it on are free and end at or below the end of the window, or the limit for a
/// high call.
#[tactic(auto, unfolding(area_rules::specs::Placement::hinted_place))]
fn hinted_place(bounds: Bounds, areas: &[Record], pages: u64, hint: u64) -> Option<u64>
    ensures value { result ≡ hinted_place bounds areas.now pages hint }
    ensures within { IfSome result (λ start. start ≤ max bounds.limit WINDOW_END) }
{
    let start = hint_page(bounds, hint)?;
    if fits(start, pages, window_end(bounds, hint)) && is_free(areas, pages, start) {
        Some(start)
    } else {
        None
    }
}

/// The greatest free start from the lowest page on whose pages end at or below this page. Below an area that is in the
/// way, the next start to be tried is the one whose pages end where that area begins.
fn highest_below(bounds: Bounds, end: u64, areas: &[Record], pages: u64) -> Option<u64>
    ensures value { result ≡ highest_below bounds end areas.now pages }
    ensures within { IfSome result (λ start. start ≤ end) }
{
    let mut last = lowered(bounds.low, end, areas, pages);
    while fits(bounds.low, pages, last) {
        match blocker(areas, pages, last - pages) {
            None => return Some(last - pages),
            Some(area) => last = area.span.lo,
        }
    }
    None
}

/// A page at or below this one past which no place that is free ends. Each area is looked at once, from the last one on: where they are in
/// order, none of them is in the way below it.
fn lowered(low: u64, end: u64, areas: &[Record], pages: u64) -> u64
    ensures within { result ≤ end }
    ensures none { (start : ℕ) → result < start + pages → start + pages ≤ end → is_free areas.now pages start ≡ false }
{
    let mut last = end;
    for area in areas.iter().rev() {
        if fits(low, pages, last) && area.span.lo < last && last - pages < area.span.hi {
            last = area.span.lo;
        }
    }
    last
}

/// The least free start from the floor on whose pages end at or below the end of the window. Above an area that is in the
/// way, the next start to be tried is where that area ends.
fn low_place(bounds: Bounds, areas: &[Record], pages: u64) -> Option<u64>
    ensures value { result ≡ low_place bounds areas.now pages }
    ensures within { IfSome result (λ start. start ≤ WINDOW_END) }
{
    let mut start = bounds.low.max(FLOOR);
    while fits(start, pages, WINDOW_END) {
        match blocker(areas, pages, start) {
            None => return Some(start),
            Some(area) => start = area.span.hi,
        }
    }
    None
}

/// Where so many pages go without a hint: as high as there is room below the top, else as low as there is room from the
/// floor on.
#[tactic(auto, unfolding(area_rules::specs::Placement::place_low, area_rules::specs::Placement::high_place))]
fn place_low(bounds: Bounds, areas: &[Record], pages: u64) -> Option<u64>
    ensures value { result ≡ place_low bounds areas.now pages }
    ensures within { IfSome result (λ start. start ≤ max bounds.top WINDOW_END) }
{
    if let Some(start) = highest_below(bounds, bounds.top, areas, pages) {
        return Some(start);
    }
    low_place(bounds, areas, pages)
}

/// Where so many pages go: at the hint; else, for a high call, as high as there is room below the limit; else where they
/// go without a hint.
#[tactic(auto, unfolding(area_rules::specs::Placement::place, area_rules::specs::Placement::place_high))]
pub(crate) fn place(bounds: Bounds, areas: &[Record], pages: u64, hint: u64) -> Option<u64>
    ensures value { result ≡ place bounds areas.now pages hint }
    ensures within { IfSome result (λ start. start ≤ max bounds.top (max bounds.limit WINDOW_END)) }
{
    if let Some(start) = hinted_place(bounds, areas, pages, hint) {
        return Some(start);
    }
    if is_high(bounds, hint) {
        return highest_below(bounds, bounds.limit, areas, pages);
    }
    place_low(bounds, areas, pages)
}
