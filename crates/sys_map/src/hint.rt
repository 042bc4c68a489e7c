//! Places of ranges: at a hint, and without one.
ghost use Rattle.std.specs.Prelude.{◌≡◌, ◌≤◌, if◌then◌else◌};
ghost use Rattle.area_list.specs.Areas.{IsCanonical};
ghost use Rattle.area_rules.specs.Placement.{bounds_of, hinted_place, is_high, place, place_high, place_low};
ghost use Rattle.split_merge.specs.PageNumbers.{page_number};

use area_rules::{Bounds, bounds_of, fits, hint_page, is_high, window_end};
use mm_types::{Config, Page};
use split_merge::{Areas, is_free};

/// The hint's page, where so many pages from it on are free up to the end of the window.
#[tactic(auto, unfolding(area_rules::specs::Placement::hinted_place))]
fn hinted_place<A: Areas>(bounds: Bounds, areas: &A, pages: u64, hint: u64) -> Option<u64>
    requires canonical { IsCanonical (A.bounds areas.now).limit (A.list areas.now) }
    ensures { result ≡ hinted_place bounds (A.list areas.now) pages hint }
{
    let start = hint_page(bounds, hint)?;
    let end = window_end(bounds, hint);
    (fits(start, pages, end) && is_free(areas, pages, start)).then_some(start)
}

/// The number of a page, if there is one.
fn number_of(page: Option<Page>) -> Option<u64>
    ensures { result ≡ page_number page }
{
    page.map(|page| page.0)
}

/// Where the list has a place for so many pages, for a high call or for any other.
fn searched_place<A: Areas>(bounds: Bounds, areas: &A, pages: u64, hint: u64) -> Option<u64>
    requires bounds { A.bounds areas.now ≡ bounds }
    requires some_pages { 1 ≤ pages }
    ensures { result ≡ (if is_high bounds hint then place_high bounds (A.list areas.now) pages
        else place_low bounds (A.list areas.now) pages) }
{
    if is_high(bounds, hint) {
        number_of(areas.place_high(pages))
    } else {
        number_of(areas.place(pages))
    }
}

/// Where so many pages go: at the hint, else where the list has a place for them.
#[tactic(auto, unfolding(area_rules::specs::Placement::place))]
pub(crate) fn place<A: Areas>(config: &Config, areas: &A, pages: u64, hint: u64) -> Option<u64>
    requires canonical { IsCanonical (A.bounds areas.now).limit (A.list areas.now) }
    requires bounds { A.bounds areas.now ≡ bounds_of config.now }
    requires some_pages { 1 ≤ pages }
    ensures { result ≡ place (bounds_of config.now) (A.list areas.now) pages hint }
{
    let bounds = bounds_of(config);
    if let Some(start) = hinted_place(bounds, areas, pages, hint) {
        return Some(start);
    }
    searched_place(bounds, areas, pages, hint)
}
