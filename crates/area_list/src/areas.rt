//! Areas: where they map, and which neighbours join.
ghost use Rattle.std.specs.Prelude.{option_copied, ◌≡◌, ◌≢◌, ◌<◌, ◌+◌, ◌-◌, ◌^◌, nat_eq};
ghost use Rattle.area_list.specs.Areas.{page_of, area_at, overlap, index_of, joins};

use mm_types::{PAGE_SIZE, Record, Span};

/// The page that an address lies in.
pub fn page_of(address: u64) -> u64
    ensures { result ≡ page_of address }
{
    address / PAGE_SIZE
}

/// The area that has this page.
pub fn area_at(areas: &[Record], page: u64) -> Option<&Record>
    ensures { option_copied result ≡ area_at areas.now page }
{
    areas
        .iter()
        .find(|area| area.span.lo <= page && page < area.span.hi)
}

/// Whether two spans, each with a page, share one.
pub fn overlap(a: Span, b: Span) -> bool
    ensures { result ≡ overlap a b }
{
    a.lo < b.hi && b.lo < a.hi
}

/// The page of its object that an area maps at this page; 0 for private anonymous memory.
#[tactic(auto, unfolding(crate::specs::Areas::index_of))]
pub fn index_of(area: &Record, page: u64) -> u64
    requires { area.now.object ≢ 0 → area.now.offset + (page - area.now.span.lo) < 2 ^ 64 }
    ensures { result ≡ index_of area.now page }
{
    if area.object == 0 {
        0
    } else {
        area.offset + page.saturating_sub(area.span.lo)
    }
}

/// Whether two neighbours are one area.
#[tactic(auto, unfolding(crate::specs::Areas::joins))]
pub fn joins(a: &Record, b: &Record) -> bool
    ensures { result ≡ joins a.now b.now }
{
    a.span.hi == b.span.lo
        && a.attr == b.attr
        && a.object == b.object
        && (a.object == 0 || goes_on(a, b))
}

/// Whether the second maps what follows the first in its object.
fn goes_on(a: &Record, b: &Record) -> bool
    ensures { result ≡ nat_eq b.now.offset (a.now.offset + (a.now.span.hi - a.now.span.lo)) }
{
    u128::from(a.offset) + u128::from(a.span.hi.saturating_sub(a.span.lo)) == u128::from(b.offset)
}
