//! Gaps between the areas of one chunk: the widest, and the first one below or above a page that is wide enough.
ghost use Rattle.std.specs.Prelude.{◌≡◌, ◌≤◌, ◌<◌, length};
ghost use Rattle.plain_space.specs.Internal.Gaps.{gap_behind, gap_before, gap_around, widest_gap, HasChanged, IsAscending, HasScannedDown, HasScannedUp};

use crate::binary_search::{area_at, begins_below, ends_by, last_of};
use area_rules::fits;
use mm_types::Record;

/// How far a look at the areas of a chunk came.
#[derive(Clone, Copy, Debug, PartialEq, Eq)]
pub(crate) struct Scan {
    /// No start that was passed on the way to this page has room.
    pub page: u64,
    /// Whether there is room at the page, up to an area of the chunk.
    pub has_room: bool,
}

/// The gap between an area and the first of the others; 0 where there is none.
fn gap_behind(area: &Record, others: &[Record]) -> u64
    ensures { result ≡ gap_behind area.now others.now }
{
    match others {
        [next, ..] => next.span.lo.saturating_sub(area.span.hi),
        [] => 0,
    }
}

/// The widest gap between an area and the next; 0 where there is none.
pub(crate) fn widest_gap(areas: &[Record]) -> u64
    ensures { result ≡ widest_gap areas.now }
{
    let mut widest: u64 = 0;
    let mut rest = areas;
    while let [area, tail @ ..] = rest {
        widest = widest.max(gap_behind(area, tail));
        rest = tail;
    }
    widest
}

/// The gap between the area before a place and the one at it; 0 where there is none.
pub(crate) fn gap_before(areas: &[Record], place: usize) -> u64
    requires { place ≤ length areas.now }
    ensures { result ≡ gap_before areas.now place }
{
    if place == 0 {
        return 0;
    }
    match &areas[place - 1..] {
        [area, others @ ..] => gap_behind(area, others),
        [] => 0,
    }
}

/// The wider one of the gaps on both sides of the area at a place.
pub(crate) fn gap_around(areas: &[Record], place: usize) -> u64
    requires { place < length areas.now }
    ensures { result ≡ gap_around areas.now place }
{
    gap_before(areas, place).max(gap_before(areas, place + 1))
}

/// The widest gap, where it was `widest` before gaps of at most `gone` gave way to gaps of at most `come`. All gaps are
/// looked at only where a widest one is gone.
pub(crate) fn widest_after(areas: &[Record], widest: u64, gone: u64, come: u64) -> u64
    requires { HasChanged widest (widest_gap areas.now) gone come }
    ensures { result ≡ widest_gap areas.now }
{
    if gone < widest || widest <= come {
        widest.max(come)
    } else {
        widest_gap(areas)
    }
}

/// Looks for room of so many pages below an end, from the area with the highest begin below it down to the first with room
/// above it.
pub(crate) fn scan_down(areas: &[Record], end: u64, pages: u64) -> Scan
    requires { IsAscending areas.now }
    ensures { HasScannedDown areas.now end pages result.page result.has_room }
{
    let mut page = end;
    let mut below = begins_below(areas, page);
    while let Some(area) = last_of(areas, below) {
        if fits(area.span.hi, pages, page) {
            return Scan {
                page,
                has_room: true,
            };
        }
        below -= 1;
        page = area.span.lo;
    }
    Scan {
        page,
        has_room: false,
    }
}

/// Looks for room of so many pages from a start on, from the first area that ends above it up to the first with room below
/// it.
pub(crate) fn scan_up(areas: &[Record], start: u64, pages: u64) -> Scan
    requires { IsAscending areas.now }
    ensures { HasScannedUp areas.now start pages result.page result.has_room }
{
    let mut page = start;
    let mut next = ends_by(areas, page);
    while let Some(area) = area_at(areas, next) {
        if fits(page, pages, area.span.lo) {
            return Scan {
                page,
                has_room: true,
            };
        }
        page = area.span.hi;
        next += 1;
    }
    Scan {
        page,
        has_room: false,
    }
}
