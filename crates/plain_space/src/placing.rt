//! Where new areas go, by one look at each chunk in order, and at the areas of those alone in which there may be room.
ghost use Rattle.std.specs.Prelude.{◌≡◌, ◌-◌, ◌≤◌, if◌then◌else◌, nat_le, ◌+◌, Some, None};
ghost use Rattle.area_rules.specs.declared.placement.TheConstants.{WINDOW_END};
ghost use Rattle.area_rules.specs.Placement.{highest_below, low_place, place_low, place_high};
ghost use Rattle.plain_space.specs.Internal.Chunks.{areas_in_chunks, AscendApart};

use crate::chunk::Chunk;
use crate::finding::{beginning_below, ending_by};
use area_rules::{Bounds, FLOOR, WINDOW_END, fits};

/// Where so many pages go that name no place: as high as there is room below the top, else as low as there is room
/// from the floor on.
#[tactic(auto, unfolding(area_rules::specs::Placement::place_low, area_rules::specs::Placement::high_place))]
pub(crate) fn place_low(bounds: Bounds, chunks: &[Chunk], pages: u64) -> Option<u64>
    requires { AscendApart chunks.now }
    ensures { result ≡ place_low bounds (areas_in_chunks chunks.now) pages }
{
    if let Some(start) = highest_below(bounds, bounds.top, chunks, pages) {
        return Some(start);
    }
    low_place(bounds, chunks, pages)
}

/// Where so many pages go whose hint asks for memory above the usual window: as high as there is room below the limit.
#[tactic(auto, unfolding(area_rules::specs::Placement::place_high))]
pub(crate) fn place_high(bounds: Bounds, chunks: &[Chunk], pages: u64) -> Option<u64>
    requires { AscendApart chunks.now }
    ensures { result ≡ place_high bounds (areas_in_chunks chunks.now) pages }
{
    highest_below(bounds, bounds.limit, chunks, pages)
}

/// The start of so many pages below an end, where it is not below the lowest page.
fn start_below(bounds: Bounds, pages: u64, end: u64) -> Option<u64>
    ensures { result ≡ (if nat_le (bounds.low + pages) end then Some (end - pages) else None) }
{
    if fits(bounds.low, pages, end) {
        Some(end - pages)
    } else {
        None
    }
}

/// The greatest free start from the lowest page on whose pages end at or below the last. The chunks are looked at from the one
/// with the highest begin below the last down.
fn highest_below(bounds: Bounds, last: u64, chunks: &[Chunk], pages: u64) -> Option<u64>
    requires { AscendApart chunks.now }
    ensures { result ≡ highest_below bounds last (areas_in_chunks chunks.now) pages }
{
    let mut end = last;
    let mut left = beginning_below(chunks, end);
    while left > 0 {
        if !fits(bounds.low, pages, end) {
            return None;
        }
        left -= 1;
        let scan = chunks[left].look_down(end, pages);
        end = scan.page;
        if scan.has_room {
            return start_below(bounds, pages, end);
        }
    }
    start_below(bounds, pages, end)
}

/// The start, where so many pages from it on end within the window.
fn start_within(pages: u64, start: u64) -> Option<u64>
    ensures { result ≡ (if nat_le (start + pages) WINDOW_END then Some start else None) }
{
    if fits(start, pages, WINDOW_END) {
        Some(start)
    } else {
        None
    }
}

/// The least free start from the floor on whose pages end within the window. The chunks are looked at from the first that
/// ends above the floor up.
fn low_place(bounds: Bounds, chunks: &[Chunk], pages: u64) -> Option<u64>
    requires { AscendApart chunks.now }
    ensures { result ≡ low_place bounds (areas_in_chunks chunks.now) pages }
{
    let mut start = bounds.low.max(FLOOR);
    let mut next = ending_by(chunks, start);
    while next < chunks.len() {
        if !fits(start, pages, WINDOW_END) {
            return None;
        }
        let scan = chunks[next].look_up(start, pages);
        start = scan.page;
        if scan.has_room {
            return start_within(pages, start);
        }
        next += 1;
    }
    start_within(pages, start)
}
