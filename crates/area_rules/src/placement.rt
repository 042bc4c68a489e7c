//! Where a new area goes that names no fixed place. Everything is counted in pages, but the hint is an address.
ghost use Rattle.std.specs.Prelude.{◌≡◌, ◌+◌, nat_le};
ghost use Rattle.area_rules.specs.Placement.{bounds_of, hint_page, is_high, window_end};

use area_list::page_of;
use mm_types::{ADDRESS_LIMIT, Config, PAGE_SIZE};

/// The lowest page of the second search: a third of user memory, rounded up to a page.
pub const FLOOR: u64 = 0x2_aaaa_aaab; // as the kernel's TASK_UNMAPPED_BASE

/// The page at which the memory ends that calls use whose hint asks for no more: the window of 47 bits.
pub const WINDOW_END: u64 = ADDRESS_LIMIT / PAGE_SIZE;

/// The pages between which areas are placed.
#[derive(Clone, Copy, Debug, PartialEq, Eq)]
pub struct Bounds {
    /// The lowest page.
    pub low: u64,
    /// The first search looks for room below this page.
    pub top: u64,
    /// The page at which user memory ends.
    pub limit: u64,
}

/// The bounds of a configuration.
pub fn bounds_of(config: &Config) -> Bounds
    ensures { result ≡ bounds_of config.now }
{
    Bounds {
        low: page_of(config.min),
        top: page_of(config.top),
        limit: page_of(config.limit),
    }
}

/// Whether so many pages from this start on end at or below the end.
pub fn fits(start: u64, pages: u64, end: u64) -> bool
    ensures { result ≡ nat_le (start + pages) end }
{
    pages <= end && start <= end - pages
}

/// The page of a hint in bytes. One below a page is none, and another is raised to the lowest page.
#[tactic(auto, unfolding(crate::specs::Placement::hint_page))]
pub fn hint_page(bounds: Bounds, hint: u64) -> Option<u64>
    ensures { result ≡ hint_page bounds hint }
{
    let page = page_of(hint);
    (page != 0).then_some(page.max(bounds.low))
}

/// Whether a hint asks for memory above the window, where there is some: the call is high, as mmap(2) has it for addresses of
/// more than 47 bits.
#[tactic(auto, unfolding(crate::specs::Placement::is_high))]
pub fn is_high(bounds: Bounds, hint: u64) -> bool
    ensures { result ≡ is_high bounds hint }
{
    if bounds.limit <= WINDOW_END {
        return false;
    }
    match hint_page(bounds, hint) {
        Some(page) => WINDOW_END <= page,
        None => false,
    }
}

/// The page at which the pages of a call with this hint end: the limit for a high call, and else the end of the window.
pub fn window_end(bounds: Bounds, hint: u64) -> u64
    ensures { result ≡ window_end bounds hint }
{
    if is_high(bounds, hint) {
        bounds.limit
    } else {
        WINDOW_END
    }
}
