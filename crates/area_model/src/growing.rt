//! Which fault grows an area: `MAP_GROWSDOWN` of mmap(2).
ghost use Rattle.std.specs.Prelude.{◌≡◌, ◌<◌, ◌-◌, ◌^◌, IfOk, IfSome, find};
ghost use Rattle.area_rules.specs.Growing.{is_above, grower, grows, grown_list};

use crate::placement::is_free;
use area_list::page_of;
use area_rules::{grown_to, is_above, permits};
use mm_types::{Access, AreaList, Config, NoMemory, Page, Record};
use std::alloc::Global;

/// The first area that begins right above a page and grows downwards.
fn area_above(areas: &[Record], page: u64) -> Option<Record>
    ensures value { result ≡ find (is_above page) areas.now }
    ensures low { IfSome result (λ area. page < 2 ^ 64 - 1) }
{
    areas
        .iter()
        .find(|area| page < area.span.lo && is_above(page, area))
        .copied()
}

/// The area that grows into a page: it begins at the next one. The page is not below the lowest, and neither it nor the one
/// below it is mapped.
#[tactic(auto, unfolding(area_rules::specs::Growing::grower))]
pub(crate) fn grower(config: &Config, areas: &[Record], page: u64) -> Option<Record>
    ensures value { result ≡ grower config.now areas.now page }
    ensures low { IfSome result (λ area. page < 2 ^ 64 - 1) }
{
    let above = area_above(areas, page)?;
    let is_clear = page_of(config.min) <= page && is_free(areas, 2, page.saturating_sub(1));
    is_clear.then_some(above)
}

/// Whether a fault grows an area: one grows into its page, and allows the access.
#[tactic(auto, unfolding(area_rules::specs::Growing::grows))]
pub fn grows(config: &Config, list: &AreaList, page: Page, access: Access) -> bool
    ensures { result ≡ grows config.now list.now page.0 access }
{
    match grower(config, list.items(), page.0) {
        Some(area) => permits(area.attr.prot, access),
        None => false,
    }
}

/// The list with the area above a page grown into it.
#[tactic(auto, unfolding(area_rules::specs::Growing::grown_list))]
pub(crate) fn grown_list(
    alloc: Global,
    page: u64,
    areas: &[Record],
) -> Result<Vec<Record>, NoMemory>
    requires { page < 2 ^ 64 - 1 }
    ensures { IfOk result (λ v. v.items ≡ grown_list page areas.now) }
{
    let mut grown = Vec::new(alloc);
    for area in areas {
        let area = if is_above(page, area) {
            grown_to(page, area)
        } else {
            *area
        };
        grown.push(area)?;
    }
    Ok(grown)
}
