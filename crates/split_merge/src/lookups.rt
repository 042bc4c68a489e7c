//! Looks at a list of areas for the tests of the calls.
ghost use Rattle.std.specs.Prelude.{◌≡◌, ◌<◌, ◌≤◌, ◌+◌, ◌^◌, length, nat_lt};
ghost use Rattle.area_list.specs.Areas.{IsCanonical, area_at};
ghost use Rattle.area_rules.specs.Growing.{grower};
ghost use Rattle.area_rules.specs.Placement.{is_free};
ghost use Rattle.split_merge.specs.Plans.{applied, IsPlanOf};

use crate::areas::Areas;
use crate::plan::Plan;
use area_list::page_of;
use area_rules::is_above;
use mm_types::{Config, Page, Record};

/// The area that has a page, if one has it. One look by page.
pub fn area_at<A: Areas>(areas: &A, page: u64) -> Option<Record>
    requires { IsCanonical (A.bounds areas.now).limit (A.list areas.now) }
    ensures { result ≡ area_at (A.list areas.now) page }
{
    let area = areas.from(Page(page))?;
    (area.span.lo <= page).then_some(area)
}

/// Whether no area has one of so many pages from this start on.
pub fn is_free<A: Areas>(areas: &A, pages: u64, start: u64) -> bool
    requires canonical { IsCanonical (A.bounds areas.now).limit (A.list areas.now) }
    requires small { start + pages < 2 ^ 64 }
    ensures { result ≡ is_free (A.list areas.now) pages start }
{
    match areas.from(Page(start)) {
        Some(area) => start + pages <= area.span.lo,
        None => true,
    }
}

/// The area that grows into a page, if one does. One look by page.
pub fn grower<A: Areas>(config: &Config, areas: &A, page: u64) -> Option<Record>
    requires { IsCanonical (A.bounds areas.now).limit (A.list areas.now) }
    ensures { result ≡ grower config.now (A.list areas.now) page }
{
    if page == 0 || page < page_of(config.min) {
        return None;
    }
    let area = areas.from(Page(page - 1))?;
    is_above(page, &area).then_some(area)
}

/// Whether the list would have more areas after the plan than are allowed.
pub fn is_too_long<A: Areas>(most: u32, areas: &A, plan: &Plan) -> bool
    requires canonical { IsCanonical (A.bounds areas.now).limit (A.list areas.now) }
    requires few { length (A.list areas.now) ≤ most }
    requires plan { IsPlanOf (A.list areas.now) plan.now.changes }
    ensures { result ≡ nat_lt most (length (applied plan.now.changes (A.list areas.now))) }
{
    u64::from(most) < plan.count_after(areas.count())
}
