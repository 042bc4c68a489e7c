//! The verdict on a page fault.
ghost use Rattle.std.specs.Prelude.{◌≡◌, All, false, option_copied};
ghost use Rattle.mm_types.specs.Records.{IsValid};
ghost use Rattle.area_rules.specs.Growing.{grower, grows};
ghost use Rattle.area_rules.specs.Verdicts.{unmapped_verdict, verdict};

use crate::growing::grower;
use area_list::area_at;
use area_rules::area_verdict;
use mm_types::{Access, AreaList, Config, Page, Record, Verdict};

/// The verdict on a fault at a page that no area has: the area that would grow into it does not allow the access, or there
/// is none.
fn unmapped_verdict(grower: Option<Record>) -> Verdict
    ensures { result ≡ unmapped_verdict grower }
{
    match grower {
        Some(_) => Verdict::AccErr,
        None => Verdict::MapErr,
    }
}

/// The verdict on a fault over a list of areas, where it grows none: no area has the page; its protection does not allow
/// the access; the page lies past the end of the file; or it is served.
#[tactic(auto, unfolding(area_rules::specs::Verdicts::verdict))]
pub fn model_verdict(config: &Config, list: &AreaList, page: Page, access: Access) -> Verdict
    requires valid { All IsValid list.now }
    requires no_growth { grows config.now list.now page.0 access ≡ false }
    ensures { result ≡ verdict config.now list.now page.0 access }
{
    let areas = list.items();
    match area_at(areas, page.0) {
        Some(area) => area_verdict(config.files.items(), page.0, access, area),
        None => unmapped_verdict(grower(config, areas, page.0)),
    }
}
