//! The verdict on a page fault at a page that an area has.
ghost use Rattle.std.specs.Prelude.{◌≡◌, true};
ghost use Rattle.mm_types.specs.Records.{IsValid};
ghost use Rattle.area_list.specs.Areas.{has_page};
ghost use Rattle.area_rules.specs.Accesses.{permits};
ghost use Rattle.area_rules.specs.Verdicts.{is_past_end, area_verdict};

use crate::tables::pages_of;
use area_list::index_of;
use mm_types::{Access, FileRow, Prot, Record, Verdict};

/// Whether a protection allows an access. To read takes any of the three.
#[tactic(auto, unfolding(crate::specs::Accesses::permits))]
pub fn permits(prot: Prot, access: Access) -> bool
    ensures { result ≡ permits prot access }
{
    match access {
        Access::Read => prot.read || prot.write || prot.exec,
        Access::Write => prot.write,
        Access::Exec => prot.exec,
    }
}

/// Whether a page of an area lies at or past the end of its file, in pages rounded up.
#[tactic(auto, unfolding(crate::specs::Verdicts::is_past_end))]
fn is_past_end(files: &[FileRow], area: &Record, page: u64) -> bool
    requires valid { IsValid area.now }
    requires has { has_page area.now.span page ≡ true }
    ensures { result ≡ is_past_end files.now area.now page }
{
    if area.object == 0 {
        return false;
    }
    match files.get(area.object as usize - 1) {
        Some(file) => pages_of(file.size) <= index_of(area, page),
        None => false,
    }
}

/// The verdict on a fault at a page of this area: its protection does not allow the access, the page lies past the end of
/// its file, or the area serves it.
#[tactic(auto, unfolding(crate::specs::Verdicts::area_verdict))]
pub fn area_verdict(files: &[FileRow], page: u64, access: Access, area: &Record) -> Verdict
    requires valid { IsValid area.now }
    requires has { has_page area.now.span page ≡ true }
    ensures { result ≡ area_verdict files.now page access area.now }
{
    if !permits(area.attr.prot, access) {
        return Verdict::AccErr;
    }
    if is_past_end(files, area, page) {
        return Verdict::BusErr;
    }
    Verdict::Served {
        area: *area,
        index: index_of(area, page),
    }
}
