//! The tests of mremap(2)'s table on its request.
ghost use Rattle.std.specs.Prelude.{◌≡◌, MatchResult};
ghost use Rattle.area_list.specs.Areas.{IsCanonical};
ghost use Rattle.area_rules.specs.Mremap.{mremap_rows};
ghost use Rattle.mm_types.specs.Rows.{first_row};
ghost use Rattle.sys_mremap.specs.Internal.Cases.{IsAccepted};

use area_list::page_of;
use area_rules::{MremapArgs, area_refusal, mremap_refusal};
use mm_types::{Config, Errno, Record};
use split_merge::{Areas, area_at};

/// The area that has the old range's first page, or the error of the first test that refuses the call.
pub(crate) fn old_area<A: Areas>(
    config: &Config,
    areas: &A,
    args: &MremapArgs,
) -> Result<Record, Errno>
    requires { IsCanonical (A.bounds areas.now).limit (A.list areas.now) }
    ensures { MatchResult result (λ area. IsAccepted config.now (A.list areas.now) args.now area)
        (λ errno. first_row (mremap_rows config.now (A.list areas.now) args.now) ≡ Some errno) }
{
    if let Some(errno) = mremap_refusal(config, args) {
        return Err(errno);
    }
    let Some(area) = area_at(areas, page_of(args.old)) else {
        return Err(Errno::Efault);
    };
    match area_refusal(&area, args) {
        Some(errno) => Err(errno),
        None => Ok(area),
    }
}
