//! The tests of mmap(2)'s table on its request.
ghost use Rattle.std.specs.Prelude.{◌≡◌};
ghost use Rattle.area_list.specs.Areas.{IsCanonical};
ghost use Rattle.mm_types.specs.Rows.{first_row};
ghost use Rattle.area_rules.specs.Mmap.{is_taken, mmap_rows};

use area_list::page_of;
use area_rules::{is_noreplace, mmap_refusal, pages_of};
use mm_types::{Config, Errno, MmapArgs};
use split_merge::{Areas, is_free};

/// Whether a page of the range is mapped, and the call keeps what is mapped.
#[tactic(auto, unfolding(area_rules::specs::Mmap::is_taken))]
fn is_taken<A: Areas>(areas: &A, args: &MmapArgs) -> bool
    requires { IsCanonical (A.bounds areas.now).limit (A.list areas.now) }
    ensures { result ≡ is_taken (A.list areas.now) args.now }
{
    is_noreplace(args) && !is_free(areas, pages_of(args.len), page_of(args.addr))
}

/// The first test of the request that refuses it.
#[tactic(auto, unfolding(area_rules::specs::Mmap::is_taken))]
pub(crate) fn request_error<A: Areas>(config: &Config, areas: &A, args: &MmapArgs) -> Option<Errno>
    requires { IsCanonical (A.bounds areas.now).limit (A.list areas.now) }
    ensures { result ≡ first_row (mmap_rows config.now (A.list areas.now) args.now) }
{
    mmap_refusal(config, args, is_taken(areas, args))
}
