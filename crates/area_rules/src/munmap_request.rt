//! The ranges of munmap(2) and its like.
ghost use Rattle.std.specs.Prelude.{◌≡◌};
ghost use Rattle.area_rules.specs.Munmap.{range_of};

use crate::tables::pages_of;
use area_list::page_of;
use mm_types::Span;

/// The pages from an address on that a length takes. Both are in bytes.
#[tactic(auto, unfolding(crate::specs::Munmap::range_of))]
pub fn range_of(addr: u64, len: u64) -> Span
    ensures { result ≡ range_of addr len }
{
    let lo = page_of(addr);
    Span {
        lo,
        hi: lo + pages_of(len),
    }
}
