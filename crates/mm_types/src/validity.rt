//! Which records stand for areas.
ghost use Rattle.std.specs.Prelude.{◌≡◌, ◌↔◌, IsTrue};
ghost use Rattle.mm_types.specs.Packed.{is_valid};
ghost use Rattle.mm_types.specs.Records.{IsValid, holds_all};

use crate::area::{Prot, Record};
use crate::config::{MOST_AREA_END, MOST_OBJECT_PAGES};

/// Whether the one protection holds each access of the other.
#[tactic(auto, unfolding(crate::specs::Records::holds_all))]
pub fn holds_all(most: Prot, prot: Prot) -> bool
    ensures { result ≡ holds_all most prot }
{
    (!prot.read || most.read) && (!prot.write || most.write) && (!prot.exec || most.exec)
}

/// Whether a record stands for an area: it has a page, ends at or below page 2^45, allows no more than it may, and maps private
/// anonymous memory from offset 0 on, or pages of an object below index 2^51 - 1.
#[tactic(auto, using(crate::proofs::PackedWords::valid_tests, crate::proofs::PackedWords::tests_valid), unfolding(crate::specs::Packed::is_valid))]
pub fn is_valid(area: &Record) -> bool
    ensures test { result ≡ is_valid area.now }
    ensures valid { IsTrue result ↔ IsValid area.now }
{
    let span = area.span;
    if !(span.lo < span.hi
        && span.hi <= MOST_AREA_END
        && holds_all(area.attr.most, area.attr.prot))
    {
        return false;
    }
    if area.object == 0 {
        area.offset == 0 && !area.attr.shared
    } else {
        area.offset <= MOST_OBJECT_PAGES && area.offset + (span.hi - span.lo) <= MOST_OBJECT_PAGES
    }
}
