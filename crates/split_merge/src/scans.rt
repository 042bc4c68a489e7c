//! Looks along the areas of a span.
ghost use Rattle.std.specs.Prelude.{◌≡◌};
ghost use Rattle.area_list.specs.Areas.{IsCanonical};
ghost use Rattle.area_rules.specs.Mseal.{has_hole};
ghost use Rattle.area_rules.specs.Seals.{has_sealed};

use crate::areas::Areas;
use crate::lookups::area_at;
use mm_types::{Page, Span};

/// Whether a page of the span, which has one, is sealed. One look for each area of the span and one more, and none where no area may be sealed.
pub fn has_sealed<A: Areas>(areas: &A, span: Span) -> bool
    requires { IsCanonical (A.bounds areas.now).limit (A.list areas.now) }
    ensures { result ≡ has_sealed span (A.list areas.now) }
{
    if !areas.may_be_sealed() {
        return false;
    }
    let mut page = span.lo;
    while let Some(area) = areas.from(Page(page)) {
        if span.hi <= area.span.lo {
            return false;
        }
        if area.attr.sealed {
            return true;
        }
        page = area.span.hi;
    }
    false
}

/// Whether a page of the span is not mapped. One look for each area of the span up to the first hole, and one that finds it.
pub fn has_hole<A: Areas>(areas: &A, span: Span) -> bool
    requires { IsCanonical (A.bounds areas.now).limit (A.list areas.now) }
    ensures { result ≡ has_hole span (A.list areas.now) }
{
    let mut page = span.lo;
    while page < span.hi {
        let Some(area) = area_at(areas, page) else {
            return true;
        };
        page = area.span.hi;
    }
    false
}
