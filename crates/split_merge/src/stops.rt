//! Where a new protection stops.
ghost use Rattle.std.specs.Prelude.{◌≡◌};
ghost use Rattle.area_list.specs.Areas.{IsCanonical, area_at};
ghost use Rattle.area_rules.specs.Mprotect.{stop_of, stop_error};

use crate::areas::Areas;
use crate::lookups::area_at;
use mm_types::{Errno, Prot, Span, holds_all};

/// The page at which a new protection stops, and why where that is before the span's end.
#[derive(Clone, Copy)]
pub(crate) struct Stop {
    pub(crate) page: u64,
    pub(crate) error: Option<Errno>,
}

/// The first page of the span that is not mapped, which is ENOMEM, or may not have the protection, which is EACCES; or
/// the span's end.
pub(crate) fn stop_of<A: Areas>(areas: &A, span: Span, prot: Prot) -> Stop
    requires { IsCanonical (A.bounds areas.now).limit (A.list areas.now) }
    ensures page { result.page ≡ stop_of prot span (A.list areas.now) }
    ensures error { result.error ≡ stop_error span result.page (area_at (A.list areas.now) result.page) }
{
    let mut page = span.lo;
    while page < span.hi {
        let Some(area) = area_at(areas, page) else {
            return Stop {
                page,
                error: Some(Errno::Enomem),
            };
        };
        if !holds_all(area.attr.most, prot) {
            return Stop {
                page,
                error: Some(Errno::Eacces),
            };
        }
        page = area.span.hi;
    }
    Stop {
        page: span.hi,
        error: None,
    }
}
