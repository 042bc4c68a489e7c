//! Areas that grow downwards.
ghost use Rattle.std.specs.Prelude.{◌≡◌, ◌<◌, ◌-◌, ◌^◌};
ghost use Rattle.area_rules.specs.Growing.{is_above, grown_to};

use mm_types::{Record, Span};

/// Whether an area would grow into a page: it grows downwards, and begins at the next one.
pub fn is_above(page: u64, area: &Record) -> bool
    requires { page < 2 ^ 64 - 1 }
    ensures { result ≡ is_above page area.now }
{
    area.attr.grows && area.span.lo == page + 1
}

/// The area with this page as its first.
pub fn grown_to(page: u64, area: &Record) -> Record
    ensures { result ≡ grown_to page area.now }
{
    Record {
        span: Span {
            lo: page,
            ..area.span
        },
        ..*area
    }
}
