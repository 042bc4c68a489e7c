//! What becomes of the areas of a list in a call.
ghost use Rattle.std.specs.Prelude.{◌≡◌};
ghost use Rattle.split_merge.specs.Internal.Becoming.{lower_span, upper_span};

use area_list::AttrChange;
use mm_types::Span;

/// What becomes of the pages of a span, or of two.
#[derive(Clone, Copy)]
pub(crate) enum Becoming {
    /// The pages of the two spans, which may be one, go.
    Outside { low: Span, high: Span },
    /// The attributes of the pages of the span change.
    Changed { span: Span, change: AttrChange },
}

impl Becoming {
    /// The lower of the two spans.
    pub(crate) fn low(&self) -> Span
        ensures { result ≡ lower_span self.now }
    {
        match self {
            Becoming::Outside { low, .. } => *low,
            Becoming::Changed { span, .. } => *span,
        }
    }

    /// The upper of the two spans.
    pub(crate) fn high(&self) -> Span
        ensures { result ≡ upper_span self.now }
    {
        match self {
            Becoming::Outside { high, .. } => *high,
            Becoming::Changed { span, .. } => *span,
        }
    }
}
