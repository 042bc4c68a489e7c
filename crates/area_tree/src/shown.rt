//! What slots show.

use mm_types::{Attr, Prot, Record, Span};

/// No access.
const NONE: Prot = Prot {
    read: false,
    write: false,
    exec: false,
};

/// What a slot shows before it showed an area.
pub(crate) const NO_AREA: Record = Record {
    span: Span { lo: 0, hi: 0 },
    attr: Attr {
        prot: NONE,
        most: NONE,
        shared: false,
        grows: false,
        sealed: false,
        heap: false,
    },
    object: 0,
    offset: 0,
};

/// An area, and the slot that shows it.
#[derive(Clone, Copy, Debug, PartialEq, Eq)]
pub struct ShownArea {
    pub slot: u32,
    pub area: Record,
}
