//! New attributes of areas.
ghost use Rattle.std.specs.Prelude.{◌≡◌};
ghost use Rattle.area_list.specs.Attributes.{attr_after, with_attr};

use mm_types::{Attr, Prot, Record};

/// A change of the attributes of mapped pages.
#[derive(Clone, Copy, Debug, PartialEq, Eq)]
pub enum AttrChange {
    /// The pages have this protection from then on, as after mprotect(2).
    Protection(Prot),
    /// The pages are sealed, as after mseal(2).
    Seal,
}

impl AttrChange {
    ghost use Rattle.std.specs.Prelude.{◌≡◌};
    ghost use Rattle.area_list.specs.Attributes.{attr_after};

    /// The attributes after the change.
    pub fn of(self, attr: Attr) -> Attr
        ensures { result ≡ attr_after self attr }
    {
        match self {
            AttrChange::Protection(prot) => Attr { prot, ..attr },
            AttrChange::Seal => Attr {
                sealed: true,
                ..attr
            },
        }
    }
}

/// The area with its attributes changed.
pub fn with_attr(change: AttrChange, area: &Record) -> Record
    ensures { result ≡ with_attr change area.now }
{
    Record {
        attr: change.of(area.attr),
        ..*area
    }
}
