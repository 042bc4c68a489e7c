//! A maps text as a value.

ghost use Rattle.std.specs.Prelude.{◌≡◌, ◌<◌, ◌+◌, IfSome, length, nat_lt, slice_get};
ghost use Rattle.maps_read.specs.Maps.{IsMaps};

use mm_types::{Prot, Steps, Text};
use std::marker::Model;

/// A line of a maps text: the addresses from `lo` up to but not including `hi`, in bytes, and what is mapped there.
#[derive(Debug, Drop)]
pub struct MapsLine {
    pub lo: u64,
    pub hi: u64,
    /// What is allowed.
    pub prot: Prot,
    /// Whether it is shared, and not private.
    pub shared: bool,
    /// Where within what it maps the line begins, in bytes.
    pub offset: u64,
    pub major: u32,
    pub minor: u32,
    pub inode: u64,
    /// The name, which is empty where the line has none.
    pub name: Text,
}

/// The lines of a maps text, seen by contracts as a list. There are fewer than 2^32, each `lo` is below its `hi`, and no line
/// begins below the end of one before it.
#[derive(Debug, Drop)]
pub struct MapsText {
    items: Vec<MapsLine>,
}

impl Model for MapsText {
    ghost use Rattle.std.specs.Prelude.{List};
    ghost use Rattle.maps_read.specs.declared.maps.MapsLine.{MapsLine};

    ghost Value = { List MapsLine };

    ghost use Rattle.maps_read.specs.Maps.{IsMaps};

    ghost view = { λ maps. maps.items.items };

    ghost invariant = { λ maps. IsMaps maps.items.items };
}

impl MapsText {
    /// Owns lines that are in order.
    pub(crate) fn of(items: Vec<MapsLine>) -> MapsText
        requires { IsMaps items.items }
        ensures { result ≡ items.items }
    {
        MapsText { items }
    }

    /// Shows the lines.
    pub fn items(&self) -> &[MapsLine]
        ensures lines { result.now ≡ self.now }
        ensures order { IsMaps self.now }
    {
        self.items.as_slice()
    }

    /// How many lines there are.
    pub fn count(&self) -> u32
        ensures lines { result ≡ length self.now }
        ensures order { IsMaps self.now }
    {
        self.items.len() as u32
    }

    /// Compares one line, counted from 0, with an address: whether the line ends above it. Counts one step.
    pub fn above<L>(&self, place: u32, address: u64, steps: &mut Steps<L>) -> bool
        requires { place < length self.now }
        ensures answer { IfSome (slice_get self.now place) (λ line. result ≡ nat_lt address line.hi) }
        ensures step { steps.new ≡ steps.old + 1 }
    {
        steps.tick();
        address < self.items[place as usize].hi
    }
}
