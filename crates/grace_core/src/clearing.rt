ghost use Rattle.std.specs.Prelude.{◌≡◌};
ghost use Rattle.grace_core.specs.Steps.{cleared_by_scan, cleared_up_to};

/// What the scans of a reader's pin found.
#[derive(Clone, Copy, Debug, PartialEq, Eq)]
pub struct Clearing {
    /// The number of the tree up to which the reader is cleared: it holds no row that was left out at or before this tree.
    pub cleared: u64,
    /// The pin that the last scan found; 0 before the first scan.
    pub pin: u64,
    /// The number of the tree that was present at the last scan; 0 before the first scan.
    pub tree: u64,
    /// Whether the reader was joined away, so that it no longer counts.
    pub joined: bool,
}

/// A reader that was never scanned.
pub const NEW_CLEARING: Clearing = Clearing {
    cleared: 0,
    pin: 0,
    tree: 0,
    joined: false,
};

impl Clearing {
    /// The same with one scan more, which finds this pin while the tree of this number is present. An even pin clears the reader
    /// up to the present tree. An odd one that is not the pin of the last scan clears it up to the tree that was present then.
    pub fn looked(self, number: u64, pin: u64) -> Clearing
        ensures { result ≡ cleared_by_scan number pin self }
    {
        let cleared = if pin % 2 == 0 {
            number
        } else if pin == self.pin {
            self.cleared
        } else {
            self.tree
        };
        Clearing {
            cleared,
            pin,
            tree: number,
            joined: self.joined,
        }
    }
}

/// The greatest tree, up to this one, up to which every reader is cleared that was not joined away.
pub fn least(number: u64, clearings: &[Clearing]) -> u64
    ensures { result ≡ cleared_up_to number clearings.now }
{
    let mut least = number;
    for clearing in clearings {
        if !clearing.joined {
            least = least.min(clearing.cleared);
        }
    }
    least
}
