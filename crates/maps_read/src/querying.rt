//! The line that an address asks for.

ghost use Rattle.std.specs.Prelude.{◌≡◌, ◌≤◌, ◌+◌, ◌*◌, ◌^◌, ℕ, length};
ghost use Rattle.maps_read.specs.Query.{first_above};

use crate::maps::MapsText;
use mm_types::Steps;

/// The place, counted from 0, of the first line that ends above an address: this line covers the address, or is the next one.
/// There is none exactly where no line ends above it.
///
/// It compares lines by `MapsText::above` alone, `count` of them where `2^count` is at most twice the number of lines and one.
pub fn query<L>(maps: &MapsText, address: u64, steps: &mut Steps<L>) -> Option<u32>
    ensures first { result ≡ first_above address maps.now }
    ensures steps { (count : ℕ) × (steps.new ≡ steps.old + count) × (2 ^ count ≤ 2 * length maps.now + 1) }
{
    let count = maps.count();
    let mut first = 0;
    let mut size = count;
    while 0 < size {
        let half = size / 2;
        let middle = first + half;
        if maps.above(middle, address, steps) {
            size = half;
        } else {
            first = middle + 1;
            size -= half + 1;
        }
    }
    (first < count).then_some(first)
}
