//! The limit of areas that so many calls need.
//!
//! The tables of a space are as long as its limit of areas lets them become, and a run of ten lines would pay for 65,530 of them. A call makes at most
//! three areas more, so a space for N calls that begins empty is opened with the limit 3 N + 1 where that is lower: no call comes to it, and each
//! answers and leaves what it does with the higher one. The one area more is for a space without calls, since a limit is at least 1.
//!
//! Three, by mremap(2) to a fixed place, the new range inside one area and the old range inside another (`|` are borders, `n` and `o` the ranges):
//!
//!     before   |..........|      |..........|      two areas
//!                 nnnn              oooo
//!     after    |..|nnnn|..|      |..|    |..|      five: the new range cuts one area in two and is an area of its own,
//!                                                  and the hole that the old one leaves cuts the other
//!
//! All other calls make two at most: mmap(2), mprotect(2) and mseal(2) one at each end of their range, munmap(2) one by its hole. A call that could make
//! more, as one that moves several areas at once, would break this: the law on a call would not be proved with the number as it is.
ghost use Rattle.std.specs.Prelude.{◌≡◌, ◌≤◌, IfOk};
ghost use Rattle.area_rules.specs.Limits.{config_for};

use mm_types::{Config, NoMemory};
use std::alloc::Global;

/// The most areas that a list has more after a call. An mremap(2) to a fixed place makes as many: an area has the new range inside, and one
/// the old range.
pub const AREAS_BY_CALL: u64 = 3;

/// The configuration of a space for so many calls: the given one, with no more areas allowed than the calls can make, and one more. What it takes
/// to open a space goes by the limit of areas. Refused where memory runs out.
pub fn config_for(alloc: Global, config: &Config, calls: u64) -> Result<Config, NoMemory>
    requires { calls ≤ 16777216 }
    ensures { IfOk result (λ few. few ≡ config_for calls config.now) }
{
    let enough = AREAS_BY_CALL * calls + 1;
    let config = config.copy(alloc)?;
    Ok(Config {
        areas: u64::from(config.areas).min(enough) as u32,
        ..config
    })
}
