//! Why a text is read no further.
ghost use Rattle.std.specs.Prelude.{◌≡◌};

use mm_types::NoMemory;

/// A line is bad, or memory ran out.
#[derive(Debug, Drop)]
pub(crate) enum Stop {
    /// The number of the first bad line, counted from 1.
    Bad(u64),
    /// Out of memory.
    NoMemory,
}

impl From<NoMemory> for Stop {
    ghost use Rattle.std.specs.Prelude.{◌≡◌};
    ghost use Rattle.output.specs.declared.stop.Stop.TheVariants as stops;

    ghost from_gives = { λ _ stop. stop ≡ stops.NoMemory };

    fn from(_error: NoMemory) -> Stop {
        Stop::NoMemory
    }
}
