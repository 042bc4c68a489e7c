//! How a read or a write can fail.

ghost use Rattle.std.specs.Prelude.{◌≡◌};
ghost use Rattle.io_edge.specs.declared.error.GiveError.TheVariants.{NoMemory as no_memory};

use std::alloc::AllocError;

/// A source's only failure: it gave no bytes, for a reason outside the program.
#[derive(Clone, Copy, Debug, PartialEq, Eq)]
pub struct Failed;

/// Why a sink took no byte.
#[derive(Clone, Copy, Debug, PartialEq, Eq)]
pub enum GiveError {
    /// The outside refused the bytes.
    Failed,
    /// A sink that keeps its bytes in memory ran out of it.
    NoMemory,
}

impl From<AllocError> for GiveError {
    ghost from_gives = { λ _ fault. fault ≡ no_memory };

    fn from(_error: AllocError) -> GiveError {
        GiveError::NoMemory
    }
}
