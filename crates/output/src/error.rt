//! Why printing ended early.
ghost use Rattle.std.specs.Prelude.{◌≡◌};
ghost use Rattle.output.specs.declared.error.PrintError.TheVariants.{NoMemory as no_memory};

use mm_types::NoMemory;
use std::alloc::AllocError;

/// Why not all of a text was given.
#[derive(Clone, Copy, Debug, PartialEq, Eq)]
pub enum PrintError {
    /// The sink failed.
    WriteFault,
    /// Memory ran out, here or in the sink.
    NoMemory,
}

impl From<NoMemory> for PrintError {
    ghost from_gives = { λ _ error. error ≡ no_memory };

    fn from(_error: NoMemory) -> PrintError {
        PrintError::NoMemory
    }
}

impl From<AllocError> for PrintError {
    ghost from_gives = { λ _ error. error ≡ no_memory };

    fn from(_error: AllocError) -> PrintError {
        PrintError::NoMemory
    }
}
