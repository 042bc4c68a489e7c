use mm_types::Text;
use std::alloc::AllocError;

/// Why a text of flags was refused, with the word where it stands in the text.
#[derive(Clone, Copy, Debug, PartialEq, Eq)]
pub enum BadWord<'a> {
    /// No flag of the table has this name.
    Unknown(&'a str),
    /// The name came before.
    Twice(&'a str),
}

/// Why a text of flags was refused, with a copy of the word.
#[derive(Debug, Drop)]
pub enum NameError {
    /// No flag of the table has this name.
    Unknown(Text),
    /// The name came before.
    Twice(Text),
    /// No memory was left to keep the name that was refused.
    NoMemory,
}

impl From<AllocError> for NameError {
    ghost use Rattle.std.specs.Prelude.{◌≡◌};
    ghost use Rattle.flag_table.specs.declared.error.NameError.TheVariants.{NoMemory};

    ghost from_gives = { λ _ error. error ≡ NoMemory };

    fn from(_error: AllocError) -> NameError {
        NameError::NoMemory
    }
}
