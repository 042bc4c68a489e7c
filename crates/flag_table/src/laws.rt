//! Laws over the definitions: empty functions whose contracts are proved.

ghost use Rattle.std.specs.Prelude.{◌≡◌, ◌↔◌, ℕ, List, Ok, Err};
ghost use Rattle.flag_table.specs.Laws.{IsSoundTable, IsFlagText, HasBadWord};
ghost use Rattle.flag_table.specs.Printing.{printed};
ghost use Rattle.flag_table.specs.Reading.{reading};
ghost use Rattle.flag_table.specs.declared.error.NameError.{NameError};
ghost use Rattle.flag_table.specs.Tables.{FlagNames, HasRows, prot_flags, map_flags, mremap_flags};

/// In each of the three tables names and bits are told apart.
pub fn tables_are_sound()
    ensures prot { IsSoundTable prot_flags }
    ensures map { IsSoundTable map_flags }
    ensures mremap { IsSoundTable mremap_flags }
{}

/// What a sound table prints reads as the bits that were printed.
pub fn printed_reads_back()
    ensures { (table : FlagNames) (bits : ℕ) → IsSoundTable table → HasRows table bits
        → reading table (printed table bits) ≡ Ok bits }
{}

/// What a sound table reads is a text for no flag, or the names of different flags, and nothing else is.
pub fn flag_texts_are_read()
    ensures { (table : FlagNames) (text : List ℕ) (bits : ℕ) → IsSoundTable table
        → (reading table text ≡ Ok bits) ↔ IsFlagText table text bits }
{}

/// A sound table refuses a text for its first bad word, and for that alone.
pub fn bad_words_are_refused()
    ensures { (table : FlagNames) (text : List ℕ) (error : NameError) → IsSoundTable table
        → (reading table text ≡ Err error) ↔ HasBadWord table text error }
{}
