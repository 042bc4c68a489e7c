//! Laws of the definitions. Nothing runs here.

ghost use Rattle.std.specs.Prelude.{◌≡◌, ◌≤◌, ◌+◌, ◌↔◌, ℕ, List, [], ◌∷◌, ◌++◌, true, length, take, Ok};
ghost use Rattle.mm_types.specs.declared.area.Record.{Record};
ghost use Rattle.mm_types.specs.declared.files.FileRow.{FileRow};
ghost use Rattle.mm_types.specs.Config.{default_config};
ghost use Rattle.area_list.specs.Areas.{IsSound};
ghost use Rattle.text_lexer.specs.Lines.{input_limit};
ghost use Rattle.maps_read.specs.declared.file_lines.TheConstants.{FIRST_DESCRIPTOR};
ghost use Rattle.maps_read.specs.RetraceLaws.{MakesMaps};
ghost use Rattle.maps_read.specs.Retracing.{may_follow, retraced_of};

/// The trace that was made of a maps text makes this text: it maps areas one after another, each of which comes to lie where it is
/// asked for, and their maps text is the bytes that were read.
pub fn retraced_text_makes_the_maps()
    ensures { (bytes text : List ℕ) → retraced_of bytes ≡ Ok text → MakesMaps bytes text }
{}

/// An area may follow a sound list of the default configuration exactly where the list is sound with it.
pub fn sound_lists_go_on()
    ensures { (files : List FileRow) (areas : List Record) (area : Record) → IsSound (default_config files) areas
        → (may_follow areas area ≡ true) ↔ IsSound (default_config files) (areas ++ area ∷ []) }
{}

/// One byte more than the limit of a trace settles which trace makes bytes, or which of their lines is bad first.
pub fn retraced_front_is_enough()
    ensures { (bytes : List ℕ) → retraced_of (take (input_limit + 1) bytes) ≡ retraced_of bytes }
{}

/// Bytes that a trace makes have no byte past the limit of a trace.
pub fn retraced_maps_are_within()
    ensures { (bytes text : List ℕ) → retraced_of bytes ≡ Ok text → length bytes ≤ input_limit }
{}

/// The descriptor of the first file.
pub fn first_descriptor()
    ensures { FIRST_DESCRIPTOR ≡ 3 }
{}
