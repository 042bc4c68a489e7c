//! Laws of the definitions. Nothing runs here.

ghost use Rattle.std.specs.Prelude.{◌≡◌, ◌≤◌, ◌+◌, ℕ, List, length, take, Ok, Err};
ghost use Rattle.text_lexer.specs.Lines.{input_limit, raw_lines};
ghost use Rattle.text_lexer.specs.declared.error.BadLine.{BadLine};
ghost use Rattle.maps_read.specs.declared.maps.MapsLine.{MapsLine};
ghost use Rattle.maps_read.specs.declared.reading.TheConstants.{MAPS_LINE_LIMIT};
ghost use Rattle.maps_read.specs.Laws.{AreRead, IsFirstBadMapsLine};
ghost use Rattle.maps_read.specs.Maps.{IsMaps, maps_of};
ghost use Rattle.maps_read.specs.Query.{query_answer};

/// The line that is named in place of a maps text is the first bad one.
pub fn first_bad_line()
    ensures { (bytes : List ℕ) (first : BadLine) → maps_of bytes ≡ Err first → IsFirstBadMapsLine bytes first }
{}

/// A maps text has one line for each line of its bytes, in their order, and they are in order of their addresses.
pub fn lines_are_read()
    ensures read { (bytes : List ℕ) (lines : List MapsLine) → maps_of bytes ≡ Ok lines → AreRead (raw_lines bytes) lines }
    ensures order { (bytes : List ℕ) (lines : List MapsLine) → maps_of bytes ≡ Ok lines → IsMaps lines }
{}

/// One byte more than the limit of a trace settles the lines of bytes, or which is bad first; and what is printed for an address.
pub fn front_is_enough()
    ensures lines { (bytes : List ℕ) → maps_of (take (input_limit + 1) bytes) ≡ maps_of bytes }
    ensures answer { (address : ℕ) (bytes : List ℕ) → query_answer address (take (input_limit + 1) bytes) ≡ query_answer address bytes }
{}

/// Bytes that are a maps text have no byte past the limit of a trace.
pub fn maps_are_within()
    ensures lines { (bytes : List ℕ) (lines : List MapsLine) → maps_of bytes ≡ Ok lines → length bytes ≤ input_limit }
    ensures answer { (address : ℕ) (bytes text : List ℕ) → query_answer address bytes ≡ Ok text → length bytes ≤ input_limit }
{}

/// A line has at most 8,192 bytes.
pub fn maps_limits()
    ensures { MAPS_LINE_LIMIT ≡ 8192 }
{}
