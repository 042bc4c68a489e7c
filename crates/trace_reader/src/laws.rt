//! Laws of the definitions. Nothing runs here.

ghost use Rattle.std.specs.Prelude.{◌≡◌, ◌≤◌, ◌⊎◌, ◌+◌, ◌-◌, ◌^◌, ℕ, List, [], length, take, Ok, Err};
ghost use Rattle.text_lexer.specs.BadLines.{bad_line};
ghost use Rattle.trace_reader.specs.Grammar.{trace_of};
ghost use Rattle.trace_reader.specs.Laws.{IsFirstBadTraceLine};
ghost use Rattle.text_lexer.specs.Lines.{input_limit};
ghost use Rattle.trace_reader.specs.Values.{IsTraceValue};
ghost use Rattle.text_lexer.specs.declared.error.Cause.TheVariants.{Header};
ghost use Rattle.text_lexer.specs.declared.error.BadLine.{BadLine};
ghost use Rattle.trace_reader.specs.declared.limits.TheConstants.{MOST_LINES, MOST_MAPS, MOST_NAMED, MOST_FORKS, GREATEST_THREAD, MOST_FILE_BYTES, MAJOR_DIGITS, MINOR_DIGITS};
ghost use Rattle.trace_reader.specs.declared.builder.TheConstants.{WORDS_BEFORE_PATH};
ghost use Rattle.trace_reader.specs.declared.calls.TheConstants.{WORDS_WITH_NEW};
ghost use Rattle.trace_reader.specs.declared.trace.Trace.{Trace};

/// The line that is named in place of a trace is the first bad one, or line 1 where there are no bytes.
pub fn first_bad_line()
    ensures { (bytes : List ℕ) (first : BadLine) → trace_of bytes ≡ Err first
        → ((bytes ≡ []) × (first ≡ bad_line 1 Header)) ⊎ IsFirstBadTraceLine bytes first }
{}

/// One byte more than the limit settles which trace bytes are, or which line is bad first.
pub fn front_is_enough()
    ensures { (bytes : List ℕ) → trace_of (take (input_limit + 1) bytes) ≡ trace_of bytes }
{}

/// A trace that was read has a valid configuration and at most 1,000,000 lines, its numbers fit their types, and it has no
/// byte past the limit.
pub fn traces_fit()
    ensures value { (bytes : List ℕ) (trace : Trace) → trace_of bytes ≡ Ok trace → IsTraceValue trace }
    ensures within { (bytes : List ℕ) (trace : Trace) → trace_of bytes ≡ Ok trace → length bytes ≤ input_limit }
{}

/// The limits: 1,000,000 lines with a thread, of which 64 read the list of areas, 1,000 name a line and 8 fork; thread 63, files of
/// 2^63 - 1 bytes, 3 and 5 digits of the halves of a device
/// number, 6 words of a `file` line before its path, and 6 of an mremap(2) with a new address.
pub fn trace_limits()
    ensures lines { MOST_LINES ≡ 1000000 }
    ensures maps { MOST_MAPS ≡ 64 }
    ensures named { MOST_NAMED ≡ 1000 }
    ensures forks { MOST_FORKS ≡ 8 }
    ensures thread { GREATEST_THREAD ≡ 63 }
    ensures size { MOST_FILE_BYTES ≡ 2 ^ 63 - 1 }
    ensures major { MAJOR_DIGITS ≡ 3 }
    ensures minor { MINOR_DIGITS ≡ 5 }
    ensures path { WORDS_BEFORE_PATH ≡ 6 }
    ensures new { WORDS_WITH_NEW ≡ 6 }
{}
