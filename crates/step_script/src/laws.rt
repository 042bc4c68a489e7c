//! Laws of the definitions. Nothing runs here.

ghost use Rattle.std.specs.Prelude.{◌≡◌, ◌≤◌, ◌⊎◌, ◌+◌, ℕ, List, length, take, Ok, Err};
ghost use Rattle.text_lexer.specs.Lines.{input_limit};
ghost use Rattle.text_lexer.specs.declared.error.BadLine.{BadLine};
ghost use Rattle.step_script.specs.Grammar.{script_of};
ghost use Rattle.step_script.specs.Laws.{IsFirstBadScriptLine, NamesNoCore};
ghost use Rattle.step_script.specs.Output.{script_output};
ghost use Rattle.step_script.specs.declared.script.TheConstants.{MOST_LINES, MOST_PARTS};

/// The line that is named in place of a script is the first bad one, or line 1 where no line is bad and none names a core.
pub fn first_bad_line()
    ensures { (bytes : List ℕ) (first : BadLine) → script_of bytes ≡ Err first
        → IsFirstBadScriptLine bytes first ⊎ NamesNoCore bytes first }
{}

/// One byte more than the limit of a trace settles the output of bytes, or which line is bad first.
pub fn front_is_enough()
    ensures { (bytes : List ℕ) → script_output (take (input_limit + 1) bytes) ≡ script_output bytes }
{}

/// Bytes that have an output have no byte past the limit of a trace.
pub fn scripts_are_within()
    ensures { (bytes text : List ℕ) → script_output bytes ≡ Ok text → length bytes ≤ input_limit }
{}

/// The limits: 10,000 lines, and 8 readers, slots or rows.
pub fn script_limits()
    ensures lines { MOST_LINES ≡ 10000 }
    ensures parts { MOST_PARTS ≡ 8 }
{}
