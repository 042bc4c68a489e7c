//! Laws over the definitions: empty functions whose contracts are proved.

ghost use Rattle.std.specs.Prelude.{◌≡◌, Ok};
ghost use Rattle.trace_reader.specs.Values.{IsLineValue};
ghost use Rattle.trace_reader.specs.declared.trace.TraceLine.{TraceLine};
ghost use Rattle.trace_reader.specs.LineTexts.{HasNames, line_read, text_of_line};

/// Each line is read as it was printed: a call with any of its flags, a page fault, a read of the list, a fork, and the line that
/// any of these names.
pub fn printed_lines_are_read()
    ensures { (line : TraceLine) → IsLineValue line → HasNames line.op → line_read line.number (text_of_line line) ≡ Ok line }
{}
