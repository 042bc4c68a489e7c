//! Whether the lines of a trace are numbered.
ghost use Rattle.std.specs.Prelude.{◌↔◌, IsTrue};
ghost use Rattle.trace_reader.specs.Values.{AreNumbered};

use trace_reader::TraceLine;

/// Whether the numbers of lines rise.
pub fn are_numbered(lines: &[TraceLine]) -> bool
    ensures { IsTrue result ↔ AreNumbered lines.now }
{
    for place in 1..lines.len() {
        if lines[place].number <= lines[place - 1].number {
            return false;
        }
    }
    true
}
