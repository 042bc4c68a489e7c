ghost use Rattle.std.specs.Prelude.{◌≡◌, Err};
ghost use Rattle.text_lexer.specs.declared.error.BadLine.{BadLine};
ghost use Rattle.text_lexer.specs.BadLines.{bad_line};
ghost use Rattle.trace_reader.specs.Grammar.{trace_of, lines_read};
ghost use Rattle.trace_reader.specs.Reading.{GivesLines, GivesTrace};

use crate::builder::TraceBuilder;
use crate::trace::Trace;
use std::alloc::Global;
use text_lexer::{BadLine, Cause, ReadError, error_at, first_line};

/// Says that this line is the first bad one.
fn bad(line: u64, cause: Cause) -> ReadError
    ensures { result ≡ ReadError.Bad (bad_line line cause) }
{
    ReadError::Bad(BadLine { line, cause })
}

/// What the lines of some bytes say, or the first of them that is bad. Line 1 is told whatever the memory.
#[tactic(auto, unfolding(crate::specs::Grammar::lines_read))]
fn read_lines(alloc: Global, bytes: &[u8]) -> Result<TraceBuilder, ReadError>
    ensures lines { GivesLines result (lines_read bytes.now) }
    ensures first { (first : BadLine) → lines_read bytes.now ≡ Err first → first.line ≡ 1 → result ≡ Err (ReadError.Bad first) }
{
    let mut builder = TraceBuilder::new(alloc);
    let mut words = Vec::new(alloc);
    let mut rest = bytes;
    let mut number = 1;
    while !rest.is_empty() {
        let (line, after) = first_line(rest, number, bytes.len() - rest.len());
        if let Err(error) = builder.add(alloc, &mut words, &line) {
            return Err(error_at(number, error));
        }
        rest = after;
        number += 1;
    }
    Ok(builder)
}

/// The trace that the bytes are, or the first bad line and its cause. Where line 1 is named, as with no bytes, no memory is taken.
#[tactic(auto, unfolding(crate::specs::Grammar::trace_of))]
pub fn read(alloc: Global, bytes: &[u8]) -> Result<Trace, ReadError>
    ensures trace { GivesTrace result (trace_of bytes.now) }
    ensures first { (first : BadLine) → trace_of bytes.now ≡ Err first → first.line ≡ 1 → result ≡ Err (ReadError.Bad first) }
{
    if bytes.is_empty() {
        return Err(bad(1, Cause::Header));
    }
    let builder = read_lines(alloc, bytes)?;
    Ok(builder.build())
}
