//! Which maps text bytes are.

ghost use Rattle.std.specs.Prelude.{◌≡◌, ◌&&◌, length, nat_le, nat_lt, IfOk, IfErr, IsOk, Ok, Err};
ghost use Rattle.text_lexer.specs.declared.error.BadLine.{BadLine};
ghost use Rattle.text_lexer.specs.Reading.{GivesTested, IsErrorOf, ReadsAs, line_view};
ghost use Rattle.maps_read.specs.Fields.{with_line_name};
ghost use Rattle.maps_read.specs.Maps.{maps_of, after_maps_line, lines_end, next_maps_line};

use crate::fields::{LineNumbers, line_of, with_name};
use crate::maps::{MapsLine, MapsText};
use mm_types::Text;
use std::alloc::Global;
use text_lexer::{
    CallError, Cause, INPUT_LIMIT, RawLine, ReadError, error_at, first_line, text_within,
};

/// The most bytes of a line of a maps text, its newline not counted.
pub const MAPS_LINE_LIMIT: usize = 8192;

/// Reads bytes as a maps text.
///
/// `ReadError::Bad` comes exactly where the bytes are none, with their first bad line and its cause: `TooLong`, `NoEnd`, `Utf8`,
/// `MapsLine` or `MapsOrder`. `ReadError::NoMemory` comes where memory runs out: no bytes take none, nor does line 1 where it is bad.
#[tactic(auto, unfolding(crate::specs::Maps::maps_of))]
pub fn read_maps(alloc: Global, bytes: &[u8]) -> Result<MapsText, ReadError>
    ensures maps { IfOk result (λ maps. maps_of bytes.now ≡ Ok maps) }
    ensures bad { IfErr result (λ error. IsErrorOf error (maps_of bytes.now)) }
    ensures empty { length bytes.now ≡ 0 → IsOk result }
    ensures first { (first : BadLine) → maps_of bytes.now ≡ Err first → first.line ≡ 1 → result ≡ Err (ReadError.Bad first) }
{
    let mut lines = Vec::new(alloc);
    let mut rest = bytes;
    let mut number = 1;
    while !rest.is_empty() {
        let (line, after) = first_line(rest, number, bytes.len() - rest.len());
        if let Err(error) = push_line(alloc, &mut lines, &line) {
            return Err(error_at(number, error));
        }
        rest = after;
        number += 1;
    }
    Ok(MapsText::of(lines))
}

/// Reads a line behind those so far. All tests of the line come before its name takes memory.
#[tactic(auto, unfolding(crate::specs::Maps::after_maps_line))]
fn push_line(alloc: Global, lines: &mut Vec<MapsLine>, line: &RawLine) -> Result<(), CallError>
    ensures { GivesTested (λ _. lines.new.items) result (after_maps_line lines.old.items (line_view line.now)) }
{
    let (numbers, name) = next_line(end_of(lines), line)?;
    let name = Text::of(String::from_str(alloc, name)?);
    lines.push(with_name(numbers, name))?;
    Ok(())
}

/// What the line that a raw line is says, behind lines that end at this address.
#[tactic(auto, unfolding(crate::specs::Maps::next_maps_line, text_lexer::specs::Lines::input_limit))]
fn next_line<'a>(end: u64, raw: &RawLine<'a>) -> Result<(LineNumbers, &'a str), Cause>
    ensures { ReadsAs (λ found. with_line_name found.0 found.1.now) result (next_maps_line end (line_view raw.now)) }
{
    let text = text_within(raw, MAPS_LINE_LIMIT, INPUT_LIMIT)?;
    let (numbers, name) = line_of(text)?;
    if is_in_order(end, &numbers) {
        Ok((numbers, name))
    } else {
        Err(Cause::MapsOrder)
    }
}

/// Where the last of these lines ends, and 0 where there is none.
fn end_of(lines: &[MapsLine]) -> u64
    ensures { result ≡ lines_end lines.now }
{
    match lines.last() {
        Some(line) => line.hi,
        None => 0,
    }
}

/// Whether a line begins below its end, and not below the end of the lines before it.
fn is_in_order(end: u64, line: &LineNumbers) -> bool
    ensures { result ≡ (nat_lt line.now.lo line.now.hi && nat_le end line.now.lo) }
{
    line.lo < line.hi && end <= line.lo
}
