//! The lines of an input as they stand in its bytes.

ghost use Rattle.std.specs.Prelude.{◌≡◌, ◌<◌, ◌+◌, ◌-◌, ◌∷◌, length};
ghost use Rattle.text_lexer.specs.Lines.{lines_from, is_longer_than, text_of, text_within};
ghost use Rattle.text_lexer.specs.Reading.{ReadsAs, line_view};

use crate::error::Cause;
use crate::limits::{INPUT_LIMIT, LINE_LIMIT};
use memchr::memchr;

/// A line of an input, as it stands in its bytes.
#[derive(Clone, Copy, Debug)]
pub struct RawLine<'a> {
    /// Its number, counted from 1.
    pub number: u64,
    /// Its bytes, without the newline.
    pub text: &'a [u8],
    /// The offset of its first byte in the input.
    pub start: usize,
    /// Whether a newline ends it.
    pub ended: bool,
}

/// The first line of bytes that are not empty, and what follows it. The line has this number, and starts at this offset.
pub fn first_line(bytes: &[u8], number: u64, start: usize) -> (RawLine<'_>, &[u8])
    requires { 0 < length bytes.now }
    ensures line { lines_from number start bytes.now
        ≡ line_view result.0 ∷ lines_from (number + 1) (start + (length bytes.now - length result.1.now)) result.1.now }
    ensures number { result.0.number ≡ number }
    ensures shorter { length result.1.now < length bytes.now }
{
    match memchr(b'\n', bytes) {
        Some(len) => {
            let line = RawLine {
                number,
                text: &bytes[..len],
                start,
                ended: true,
            };
            (line, &bytes[len + 1..])
        }
        None => {
            let line = RawLine {
                number,
                text: bytes,
                start,
                ended: false,
            };
            (line, &bytes[bytes.len()..])
        }
    }
}

/// Whether a line has too many bytes, or its newline would be past the limit of the file.
#[tactic(auto, unfolding(crate::specs::Lines::is_longer_than))]
fn is_longer_than(line: &RawLine, line_limit: usize, file_limit: usize) -> bool
    ensures { result ≡ is_longer_than line_limit file_limit (line_view line.now) }
{
    let len = line.text.len();
    line_limit < len || file_limit.saturating_sub(line.start) <= len
}

/// The text of a line of at most `line_limit` bytes, its newline not counted, that ends within the first `file_limit` bytes of its
/// input and is UTF-8. Else the cause of the first of these tests that fails: `TooLong`, `NoEnd` or `Utf8`.
#[tactic(auto, unfolding(crate::specs::Lines::text_within))]
pub fn text_within<'a>(
    line: &RawLine<'a>,
    line_limit: usize,
    file_limit: usize,
) -> Result<&'a str, Cause>
    ensures { ReadsAs (λ text. text.now) result (text_within line_limit file_limit (line_view line.now)) }
{
    if is_longer_than(line, line_limit, file_limit) {
        return Err(Cause::TooLong);
    }
    if !line.ended {
        return Err(Cause::NoEnd);
    }
    match str::from_utf8(line.text) {
        Ok(text) => Ok(text),
        Err(_) => Err(Cause::Utf8),
    }
}

/// The text of a line of a trace or of a script: `text_within` its limits, `LINE_LIMIT` and `INPUT_LIMIT`.
#[tactic(auto, unfolding(crate::specs::Lines::input_limit))]
pub fn text_of<'a>(line: &RawLine<'a>) -> Result<&'a str, Cause>
    ensures { ReadsAs (λ text. text.now) result (text_of (line_view line.now)) }
{
    text_within(line, LINE_LIMIT, INPUT_LIMIT)
}
