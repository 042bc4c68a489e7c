//! What is printed for an address.

ghost use Rattle.std.specs.Prelude.{◌≡◌, ◌<◌, IfOk, IfErr, IfSome, Ok, Err, length, slice_get};
ghost use Rattle.text_lexer.specs.Lines.{raw_lines};
ghost use Rattle.text_lexer.specs.declared.error.BadLine.{BadLine};
ghost use Rattle.maps_read.specs.Maps.{maps_of};
ghost use Rattle.maps_read.specs.Query.{query_answer, query_text};
ghost use Rattle.text_lexer.specs.Reading.{IsErrorOf};

use crate::maps::MapsText;
use crate::querying::query;
use crate::reading::read_maps;
use maps_print::without_spaces_after;
use mm_types::{NoMemory, Steps};
use std::alloc::Global;
use text_lexer::{ReadError, first_line};

/// The name of the counter of `answer_of`.
struct Comparisons;

/// Reads bytes as a maps text, and prints the first line that ends above an address, in bytes: the line as it stands there,
/// without the spaces at its end, and a newline; or `none` and a newline where no line does.
///
/// `ReadError::Bad` comes exactly where the bytes are no maps text, with their first bad line and its cause, as `read_maps` has
/// it. `ReadError::NoMemory` comes where memory runs out: not where line 1 is bad.
pub fn answer_of(alloc: Global, bytes: &[u8], address: u64) -> Result<Vec<u8>, ReadError>
    ensures text { IfOk result (λ text. query_answer address bytes.now ≡ Ok text.items) }
    ensures bad { IfErr result (λ error. IsErrorOf error (query_answer address bytes.now)) }
    ensures first { (first : BadLine) → maps_of bytes.now ≡ Err first → first.line ≡ 1 → result ≡ Err (ReadError.Bad first) }
{
    answered(alloc, bytes, read_maps(alloc, bytes), address)
}

/// What is printed for an address, where the bytes were read as this maps text; else why they were not.
#[tactic(auto, unfolding(crate::specs::Query::query_answer))]
fn answered(
    alloc: Global,
    bytes: &[u8],
    read: Result<MapsText, ReadError>,
    address: u64,
) -> Result<Vec<u8>, ReadError>
    requires maps { IfOk read (λ maps. maps_of bytes.now ≡ Ok maps) }
    requires bad { IfErr read (λ error. IsErrorOf error (maps_of bytes.now)) }
    ensures text { IfOk result (λ text. query_answer address bytes.now ≡ Ok text.items) }
    ensures bad { IfErr result (λ error. IsErrorOf error (query_answer address bytes.now)) }
    ensures unread { IfErr read (λ error. result ≡ Err error) }
{
    let maps = read?;
    let mut steps = Steps::<Comparisons>::new();
    let place = query(&maps, address, &mut steps);
    Ok(query_text(alloc, bytes, place)?)
}

/// The line of the bytes that has so many lines before it, as it stands there, without the spaces at its end, and a newline; or
/// `none` and a newline. The place is one that `query` found among the lines of these bytes.
#[tactic(auto, unfolding(crate::specs::Query::query_text))]
pub fn query_text(alloc: Global, bytes: &[u8], place: Option<u32>) -> Result<Vec<u8>, NoMemory>
    requires { IfSome place (λ place. place < length (raw_lines bytes.now)) }
    ensures { IfOk result (λ text. text.items ≡ query_text bytes.now place) }
{
    let line = match place {
        Some(place) => without_spaces_after(text_at(bytes, place)),
        None => b"none",
    };
    let mut text = Vec::new(alloc);
    text.extend_from_slice(line)?;
    text.push(b'\n')?;
    Ok(text)
}

/// The text of the line that has so many lines before it.
fn text_at(bytes: &[u8], place: u32) -> &[u8]
    requires { place < length (raw_lines bytes.now) }
    ensures { IfSome (slice_get (raw_lines bytes.now) place) (λ line. result.now ≡ line.text) }
{
    let mut rest = bytes;
    for passed in 0..place {
        let (_, after) = first_line(rest, u64::from(passed) + 1, bytes.len() - rest.len());
        rest = after;
    }
    let (line, _) = first_line(rest, u64::from(place) + 1, bytes.len() - rest.len());
    line.text
}
