//! The trace that makes a maps text.

ghost use Rattle.std.specs.Prelude.{◌≡◌, length, IfOk, IfErr, IsOk, IsOkAnd, Ok, Err, string_bytes};
ghost use Rattle.maps_read.specs.Maps.{maps_of};
ghost use Rattle.text_lexer.specs.declared.error.BadLine.{BadLine};
ghost use Rattle.text_lexer.specs.Reading.{IsErrorOf};
ghost use Rattle.maps_read.specs.Retracing.{lines_taken, taken_text, retraced_of};
ghost use Rattle.maps_read.specs.Internal.Taking.{AreLinesTaken, what_taken};

use crate::file_lines::{FIRST_DESCRIPTOR, HEADER, push_file_line};
use crate::mappings::push_mapping;
use crate::taking::Taken;
use crate::{MapsLine, MapsText, read_maps};
use mm_types::NoMemory;
use std::alloc::Global;
use text_lexer::{ReadError, error_at, first_line};

/// Reads bytes as a maps text, and makes the trace that ends with this text.
///
/// `ReadError::Bad` comes exactly where the bytes are no maps text, with their first bad line and its cause, as `read_maps` has
/// it, or else where one of the lines is not ours, with the first of these and `Cause::NotOurs`. `ReadError::NoMemory` comes
/// where memory runs out: not where line 1 is none of a maps text.
pub fn retraced(alloc: Global, bytes: &[u8]) -> Result<Vec<u8>, ReadError>
    ensures text { IfOk result (λ text. retraced_of bytes.now ≡ Ok text.items) }
    ensures bad { IfErr result (λ error. IsErrorOf error (retraced_of bytes.now)) }
    ensures first { (first : BadLine) → maps_of bytes.now ≡ Err first → first.line ≡ 1 → result ≡ Err (ReadError.Bad first) }
{
    retrace_read(alloc, bytes, read_maps(alloc, bytes))
}

/// The trace that ends with the maps text that the bytes were read as; else why they were not.
#[tactic(auto, unfolding(crate::specs::Retracing::retraced_of))]
fn retrace_read(
    alloc: Global,
    bytes: &[u8],
    read: Result<MapsText, ReadError>,
) -> Result<Vec<u8>, ReadError>
    requires maps { IfOk read (λ maps. maps_of bytes.now ≡ Ok maps) }
    requires bad { IfErr read (λ error. IsErrorOf error (maps_of bytes.now)) }
    ensures text { IfOk result (λ text. retraced_of bytes.now ≡ Ok text.items) }
    ensures bad { IfErr result (λ error. IsErrorOf error (retraced_of bytes.now)) }
    ensures unread { IfErr read (λ error. result ≡ Err error) }
{
    let maps = read?;
    retrace(alloc, bytes, &maps)
}

/// The trace that ends with a maps text that was read from these bytes.
///
/// `ReadError::Bad` comes exactly where one of the lines is not ours, with the first of these and `Cause::NotOurs`.
/// `ReadError::NoMemory` comes where memory runs out.
pub fn retrace(alloc: Global, bytes: &[u8], maps: &MapsText) -> Result<Vec<u8>, ReadError>
    requires { maps_of bytes.now ≡ Ok maps.now }
    ensures text { IfOk result (λ text. retraced_of bytes.now ≡ Ok text.items) }
    ensures bad { IfErr result (λ error. IsErrorOf error (retraced_of bytes.now)) }
{
    text_taken(alloc, take_lines(alloc, bytes, maps.items()))
}

/// The trace of what was taken of the lines; else which of them is not ours.
fn text_taken(alloc: Global, taken: Result<Taken<'_>, ReadError>) -> Result<Vec<u8>, ReadError>
    requires { IfOk taken (λ taken. AreLinesTaken (what_taken taken)) }
    ensures text { IfOk result (λ text. IsOkAnd taken.entry (λ taken. text.items ≡ taken_text (what_taken taken))) }
    ensures untaken { IfErr taken.entry (λ error. result ≡ Err error) }
    ensures memory { IsOk taken.entry → IfErr result (λ error. error ≡ ReadError.NoMemory) }
{
    let taken = taken?;
    match taken_text(alloc, &taken) {
        Ok(text) => Ok(text.into_bytes()),
        Err(NoMemory) => Err(ReadError::NoMemory),
    }
}

/// Takes the lines of a maps text, which were read from these bytes. No lines take no memory.
#[tactic(auto, unfolding(crate::specs::Retracing::lines_taken))]
fn take_lines<'a>(
    alloc: Global,
    bytes: &[u8],
    lines: &'a [MapsLine],
) -> Result<Taken<'a>, ReadError>
    requires { maps_of bytes.now ≡ Ok lines.now }
    ensures taken { IfOk result (λ taken. lines_taken bytes.now lines.now ≡ Ok (what_taken taken)) }
    ensures right { IfOk result (λ taken. AreLinesTaken (what_taken taken)) }
    ensures bad { IfErr result (λ error. IsErrorOf error (lines_taken bytes.now lines.now)) }
    ensures empty { length lines.now ≡ 0 → IsOk result }
{
    let mut taken = Taken::new(alloc);
    let mut rest = bytes;
    let mut number = 1;
    for line in lines {
        let (raw, after) = first_line(rest, number, bytes.len() - rest.len());
        if let Err(error) = taken.add(alloc, line, raw.text) {
            return Err(error_at(number, error));
        }
        rest = after;
        number += 1;
    }
    Ok(taken)
}

/// The trace of what was taken.
#[tactic(auto, unfolding(crate::specs::Retracing::taken_text))]
fn taken_text(alloc: Global, taken: &Taken) -> Result<String, NoMemory>
    requires { AreLinesTaken (what_taken taken.now) }
    ensures { IfOk result (λ text. string_bytes text ≡ taken_text (what_taken taken.now)) }
{
    let mut text = String::new(alloc);
    text.push_str(HEADER)?;
    let mut fd = FIRST_DESCRIPTOR;
    for line in &taken.named {
        push_file_line(&mut text, fd, line)?;
        fd += 1;
    }
    for area in &taken.areas {
        push_mapping(alloc, &mut text, area)?;
    }
    Ok(text)
}
