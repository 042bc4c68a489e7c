//! The trace and the text that the bytes of a check are.
ghost use Rattle.std.specs.Prelude.{◌≡◌, ◌+◌, ◌≤◌, length, Err, IfSome, IsErrOf, Result};
ghost use Rattle.text_lexer.specs.declared.error.Cause.TheVariants.{Header};
ghost use Rattle.text_lexer.specs.BadLines.{bad_line};
ghost use Rattle.text_lexer.specs.Reading.{IsErrorOf};
ghost use Rattle.trace_reader.specs.Grammar.{trace_of};
ghost use Rattle.trace_reader.specs.Reading.{GivesTrace};
ghost use Rattle.text_lexer.specs.declared.error.BadLine.{BadLine};
ghost use Rattle.trace_reader.specs.declared.trace.Trace.{Trace};
ghost use Rattle.output.specs.Internal.Forks.{without_forks};
ghost use Rattle.output.specs.Input.{after_trace, input_of, line_at, mark_offset, plain_trace_of, with_given};
ghost use Rattle.output.specs.Reading.{GivesInput};

use crate::forks::first_fork;
use std::alloc::Global;
use text_lexer::{BadLine, Cause, ReadError};
use trace_reader::{Trace, read};

/// The line behind a trace, with its newline.
const MARK: &[u8] = b"==\n";

/// The most bytes behind the line `==`.
pub const TEXT_LIMIT: usize = 268_435_456; // four times the bytes of a trace

/// A trace, and the text that is judged.
#[derive(Drop)]
pub(crate) struct Input<'a> {
    pub(crate) trace: Trace,
    pub(crate) given: &'a [u8],
}

/// The trace and the text that the bytes are, or the first bad line and its cause. No bytes take no memory.
#[tactic(auto, unfolding(crate::specs::Input::input_of), using(crate::proofs::Inputs::empty_input))]
pub(crate) fn read_input(alloc: Global, bytes: &[u8]) -> Result<Input<'_>, ReadError>
    ensures input { GivesInput result (input_of bytes.now) }
    ensures empty { length bytes.now ≡ 0 → result ≡ Err (ReadError.Bad (bad_line 1 Header)) }
{
    if bytes.is_empty() {
        return Err(ReadError::Bad(BadLine {
            line: 1,
            cause: Cause::Header,
        }));
    }
    match mark_of(bytes) {
        Some(place) => {
            let front = &bytes[..place];
            with_given(plain_trace(read(alloc, front), front), bytes, place)
        }
        None => Err(without_mark(plain_trace(read(alloc, bytes), bytes), bytes)),
    }
}

/// What was read of a trace, with the text behind the mark at this offset, if that has not too many bytes.
fn with_given(
    trace: Result<Trace, ReadError>,
    bytes: &[u8],
    place: usize,
) -> Result<Input<'_>, ReadError>
    requires { place + 3 ≤ length bytes.now }
    ensures input { (all : Result Trace BadLine) → GivesTrace trace all → GivesInput result (after_trace all (with_given place bytes.now)) }
    ensures memory { IsErrOf result ReadError.NoMemory → IsErrOf trace ReadError.NoMemory }
{
    let trace = trace?;
    let given = &bytes[place + MARK.len()..];
    if TEXT_LIMIT < given.len() {
        return Err(bad_at(bytes, place + MARK.len() + TEXT_LIMIT, Cause::TooLong));
    }
    Ok(Input { trace, given })
}

/// What is wrong with bytes without a mark, of which this was read as a trace.
fn without_mark(trace: Result<Trace, ReadError>, bytes: &[u8]) -> ReadError
    ensures bad { (all : Result Trace BadLine) → GivesTrace trace all
        → IsErrorOf result (after_trace all (λ _. Err (bad_line (line_at (length bytes.now) bytes.now) Cause.NoEnd))) }
    ensures memory { result ≡ ReadError.NoMemory → IsErrOf trace ReadError.NoMemory }
{
    match trace {
        Ok(_) => bad_at(bytes, bytes.len(), Cause::NoEnd),
        Err(error) => error,
    }
}

/// The offset of the first line that is `==` and ends.
fn mark_of(bytes: &[u8]) -> Option<usize>
    ensures place { result ≡ mark_offset bytes.now }
    ensures within { IfSome result (λ place. place + 3 ≤ length bytes.now) }
{
    let mut rest = bytes;
    while !rest.starts_with(MARK) {
        let len = rest.iter().position(|byte| *byte == b'\n')?;
        rest = &rest[len + 1..];
    }
    Some(bytes.len() - rest.len())
}

/// Says that the line that holds the byte at this offset is bad.
#[tactic(auto, unfolding(crate::specs::Input::line_at))]
fn bad_at(bytes: &[u8], offset: usize, cause: Cause) -> ReadError
    requires { offset ≤ length bytes.now }
    ensures { result ≡ ReadError.Bad (bad_line (line_at offset bytes.now) cause) }
{
    let above = bytes[..offset]
        .iter()
        .filter(|byte| **byte == b'\n')
        .count();
    ReadError::Bad(BadLine {
        line: above as u64 + 1,
        cause,
    })
}

/// What was read of bytes as a trace, where no line of them may fork.
fn plain_trace(trace: Result<Trace, ReadError>, bytes: &[u8]) -> Result<Trace, ReadError>
    ensures trace { GivesTrace trace (trace_of bytes.now) → GivesTrace result (plain_trace_of bytes.now) }
    ensures memory { IsErrOf result ReadError.NoMemory → IsErrOf trace ReadError.NoMemory }
{
    without_forks(trace, first_fork(bytes))
}

/// What was read, where the first line that forks has this number: it is the first bad line unless one comes before it.
fn without_forks(read: Result<Trace, ReadError>, fork: Option<u64>) -> Result<Trace, ReadError>
    ensures trace { (all : Result Trace BadLine) → GivesTrace read all → GivesTrace result (without_forks fork all) }
    ensures memory { IsErrOf result ReadError.NoMemory → IsErrOf read ReadError.NoMemory }
{
    let Some(line) = fork else {
        return read;
    };
    match read {
        Err(ReadError::Bad(first)) if first.line <= line => Err(ReadError::Bad(first)),
        Err(ReadError::NoMemory) => Err(ReadError::NoMemory),
        _ => Err(ReadError::Bad(BadLine {
            line,
            cause: Cause::Child,
        })),
    }
}
