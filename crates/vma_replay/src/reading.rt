//! What a source has, as a trace, as an input that is turned into a text, or as a trace and a text that is judged.
ghost use Rattle.std.specs.Prelude.{◌≡◌, ◌<◌, ◌^◌, ◌-◌, IfErr, IfOk, Ok};
ghost use Rattle.trace_reader.specs.Grammar.{trace_of};
ghost use Rattle.text_lexer.specs.Lines.{input_limit};
ghost use Rattle.text_lexer.specs.Reading.{IsErrorOf};
ghost use Rattle.trace_reader.specs.Values.{IsTraceValue};
ghost use Rattle.vma_replay.specs.Internal.Reading.{IsChecking, IsReading, IsTaking, taken_bytes};
ghost use Rattle.vma_replay.specs.Replaying.{converted};

use crate::status::Status;
use crate::words::Conversion;
use io_edge::{Failed, Source};
use maps_read::{answer_of, retraced};
use output::{TEXT_LIMIT, checked};
use std::alloc::Global;
use step_script::run_script;
use text_lexer::{INPUT_LIMIT, ReadError};
use trace_reader::{Trace, read};

/// How many bytes a read asks for at most.
const PIECE: usize = 65_536;

/// The most bytes that a check reads of what it judges: those of a trace, of the line `==`, and of a text.
const CHECK_LIMIT: usize = INPUT_LIMIT + 3 + TEXT_LIMIT;

/// Reads all of a source as a trace. A status says why it is none.
#[tactic(auto, unfolding(text_lexer::specs::Lines::input_limit))]
pub(crate) fn read_source<S: Source>(alloc: Global, source: &mut S) -> Result<Trace, Status>
    requires { (S.seen source.old).faults < 2 ^ 64 - 1 }
    ensures value { IfOk result IsTraceValue }
    ensures reading { IsReading trace_of input_limit (S.seen source.old) (S.seen source.new) result }
{
    let bytes = take_bytes(alloc, source, INPUT_LIMIT)?;
    Ok(read(alloc, &bytes)?)
}

/// Reads all of a source, and turns it into a text. A status says why it is none.
#[tactic(auto, unfolding(text_lexer::specs::Lines::input_limit))]
pub(crate) fn convert_source<S: Source>(
    alloc: Global,
    source: &mut S,
    conversion: Conversion,
) -> Result<Vec<u8>, Status>
    requires { (S.seen source.old).faults < 2 ^ 64 - 1 }
    ensures { IsReading (converted conversion) input_limit (S.seen source.old) (S.seen source.new) (taken_bytes result) }
{
    let bytes = take_bytes(alloc, source, INPUT_LIMIT)?;
    Ok(convert(alloc, conversion, &bytes)?)
}

/// The text that bytes are turned into. An error is their first bad line, or that memory ran out.
fn convert(alloc: Global, conversion: Conversion, bytes: &[u8]) -> Result<Vec<u8>, ReadError>
    ensures text { IfOk result (λ text. converted conversion bytes.now ≡ Ok text.items) }
    ensures bad { IfErr result (λ error. IsErrorOf error (converted conversion bytes.now)) }
{
    match conversion {
        Conversion::Steps => run_script(alloc, bytes),
        Conversion::Query { address } => answer_of(alloc, bytes, address),
        Conversion::Retrace => retraced(alloc, bytes),
    }
}

/// Reads all of a source, and tells whether the text behind its trace is a legal output of it. A status says why it has no such parts.
#[tactic(auto, unfolding(output::specs::Input::check_limit, text_lexer::specs::Lines::input_limit))]
pub(crate) fn check_source<S: Source>(alloc: Global, source: &mut S) -> Result<Vec<u8>, Status>
    requires { (S.seen source.old).faults < 2 ^ 64 - 1 }
    ensures { IsChecking (S.seen source.old) (S.seen source.new) (taken_bytes result) }
{
    let bytes = take_bytes(alloc, source, CHECK_LIMIT)?;
    Ok(checked(alloc, &bytes)?)
}

/// Takes bytes from a source up to its end, or one more of them than so many.
fn take_bytes<S: Source>(alloc: Global, source: &mut S, most: usize) -> Result<Vec<u8>, Status>
    requires most { most < 2 ^ 63 }
    requires source { (S.seen source.old).faults < 2 ^ 64 - 1 }
    ensures { IsTaking most (S.seen source.old) (S.seen source.new) (taken_bytes result) }
{
    let mut bytes = Vec::new(alloc);
    let mut piece = [0u8; PIECE];
    while bytes.len() <= most {
        let room = (most + 1 - bytes.len()).min(PIECE);
        match source.take(&mut piece[..room]) {
            Ok(0) => return Ok(bytes),
            Ok(count) => {
                if bytes.extend_from_slice(&piece[..count]).is_err() {
                    return Err(Status::NoMemory);
                }
            }
            Err(Failed) => return Err(Status::ReadFault),
        }
    }
    Ok(bytes)
}
