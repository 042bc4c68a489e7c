//! What is answered to the bytes of a check.
ghost use Rattle.std.specs.Prelude.{◌≡◌, Err, IfOk, IfErr, IsErrOf, IsOk, IsOkAnd, length};
ghost use Rattle.text_lexer.specs.BadLines.{bad_line};
ghost use Rattle.text_lexer.specs.declared.error.Cause.TheVariants.{Header};
ghost use Rattle.text_lexer.specs.Reading.{IsErrorOf};
ghost use Rattle.trace_reader.specs.Values.{IsTraceValue};
ghost use Rattle.history.specs.Parents.{parent_trace};
ghost use Rattle.output.specs.Input.{input_of};
ghost use Rattle.output.specs.Checked.{IsCheckedAs};
ghost use Rattle.output.specs.Reading.{input_view};

use crate::input::{Input, read_input};
use crate::judgement::judgement_text;
use crate::judging::judge_output;
use std::alloc::Global;
use text_lexer::ReadError;

/// Whether the text behind the line `==` is a legal output of the trace before it: `legal`, or `bad` and the number of the first bad
/// line of the text, counted from 1 behind that line.
///
/// `ReadError::Bad` comes exactly where the bytes are no such input, with their first bad line and its cause. `ReadError::NoMemory` comes
/// where memory runs out, which it does not where there are no bytes.
pub fn checked(alloc: Global, bytes: &[u8]) -> Result<Vec<u8>, ReadError>
    ensures text { IfOk result (λ text. IsOkAnd (input_of bytes.now) (λ input. IsCheckedAs input text.items)) }
    ensures bad { IfErr result (λ error. IsErrorOf error (input_of bytes.now)) }
    ensures empty { length bytes.now ≡ 0 → result ≡ Err (ReadError.Bad (bad_line 1 Header)) }
{
    judged(alloc, read_input(alloc, bytes))
}

/// The judgement of an input as a line of text, where it was read; else why it was not.
fn judged(alloc: Global, read: Result<Input<'_>, ReadError>) -> Result<Vec<u8>, ReadError>
    requires value { IfOk read (λ input. IsTraceValue input.trace) }
    requires parent { IfOk read (λ input. parent_trace input.trace ≡ input.trace) }
    ensures text { IfOk result (λ text. IsOkAnd read.entry (λ input. IsCheckedAs (input_view input) text.items)) }
    ensures unread { IfErr read.entry (IsErrOf result) }
    ensures memory { IsOk read.entry → IfErr result (λ error. error ≡ ReadError.NoMemory) }
{
    let input = read?;
    let judgement = judge_output(alloc, &input.trace, input.given)?;
    Ok(judgement_text(alloc, judgement)?)
}
