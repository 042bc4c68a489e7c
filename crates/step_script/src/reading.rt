//! Which script bytes are.

ghost use Rattle.std.specs.Prelude.{◌≡◌, ◌+◌, ◌<◌, IfOk, IfErr, IsErrOf, None, Err};
ghost use Rattle.text_lexer.specs.BadLines.{bad_line};
ghost use Rattle.text_lexer.specs.declared.error.Cause.TheVariants.{Header};
ghost use Rattle.text_lexer.specs.declared.error.BadLine.{BadLine};
ghost use Rattle.text_lexer.specs.Lines.{raw_lines};
ghost use Rattle.step_script.specs.Grammar.{after_script_lines, script_of};
ghost use Rattle.step_script.specs.Reading.{GivesRead};
ghost use Rattle.step_script.specs.Values.{IsScript, IsSoFar};

use crate::lines::after_line;
use crate::script::{MOST_LINES, Script};
use std::alloc::Global;
use text_lexer::{CallError, Cause, ReadError, error_at, first_line};

/// The script that the bytes are, or the first bad line and its cause. Line 1 is told whatever the memory.
#[tactic(auto, unfolding(crate::specs::Grammar::script_of))]
pub(crate) fn read_script(alloc: Global, bytes: &[u8]) -> Result<Script, ReadError>
    ensures value { GivesRead result (script_of bytes.now) }
    ensures fits { IfOk result (IsScript (MOST_LINES + 1)) }
    ensures first { (first : BadLine) → script_of bytes.now ≡ Err first → first.line ≡ 1 → result ≡ Err (ReadError.Bad first) }
{
    match read_lines(alloc, bytes)? {
        Some(script) => Ok(script),
        None => Err(no_core()),
    }
}

/// No line names a core.
fn no_core() -> ReadError
    ensures { result ≡ ReadError.Bad (bad_line 1 Header) }
{
    error_at(1, CallError::Bad(Cause::Header))
}

/// The script that the lines of some bytes leave, or the first of them that is bad.
fn read_lines(alloc: Global, bytes: &[u8]) -> Result<Option<Script>, ReadError>
    ensures value { GivesRead result (after_script_lines None (raw_lines bytes.now)) }
    ensures fits { IfOk result (IsSoFar (MOST_LINES + 1)) }
    ensures memory { IsErrOf result ReadError.NoMemory → IfErr (script_of bytes.now) (λ first. 1 < first.line) }
{
    let mut script = None;
    let mut rest = bytes;
    let mut number = 1;
    while !rest.is_empty() {
        let (line, after) = first_line(rest, number, bytes.len() - rest.len());
        script = match after_line(alloc, script, &line) {
            Ok(next) => next,
            Err(error) => return Err(error_at(number, error)),
        };
        rest = after;
        number += 1;
    }
    Ok(script)
}
