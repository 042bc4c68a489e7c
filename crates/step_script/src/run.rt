//! The output of a script.

ghost use Rattle.std.specs.Prelude.{◌≡◌, ◌+◌, IfOk, IfErr, Ok, Err};
ghost use Rattle.text_lexer.specs.declared.error.BadLine.{BadLine};
ghost use Rattle.step_script.specs.Output.{script_output, script_text};
ghost use Rattle.text_lexer.specs.Reading.{IsErrorOf};
ghost use Rattle.step_script.specs.Values.{IsScript};

use crate::grace_run::grace_text;
use crate::lock_run::lock_text;
use crate::reading::read_script;
use crate::script::{MOST_LINES, Script};
use mm_types::NoMemory;
use std::alloc::Global;
use text_lexer::ReadError;

/// Runs the script that the bytes are: for each of its events a line with the number of its line, what the event results in,
/// and the state after it. The whole script is read before the first event is made.
///
/// `ReadError::Bad` comes exactly where the bytes are no script, with their first bad line and its cause; where no line is bad
/// and none names a core, this is line 1 and `Cause::Header`. `ReadError::NoMemory` comes where memory runs out: where line 1 is
/// named, as with no bytes, none is taken.
#[tactic(auto, unfolding(crate::specs::Output::script_output))]
pub fn run_script(alloc: Global, bytes: &[u8]) -> Result<Vec<u8>, ReadError>
    ensures text { IfOk result (λ text. script_output bytes.now ≡ Ok text.items) }
    ensures bad { IfErr result (λ error. IsErrorOf error (script_output bytes.now)) }
    ensures first { (first : BadLine) → script_output bytes.now ≡ Err first → first.line ≡ 1 → result ≡ Err (ReadError.Bad first) }
{
    let script = read_script(alloc, bytes)?;
    Ok(script_text(alloc, script)?)
}

/// The text of a script.
#[tactic(auto, unfolding(crate::specs::Output::script_text))]
fn script_text(alloc: Global, script: Script) -> Result<Vec<u8>, NoMemory>
    requires { IsScript (MOST_LINES + 1) script }
    ensures { IfOk result (λ text. text.items ≡ script_text script) }
{
    match script {
        Script::Lock(script) => lock_text(alloc, &script),
        Script::Grace(script) => grace_text(alloc, script),
    }
}
