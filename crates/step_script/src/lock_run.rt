//! The run of a script of the lock core.

ghost use Rattle.std.specs.Prelude.{◌≡◌, ◌++◌, ◌<◌, ◌+◌, ◌^◌, true, IfOk, OnErr, length};
ghost use Rattle.lock_core.specs.States.{HasRoom, NamesField, may_lack_memory};
ghost use Rattle.step_script.specs.LockTexts.{lock_outcome, lock_after, lock_line_text, lock_text};
ghost use Rattle.step_script.specs.Values.{IsLockScript};

use crate::lock_texts::{push_lock_outcome, push_lock_state};
use crate::script::{CoreScript, EventLine, MOST_LINES};
use crate::texts::push_start;
use lock_core::{LockAnswer, LockEvent, LockState, StepRefusal, apply};
use mm_types::{Config, Files, NoMemory};
use std::alloc::Global;

/// What an event results in.
type Outcome = Result<LockAnswer, StepRefusal>;

/// The text of a script of the lock core.
pub(crate) fn lock_text(alloc: Global, script: &CoreScript<LockEvent>) -> Result<Vec<u8>, NoMemory>
    requires { IsLockScript (MOST_LINES + 1) script.now }
    ensures { IfOk result (λ text. text.items ≡ lock_text script.now) }
{
    let config = Config::with_files(Files::of(Vec::new(alloc)));
    let mut state = LockState::new(alloc, config, script.readers, script.parts)?;
    let mut text = Vec::new(alloc);
    for line in script.lines.items() {
        state = lock_step(alloc, state, line, &mut text)?;
    }
    Ok(text)
}

/// Makes the event of a line, and appends its line of output.
#[tactic(auto, unfolding(crate::specs::LockTexts::lock_line_text))]
fn lock_step(
    alloc: Global,
    state: LockState,
    line: &EventLine<LockEvent>,
    text: &mut Vec<u8>,
) -> Result<LockState, NoMemory>
    requires room { HasRoom state }
    requires field { NamesField line.now.event }
    ensures state { IfOk result (λ next. next ≡ lock_after state line.now.event) }
    ensures text { IfOk result (λ _. text.new.items ≡ text.old.items ++ lock_line_text state line.now) }
{
    let (state, outcome) = lock_apply(alloc, state, line.event)?;
    push_start(text, line.number)?;
    push_lock_outcome(text, outcome)?;
    push_lock_state(text, &state)?;
    text.push(b'\n')?;
    Ok(state)
}

/// Makes an event, if it is not refused. Only an event that takes memory may find none.
fn lock_apply(
    alloc: Global,
    state: LockState,
    event: LockEvent,
) -> Result<(LockState, Outcome), NoMemory>
    requires room { HasRoom state }
    requires field { NamesField event }
    ensures state { IfOk result (λ done. done.0 ≡ lock_after state event) }
    ensures outcome { IfOk result (λ done. done.1 ≡ lock_outcome state event) }
    ensures no_memory { OnErr result (may_lack_memory state.core event ≡ true) }
{
    match apply(alloc, state, event) {
        Ok((state, found)) => Ok((state, Ok(found))),
        Err((_, StepRefusal::NoMemory)) => Err(NoMemory),
        Err((state, reason)) => Ok((state, Err(reason))),
    }
}
