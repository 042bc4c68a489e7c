//! The run of a script of the grace core.

ghost use Rattle.std.specs.Prelude.{◌≡◌, ◌++◌, ◌+◌, true, None, IfOk, OnErr};
ghost use Rattle.grace_core.specs.Refusals.{grace_refusal};
ghost use Rattle.grace_core.specs.States.{takes_memory};
ghost use Rattle.step_script.specs.GraceTexts.{grace_outcome, grace_after, grace_line_text, grace_text};
ghost use Rattle.step_script.specs.Values.{IsGraceScript, IsGraceEvent, IsGraceState};

use crate::grace_texts::{push_grace_outcome, push_grace_state};
use crate::script::{CoreScript, EventLine, MOST_LINES};
use crate::texts::push_start;
use grace_core::{GraceAnswer, GraceEvent, GraceRefusal, GraceState, apply};
use mm_types::NoMemory;
use std::alloc::Global;

/// What an event results in.
type Outcome = Result<GraceAnswer, GraceRefusal>;

/// The text of a script of the grace core.
pub(crate) fn grace_text(alloc: Global, script: CoreScript<GraceEvent>) -> Result<Vec<u8>, NoMemory>
    requires { IsGraceScript (MOST_LINES + 1) script }
    ensures { IfOk result (λ text. text.items ≡ grace_text script) }
{
    let (readers, rows) = (script.readers, script.parts);
    let mut state = GraceState::new(alloc, readers, rows)?;
    let mut text = Vec::new(alloc);
    for line in script.lines.into_vec() {
        state = grace_step(state, line, readers, rows, &mut text)?;
    }
    Ok(text)
}

/// Makes the event of a line, and appends its line of output.
#[tactic(auto, unfolding(crate::specs::GraceTexts::grace_line_text))]
fn grace_step(
    state: GraceState,
    line: EventLine<GraceEvent>,
    readers: u32,
    rows: u32,
    text: &mut Vec<u8>,
) -> Result<GraceState, NoMemory>
    requires state { IsGraceState readers rows state }
    requires event { IsGraceEvent readers rows line.event }
    ensures kept { IfOk result (IsGraceState readers rows) }
    ensures state { IfOk result (λ next. next ≡ grace_after state line.event) }
    ensures text { IfOk result (λ _. text.new.items ≡ text.old.items ++ grace_line_text state line) }
{
    let (state, outcome) = grace_apply(state, line.event, readers, rows)?;
    push_start(text, line.number)?;
    push_grace_outcome(text, outcome)?;
    push_grace_state(text, &state)?;
    text.push(b'\n')?;
    Ok(state)
}

/// Makes an event, if it is not refused. Only an event that takes memory, and that nothing refuses, may find none.
fn grace_apply(
    state: GraceState,
    event: GraceEvent,
    readers: u32,
    rows: u32,
) -> Result<(GraceState, Outcome), NoMemory>
    requires state { IsGraceState readers rows state }
    requires event { IsGraceEvent readers rows event }
    ensures kept { IfOk result (λ done. IsGraceState readers rows done.0) }
    ensures state { IfOk result (λ done. done.0 ≡ grace_after state event) }
    ensures outcome { IfOk result (λ done. done.1 ≡ grace_outcome state event) }
    ensures no_memory { OnErr result (takes_memory event ≡ true) }
    ensures last { OnErr result (grace_refusal state event ≡ None) }
{
    match apply(state, event) {
        Ok((state, found)) => Ok((state, Ok(found))),
        Err((_, GraceRefusal::NoMemory)) => Err(NoMemory),
        Err((state, reason)) => Ok((state, Err(reason))),
    }
}
