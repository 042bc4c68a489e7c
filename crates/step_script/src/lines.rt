//! What one line does to the script so far.

ghost use Rattle.std.specs.Prelude.{◌≡◌, ◌+◌, ◌≤◌, false, true, not, IfOk, map};
ghost use Rattle.text_lexer.specs.Reading.{Gives, GivesTested, ReadsAs, line_view};
ghost use Rattle.text_lexer.specs.Words.{words_of};
ghost use Rattle.step_script.specs.Lines.{is_passed_over, speaks, line_speaks, has_event, read_counts, counts_of, read_core, may_take_memory, said_to, said_by, said_in, with_said, after_script_line};
ghost use Rattle.step_script.specs.Reading.{LacksOnlyIf};
ghost use Rattle.step_script.specs.Values.{AreCounts, IsScript, IsSoFar, IsSaid};

use crate::fields::count_of;
use crate::grace_lines::grace_event;
use crate::lock_lines::lock_event;
use crate::script::{CoreScript, Counts, MOST_LINES, Script};
use grace_core::GraceEvent;
use lock_core::LockEvent;
use std::alloc::Global;
use text_lexer::{
    CallError, Cause, RawLine, is_comment, is_header, text_after_words, text_of, words_of,
};

/// What a line says, with the script so far to which it says it.
#[derive(Debug, Drop)]
pub(crate) enum Said {
    /// Nothing: it is the header, has no words, or is a comment.
    Nothing(Option<Script>),
    /// Which core the script is of. Nothing was said before.
    Core(Script),
    /// An event of the lock core.
    Lock(CoreScript<LockEvent>, LockEvent),
    /// An event of the grace core.
    Grace(CoreScript<GraceEvent>, GraceEvent),
}

/// The script after a line. The header and lines that are passed over take no memory.
#[tactic(auto, unfolding(crate::specs::Lines::after_script_line))]
pub(crate) fn after_line(
    alloc: Global,
    script: Option<Script>,
    line: &RawLine<'_>,
) -> Result<Option<Script>, CallError>
    requires fits { IsSoFar line.now.number script }
    ensures value { Gives (λ next. next) result (after_script_line script (line_view line.now)) }
    ensures fits { IfOk result (IsSoFar (line.now.number + 1)) }
    ensures few { IfOk result (λ _. line.now.number ≤ MOST_LINES) }
    ensures memory { LacksOnlyIf (line_speaks (line_view line.now)) result }
{
    let text = text_of(line)?;
    let said = said_in(alloc, script, line.number, text)?;
    let next = with_said(line.number, said)?;
    Ok(next)
}

/// The script with what a line says. The last test of a line, that there are no more than 10,000, comes before its event takes memory.
#[tactic(auto, unfolding(crate::specs::Lines::with_said))]
fn with_said(number: u64, said: Said) -> Result<Option<Script>, CallError>
    requires fits { IsSaid number said }
    ensures value { GivesTested (λ next. next) result (with_said number said) }
    ensures fits { IfOk result (IsSoFar (number + 1)) }
    ensures few { IfOk result (λ _. number ≤ MOST_LINES) }
    ensures memory { LacksOnlyIf (has_event said) result }
{
    if MOST_LINES < number {
        return Err(CallError::Bad(Cause::TooMany));
    }
    match said {
        Said::Nothing(script) => Ok(script),
        Said::Core(script) => Ok(Some(script)),
        Said::Lock(script, event) => {
            let next = script.with_event(number, event)?;
            Ok(Some(Script::Lock(next)))
        }
        Said::Grace(script, event) => {
            let next = script.with_event(number, event)?;
            Ok(Some(Script::Grace(next)))
        }
    }
}

/// What a line says, of which the first is the header.
#[tactic(auto, unfolding(crate::specs::Lines::said_in))]
fn said_in(
    alloc: Global,
    script: Option<Script>,
    number: u64,
    text: &str,
) -> Result<Said, CallError>
    requires fits { IsSoFar number script }
    ensures value { Gives (λ said. said) result (said_in script number text.now (words_of text.now)) }
    ensures fits { IfOk result (IsSaid number) }
    ensures event { IfOk result (λ said. has_event said ≡ true → speaks number (words_of text.now) ≡ true) }
    ensures memory { LacksOnlyIf (speaks number (words_of text.now)) result }
{
    if number != 1 {
        return said_by(alloc, script, number, text);
    }
    if is_header(text, "vmasteps", "1") {
        Ok(Said::Nothing(script))
    } else {
        Err(CallError::Bad(Cause::Header))
    }
}

/// What a line below the header says: nothing where it is passed over, which is seen before its words take memory.
#[tactic(auto, unfolding(crate::specs::Lines::said_by, crate::specs::Lines::said_after))]
fn said_by(
    alloc: Global,
    script: Option<Script>,
    number: u64,
    text: &str,
) -> Result<Said, CallError>
    requires fits { IsSoFar number script }
    ensures value { Gives (λ said. said) result (said_by script text.now (words_of text.now)) }
    ensures fits { IfOk result (IsSaid number) }
    ensures event { IfOk result (λ said. has_event said ≡ true → is_passed_over (words_of text.now) ≡ false) }
    ensures memory { LacksOnlyIf (not (is_passed_over (words_of text.now))) result }
{
    if is_passed_over(text) {
        return Ok(Said::Nothing(script));
    }
    let words = words_of(alloc, text)?;
    let [name, words @ ..] = words.as_slice() else {
        return Ok(Said::Nothing(script));
    };
    said_to(alloc, script, number, text, name, words)
}

/// Whether a line of this text is passed over: it has no words, or is a comment.
fn is_passed_over(text: &str) -> bool
    ensures { result ≡ is_passed_over (words_of text.now) }
{
    let text = text_after_words(text, 0);
    text.is_empty() || is_comment(text)
}

/// What a line says by its first word: it names the core, or else it has an event of the core.
#[tactic(auto, unfolding(crate::specs::Lines::said_to))]
fn said_to(
    alloc: Global,
    script: Option<Script>,
    number: u64,
    text: &str,
    name: &str,
    words: &[&str],
) -> Result<Said, CallError>
    requires fits { IsSoFar number script }
    ensures value { Gives (λ said. said) result
        (said_to script text.now name.now (map (λ word. word.now) words.now)) }
    ensures fits { IfOk result (IsSaid number) }
    ensures memory { LacksOnlyIf (may_take_memory script name.now) result }
{
    match script {
        None => Ok(Said::Core(core_of(alloc, name, words)?)),
        Some(Script::Lock(script)) => {
            let event = lock_event(alloc, script.readers, script.parts, text, name, words)?;
            Ok(Said::Lock(script, event))
        }
        Some(Script::Grace(script)) => {
            let event = grace_event(alloc, script.readers, script.parts, name, words)?;
            Ok(Said::Grace(script, event))
        }
    }
}

/// The script without events that a line asks for which names the core.
#[tactic(auto, unfolding(crate::specs::Lines::read_core, crate::specs::Lines::read_lock, crate::specs::Lines::grace_of))]
fn core_of(alloc: Global, name: &str, words: &[&str]) -> Result<Script, Cause>
    ensures value { ReadsAs (λ next. next) result (read_core name.now (map (λ word. word.now) words.now)) }
    ensures fits { IfOk result (IsScript 1) }
{
    match name {
        "lock" => Ok(Script::Lock(CoreScript::new(alloc, counts_of(words)?))),
        "grace" => Ok(Script::Grace(CoreScript::new(alloc, counts_of(words)?))),
        _ => Err(Cause::Word),
    }
}

/// How many readers there are, and slots or rows, by the words after the name of a core.
#[tactic(auto, unfolding(crate::specs::Lines::counts_of))]
fn counts_of(words: &[&str]) -> Result<Counts, Cause>
    ensures value { ReadsAs (λ counts. counts) result (counts_of (map (λ word. word.now) words.now)) }
    ensures fits { IfOk result AreCounts }
{
    match words {
        [readers, parts] => counted(readers, parts),
        _ => Err(Cause::Arity),
    }
}

/// How many readers there are, and slots or rows, by these words.
#[tactic(auto, unfolding(crate::specs::Lines::read_counts))]
fn counted(readers: &str, parts: &str) -> Result<Counts, Cause>
    ensures value { ReadsAs (λ counts. counts) result (read_counts readers.now parts.now) }
    ensures fits { IfOk result AreCounts }
{
    let readers = count_of(readers)?;
    let parts = count_of(parts)?;
    Ok(Counts { readers, parts })
}
