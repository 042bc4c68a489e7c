//! The fields of a line, each a word.

ghost use Rattle.std.specs.Prelude.{◌≡◌, ◌<◌, ◌≤◌, ◌^◌, IfOk, map};
ghost use Rattle.text_lexer.specs.Reading.{ReadsAs};
ghost use Rattle.step_script.specs.Fields.{read_index, read_caller, read_count, read_reader};

use crate::script::MOST_PARTS;
use text_lexer::{Cause, number, number_in};
use trace_reader::thread_of;

/// How many readers, slots or rows there are.
#[tactic(auto, unfolding(crate::specs::Fields::read_count))]
pub(crate) fn count_of(word: &str) -> Result<u32, Cause>
    ensures value { ReadsAs (λ n. n) result (read_count word.now) }
    ensures some { IfOk result (λ n. 0 < n) }
    ensures few { IfOk result (λ n. n ≤ MOST_PARTS) }
{
    let count = number_in(word, 1, MOST_PARTS)?;
    Ok(count as u32)
}

/// The number of one of so many readers, slots, rows or fields.
#[tactic(auto, unfolding(crate::specs::Fields::read_index))]
pub(crate) fn index_of(word: &str, count: u32) -> Result<u32, Cause>
    ensures value { ReadsAs (λ n. n) result (read_index count word.now) }
    ensures below { IfOk result (λ n. n < count) }
{
    let n = number(word)?;
    if n < u64::from(count) {
        Ok(n as u32)
    } else {
        Err(Cause::Number)
    }
}

/// The caller of a call.
#[tactic(auto, unfolding(crate::specs::Fields::read_caller))]
pub(crate) fn caller_of(word: &str) -> Result<u32, Cause>
    ensures { ReadsAs (λ n. n) result (read_caller word.now) }
{
    thread_of(word).ok_or(Cause::Number)
}

/// One of so many readers, where it is the only word after the name of an event.
#[tactic(auto, unfolding(crate::specs::Fields::read_reader))]
pub(crate) fn reader_of(words: &[&str], readers: u32) -> Result<u32, Cause>
    ensures value { ReadsAs (λ n. n) result (read_reader readers (map (λ word. word.now) words.now)) }
    ensures below { IfOk result (λ n. n < readers) }
{
    match words {
        [reader] => index_of(reader, readers),
        _ => Err(Cause::Arity),
    }
}
