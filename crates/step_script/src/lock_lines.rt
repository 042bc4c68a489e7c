//! The events of the lock core, each from the words after its name.

ghost use Rattle.std.specs.Prelude.{IfOk, map};
ghost use Rattle.text_lexer.specs.Reading.{Gives, ReadsAs};
ghost use Rattle.step_script.specs.LockLines.{add, add_of, look_of, field, field_of, sub_of, begin_of, mark_of, store, store_of, end_by, read_end, lock_event, is_end};
ghost use Rattle.step_script.specs.Reading.{LacksOnlyIf};
ghost use Rattle.step_script.specs.Values.{IsLockEvent};

use crate::fields::{caller_of, index_of, reader_of};
use lock_core::LockEvent;
use mm_types::Slot;
use std::alloc::Global;
use text_lexer::{CallError, Cause, number, text_after_words};
use trace_reader::call_of;

/// How many fields the row of a slot has.
const FIELDS: u32 = 4;

/// The words before the call of an `end`.
const WORDS_BEFORE_CALL: usize = 2;

/// The add of these words.
#[tactic(auto, unfolding(crate::specs::LockLines::add))]
fn add(reader: &str, slot: &str, readers: u32, slots: u32) -> Result<LockEvent, Cause>
    ensures value { ReadsAs (λ event. event) result (add readers slots reader.now slot.now) }
    ensures fits { IfOk result (IsLockEvent readers slots) }
{
    let reader = index_of(reader, readers)?;
    let slot = index_of(slot, slots)?;
    Ok(LockEvent::Add(reader, Slot(slot)))
}

/// `add R K`.
#[tactic(auto, unfolding(crate::specs::LockLines::add_of))]
fn add_of(words: &[&str], readers: u32, slots: u32) -> Result<LockEvent, Cause>
    ensures value { ReadsAs (λ event. event) result (add_of readers slots (map (λ word. word.now) words.now)) }
    ensures fits { IfOk result (IsLockEvent readers slots) }
{
    match words {
        [reader, slot] => add(reader, slot, readers, slots),
        _ => Err(Cause::Arity),
    }
}

/// `look R`.
#[tactic(auto, unfolding(crate::specs::LockLines::look_of))]
fn look_of(words: &[&str], readers: u32, slots: u32) -> Result<LockEvent, Cause>
    ensures value { ReadsAs (λ event. event) result (look_of readers (map (λ word. word.now) words.now)) }
    ensures fits { IfOk result (IsLockEvent readers slots) }
{
    Ok(LockEvent::Look(reader_of(words, readers)?))
}

/// The read of a field that these words ask for.
#[tactic(auto, unfolding(crate::specs::LockLines::field))]
fn field(reader: &str, place: &str, readers: u32, slots: u32) -> Result<LockEvent, Cause>
    ensures value { ReadsAs (λ event. event) result (field readers reader.now place.now) }
    ensures fits { IfOk result (IsLockEvent readers slots) }
{
    let reader = index_of(reader, readers)?;
    let place = index_of(place, FIELDS)?;
    Ok(LockEvent::Field(reader, place))
}

/// `field R I`.
#[tactic(auto, unfolding(crate::specs::LockLines::field_of))]
fn field_of(words: &[&str], readers: u32, slots: u32) -> Result<LockEvent, Cause>
    ensures value { ReadsAs (λ event. event) result (field_of readers (map (λ word. word.now) words.now)) }
    ensures fits { IfOk result (IsLockEvent readers slots) }
{
    match words {
        [reader, place] => field(reader, place, readers, slots),
        _ => Err(Cause::Arity),
    }
}

/// `sub R`.
#[tactic(auto, unfolding(crate::specs::LockLines::sub_of))]
fn sub_of(words: &[&str], readers: u32, slots: u32) -> Result<LockEvent, Cause>
    ensures value { ReadsAs (λ event. event) result (sub_of readers (map (λ word. word.now) words.now)) }
    ensures fits { IfOk result (IsLockEvent readers slots) }
{
    Ok(LockEvent::Sub(reader_of(words, readers)?))
}

/// `begin`.
#[tactic(auto, unfolding(crate::specs::LockLines::begin_of))]
fn begin_of(words: &[&str], readers: u32, slots: u32) -> Result<LockEvent, Cause>
    ensures value { ReadsAs (λ event. event) result (begin_of (map (λ word. word.now) words.now)) }
    ensures fits { IfOk result (IsLockEvent readers slots) }
{
    match words {
        [] => Ok(LockEvent::Begin),
        _ => Err(Cause::Arity),
    }
}

/// `mark K`.
#[tactic(auto, unfolding(crate::specs::LockLines::mark_of))]
fn mark_of(words: &[&str], readers: u32, slots: u32) -> Result<LockEvent, Cause>
    ensures value { ReadsAs (λ event. event) result (mark_of slots (map (λ word. word.now) words.now)) }
    ensures fits { IfOk result (IsLockEvent readers slots) }
{
    let [slot] = words else {
        return Err(Cause::Arity);
    };
    Ok(LockEvent::Mark(Slot(index_of(slot, slots)?)))
}

/// The store of these words.
#[tactic(auto, unfolding(crate::specs::LockLines::store))]
fn store(slot: &str, field: &str, word: &str, readers: u32, slots: u32) -> Result<LockEvent, Cause>
    ensures value { ReadsAs (λ event. event) result (store slots slot.now field.now word.now) }
    ensures fits { IfOk result (IsLockEvent readers slots) }
{
    let slot = index_of(slot, slots)?;
    let field = index_of(field, FIELDS)?;
    let word = number(word)?;
    Ok(LockEvent::Store(Slot(slot), field, word))
}

/// `store K I X`.
#[tactic(auto, unfolding(crate::specs::LockLines::store_of))]
fn store_of(words: &[&str], readers: u32, slots: u32) -> Result<LockEvent, Cause>
    ensures value { ReadsAs (λ event. event) result (store_of slots (map (λ word. word.now) words.now)) }
    ensures fits { IfOk result (IsLockEvent readers slots) }
{
    match words {
        [slot, field, word] => store(slot, field, word, readers, slots),
        _ => Err(Cause::Arity),
    }
}

/// The end of a call of this caller, where the call is what follows two words of the line's text.
#[tactic(auto, unfolding(crate::specs::LockLines::end_by))]
fn end_by(
    alloc: Global,
    text: &str,
    caller: &str,
    readers: u32,
    slots: u32,
) -> Result<LockEvent, CallError>
    ensures value { Gives (λ event. event) result (end_by text.now caller.now) }
    ensures fits { IfOk result (IsLockEvent readers slots) }
{
    let caller = caller_of(caller)?;
    let call = call_of(alloc, text_after_words(text, WORDS_BEFORE_CALL))?;
    Ok(LockEvent::End(caller, call))
}

/// `end T CALL`.
#[tactic(auto, unfolding(crate::specs::LockLines::read_end))]
fn end_of(
    alloc: Global,
    text: &str,
    words: &[&str],
    readers: u32,
    slots: u32,
) -> Result<LockEvent, CallError>
    ensures value { Gives (λ event. event) result (read_end text.now (map (λ word. word.now) words.now)) }
    ensures fits { IfOk result (IsLockEvent readers slots) }
{
    match words {
        [caller, _, ..] => end_by(alloc, text, caller, readers, slots),
        _ => Err(CallError::Bad(Cause::Arity)),
    }
}

/// The event of this name, in a line of this text.
#[tactic(auto, unfolding(crate::specs::LockLines::lock_event))]
pub(crate) fn lock_event(
    alloc: Global,
    readers: u32,
    slots: u32,
    text: &str,
    name: &str,
    words: &[&str],
) -> Result<LockEvent, CallError>
    ensures value { Gives (λ event. event) result
        (lock_event readers slots text.now name.now (map (λ word. word.now) words.now)) }
    ensures fits { IfOk result (IsLockEvent readers slots) }
    ensures memory { LacksOnlyIf (is_end name.now) result }
{
    match name {
        "add" => Ok(add_of(words, readers, slots)?),
        "look" => Ok(look_of(words, readers, slots)?),
        "field" => Ok(field_of(words, readers, slots)?),
        "sub" => Ok(sub_of(words, readers, slots)?),
        "begin" => Ok(begin_of(words, readers, slots)?),
        "mark" => Ok(mark_of(words, readers, slots)?),
        "store" => Ok(store_of(words, readers, slots)?),
        "end" => end_of(alloc, text, words, readers, slots),
        _ => Err(CallError::Bad(Cause::Word)),
    }
}
