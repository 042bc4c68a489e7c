//! What is printed of an event of the lock core and of the state after it.

ghost use Rattle.std.specs.Prelude.{◌≡◌, ◌++◌, ◌<◌, OnOk, length};
ghost use Rattle.step_script.specs.LockTexts.{lock_answer_text, lock_reason_name, lock_reason_value, lock_outcome_text, slot_text, lock_state_text};

use crate::texts::push_refusal;
use lock_core::{LockAnswer, LockState, StepRefusal};
use mm_types::{NoMemory, Slot};
use std::io::Write;

/// Appends what an event results in.
#[tactic(auto, unfolding(crate::specs::LockTexts::lock_outcome_text))]
pub(crate) fn push_lock_outcome(
    text: &mut Vec<u8>,
    outcome: Result<LockAnswer, StepRefusal>,
) -> Result<(), NoMemory>
    ensures { OnOk result (text.new.items ≡ text.old.items ++ lock_outcome_text outcome) }
{
    match outcome {
        Ok(found) => push_lock_answer(text, found),
        Err(reason) => push_refusal(text, lock_reason_name(reason), lock_reason_value(reason)),
    }
}

/// Appends what an event finds.
#[tactic(auto, unfolding(crate::specs::LockTexts::lock_answer_text))]
fn push_lock_answer(text: &mut Vec<u8>, found: LockAnswer) -> Result<(), NoMemory>
    ensures { OnOk result (text.new.items ≡ text.old.items ++ lock_answer_text found) }
{
    match found {
        LockAnswer::Found(lock_seq) => write!(text, "found {lock_seq}"),
        LockAnswer::Marked(seq) => write!(text, "seq {seq} marked"),
        LockAnswer::Version { seq, version } => write!(text, "seq {seq} version {version}"),
        LockAnswer::Word(word) => write!(text, "word 0x{word:x}"),
        LockAnswer::Made(reader) => write!(text, "made {reader}"),
        LockAnswer::Done => write!(text, "ok"),
    }
    .map_err(|_| NoMemory)
}

/// Why an event is refused: the number of the reason and its name.
#[tactic(auto, unfolding(crate::specs::LockTexts::lock_reason_name))]
fn lock_reason_name(reason: StepRefusal) -> &'static str
    ensures { result.now ≡ lock_reason_name reason }
{
    match reason {
        StepRefusal::NotOpen => "1 NotOpen",
        StepRefusal::ReadersLeft(_) => "2 ReadersLeft",
        StepRefusal::NotMarked => "3 NotMarked",
        StepRefusal::NotHeld => "4 NotHeld",
        StepRefusal::NoSlot => "5 NoSlot",
        StepRefusal::AlreadyOpen => "6 AlreadyOpen",
        StepRefusal::AlreadyHeld => "7 AlreadyHeld",
        StepRefusal::NotTheList(_) => "8 NotTheList",
        StepRefusal::NoMemory => "9 NoMemory",
    }
}

/// The value of a reason, where it has one.
fn lock_reason_value(reason: StepRefusal) -> Option<u64>
    ensures { result ≡ lock_reason_value reason }
{
    match reason {
        StepRefusal::ReadersLeft(count) => Some(count),
        StepRefusal::NotTheList(place) => Some(place),
        _ => None,
    }
}

/// Appends a state: its sequence, and each slot.
#[tactic(auto, unfolding(crate::specs::LockTexts::lock_state_text))]
pub(crate) fn push_lock_state(text: &mut Vec<u8>, state: &LockState) -> Result<(), NoMemory>
    ensures { OnOk result (text.new.items ≡ text.old.items ++ lock_state_text state.now.core) }
{
    let seq = state.seq();
    write!(text, " | S {seq} M").map_err(|_| NoMemory)?;
    for slot in 0..state.slots() {
        push_slot(text, state, slot)?;
    }
    Ok(())
}

/// Appends a slot: its number, its lock sequence, and how many readers hold it.
#[tactic(auto, unfolding(crate::specs::LockTexts::slot_text))]
fn push_slot(text: &mut Vec<u8>, state: &LockState, slot: u32) -> Result<(), NoMemory>
    requires { slot < length state.now.core.slots }
    ensures { OnOk result (text.new.items ≡ text.old.items ++ slot_text state.now.core slot) }
{
    let (lock_seq, count) = state.mark(Slot(slot));
    write!(text, " {slot}:{lock_seq}/{count}").map_err(|_| NoMemory)
}
