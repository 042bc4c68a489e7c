//! What is printed of an event of the grace core and of the state after it.

ghost use Rattle.std.specs.Prelude.{◌≡◌, ◌++◌, ◌<◌, ℕ, OnOk, length};
ghost use Rattle.grace_core.specs.Core.{is_free_row, waits};
ghost use Rattle.grace_core.specs.States.{HasReader};
ghost use Rattle.step_script.specs.Texts.{numbers_text};
ghost use Rattle.step_script.specs.GraceTexts.{grace_answer_text, grace_reason_name, grace_reason_value, grace_outcome_text, tree_text, reader_text, pins_text, rows_text, grace_state_text};

use crate::texts::{push_refusal, push_spaced};
use grace_core::{GraceAnswer, GraceRefusal, GraceState};
use mm_types::{NoMemory, Row};
use std::io::Write;

/// Appends what an event results in.
#[tactic(auto, unfolding(crate::specs::GraceTexts::grace_outcome_text))]
pub(crate) fn push_grace_outcome(
    text: &mut Vec<u8>,
    outcome: Result<GraceAnswer, GraceRefusal>,
) -> Result<(), NoMemory>
    ensures { OnOk result (text.new.items ≡ text.old.items ++ grace_outcome_text outcome) }
{
    match outcome {
        Ok(found) => push_grace_answer(text, found),
        Err(reason) => push_refusal(text, grace_reason_name(reason), grace_reason_value(reason)),
    }
}

/// Appends what an event finds.
#[tactic(auto, unfolding(crate::specs::GraceTexts::grace_answer_text))]
fn push_grace_answer(text: &mut Vec<u8>, found: GraceAnswer) -> Result<(), NoMemory>
    ensures { OnOk result (text.new.items ≡ text.old.items ++ grace_answer_text found) }
{
    match found {
        GraceAnswer::Tree {
            tree,
            row: Row(row),
        } => write!(text, "tree {tree} row {row}"),
        GraceAnswer::Word(word) => write!(text, "word 0x{word:x}"),
        GraceAnswer::Pin(pin) => write!(text, "pin {pin}"),
        GraceAnswer::Made(reader) => write!(text, "made {reader}"),
        GraceAnswer::Done => write!(text, "ok"),
    }
    .map_err(|_| NoMemory)
}

/// Why an event is refused: the number of the reason and its name.
#[tactic(auto, unfolding(crate::specs::GraceTexts::grace_reason_name))]
fn grace_reason_name(reason: GraceRefusal) -> &'static str
    ensures { result.now ≡ grace_reason_name reason }
{
    match reason {
        GraceRefusal::NotOpen => "1 NotOpen",
        GraceRefusal::RowNotFree(_) => "2 RowNotFree",
        GraceRefusal::RowNotShown(_) => "3 RowNotShown",
        GraceRefusal::WrongTree(_) => "4 WrongTree",
        GraceRefusal::AlreadyOpen => "5 AlreadyOpen",
        GraceRefusal::NoMemory => "6 NoMemory",
    }
}

/// The value of a reason, where it has one.
fn grace_reason_value(reason: GraceRefusal) -> Option<u64>
    ensures { result ≡ grace_reason_value reason }
{
    match reason {
        GraceRefusal::RowNotFree(row) => Some(u64::from(row.0)),
        GraceRefusal::RowNotShown(row) => Some(u64::from(row.0)),
        GraceRefusal::WrongTree(tree) => Some(tree),
        _ => None,
    }
}

/// Appends a state: the present tree, the pin of each reader, the free rows, and the rows that wait.
#[tactic(auto, unfolding(crate::specs::GraceTexts::grace_state_text))]
pub(crate) fn push_grace_state(text: &mut Vec<u8>, state: &GraceState) -> Result<(), NoMemory>
    requires readers { (reader : ℕ) → reader < length state.now.pins → HasReader state.now reader }
    ensures { OnOk result (text.new.items ≡ text.old.items ++ grace_state_text state.now) }
{
    push_tree(text, state)?;
    push_pins(text, state)?;
    push_rows(text, state)
}

/// Appends the present tree.
#[tactic(auto, unfolding(crate::specs::GraceTexts::tree_text))]
fn push_tree(text: &mut Vec<u8>, state: &GraceState) -> Result<(), NoMemory>
    ensures { OnOk result (text.new.items ≡ text.old.items ++ tree_text state.now) }
{
    let tree = state.tree();
    let Row(root) = state.root();
    write!(text, " | T {tree} root {root}").map_err(|_| NoMemory)
}

/// Appends the pin of each reader.
#[tactic(auto, unfolding(crate::specs::GraceTexts::pins_text))]
fn push_pins(text: &mut Vec<u8>, state: &GraceState) -> Result<(), NoMemory>
    requires readers { (reader : ℕ) → reader < length state.now.pins → HasReader state.now reader }
    ensures { OnOk result (text.new.items ≡ text.old.items ++ pins_text state.now) }
{
    text.extend_from_slice(b" P")?;
    for reader in 0..state.readers() {
        push_reader(text, state, reader)?;
    }
    Ok(())
}

/// Appends a reader: its number and its pin.
#[tactic(auto, unfolding(crate::specs::GraceTexts::reader_text))]
fn push_reader(text: &mut Vec<u8>, state: &GraceState, reader: u32) -> Result<(), NoMemory>
    requires { HasReader state.now reader }
    ensures { OnOk result (text.new.items ≡ text.old.items ++ reader_text state.now reader) }
{
    let pin = state.pin(reader);
    write!(text, " {reader}:{pin}").map_err(|_| NoMemory)
}

/// Appends the rows that are free, and those that wait.
#[tactic(auto, unfolding(crate::specs::GraceTexts::rows_text))]
fn push_rows(text: &mut Vec<u8>, state: &GraceState) -> Result<(), NoMemory>
    ensures { OnOk result (text.new.items ≡ text.old.items ++ rows_text state.now) }
{
    text.extend_from_slice(b" free")?;
    push_free(text, state)?;
    text.extend_from_slice(b" wait")?;
    push_waiting(text, state)
}

/// Appends each free row.
#[tactic(auto, unfolding(crate::specs::Texts::numbers_text))]
fn push_free(text: &mut Vec<u8>, state: &GraceState) -> Result<(), NoMemory>
    ensures { OnOk result (text.new.items ≡ text.old.items
        ++ numbers_text (length state.now.writer_state.words) (is_free_row state.now.writer_state)) }
{
    for row in 0..state.rows() {
        if state.is_free(Row(row)) {
            push_spaced(text, row)?;
        }
    }
    Ok(())
}

/// Appends each row that waits.
#[tactic(auto, unfolding(crate::specs::Texts::numbers_text))]
fn push_waiting(text: &mut Vec<u8>, state: &GraceState) -> Result<(), NoMemory>
    ensures { OnOk result (text.new.items ≡ text.old.items
        ++ numbers_text (length state.now.writer_state.words) (waits state.now.writer_state)) }
{
    for row in 0..state.rows() {
        if state.waits(Row(row)) {
            push_spaced(text, row)?;
        }
    }
    Ok(())
}
