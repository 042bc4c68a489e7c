//! What a line with a thread asks for, by its tests in their order.

ghost use Rattle.std.specs.Prelude.{◌≡◌, map, option_copied};
ghost use Rattle.trace_reader.specs.Operations.{read_fault, fault_of, read_maps, read_fork, op_named, read_op, read_note, without_note, line_named, op_has_its_new, read_line};
ghost use Rattle.text_lexer.specs.Reading.{ReadsAs};

use crate::calls::{brk_of, call_named, has_its_new, mseal_of};
use crate::fields::{access, thread_of};
use crate::trace::{Op, TraceLine};
use mm_types::{PAGE_SIZE, Page};
use text_lexer::{Cause, decimal_of, is_name, number};

/// What stands before LINE in the word by which a line names another.
const NOTE: &str = "after=";

/// The line of this number that these words are: `first`, and the words after it. The tests, in their order: the thread; the name
/// of the operation; how many words there are; each of them, from the left; LINE; and NEW against the flags of an mremap(2).
#[tactic(auto, unfolding(crate::specs::Operations::read_line))]
pub(crate) fn line_of(number: u64, first: &str, words: &[&str]) -> Result<TraceLine, Cause>
    ensures { ReadsAs (λ line. line) result (read_line number first.now (map (λ word. word.now) words.now)) }
{
    let Some(thread) = thread_of(first) else {
        return Err(Cause::Thread);
    };
    let form = without_note(words);
    let op = op_of(form)?;
    let after = line_named(note_of(words))?;
    if !op_has_its_new(&op, form) {
        return Err(Cause::Arity);
    }
    Ok(TraceLine {
        number,
        thread,
        op,
        after,
    })
}

/// LINE of `after=LINE`, where that is the last of the words after a thread and stands behind the name of the operation.
#[tactic(auto, unfolding(crate::specs::Operations::read_note))]
fn note_of<'a>(words: &[&'a str]) -> Option<&'a str>
    ensures { option_copied result ≡ read_note (map (λ word. word.now) words.now) }
{
    match words {
        [_, .., last] => last.strip_prefix(NOTE),
        _ => None,
    }
}

/// The words without that one.
#[tactic(auto, unfolding(crate::specs::Operations::without_note))]
fn without_note<'a, 'b>(words: &'b [&'a str]) -> &'b [&'a str]
    ensures { map (λ word. word.now) result.now ≡ without_note (map (λ word. word.now) words.now) }
{
    match note_of(words) {
        Some(_) => &words[..words.len() - 1],
        None => words,
    }
}

/// LINE: the number of a line, where its word is there.
#[tactic(auto, unfolding(crate::specs::Operations::line_named))]
fn line_named(word: Option<&str>) -> Result<Option<u64>, Cause>
    ensures { ReadsAs (λ line. line) result (line_named (option_copied word.entry)) }
{
    let Some(word) = word else {
        return Ok(None);
    };
    match decimal_of(word) {
        Some(line) => Ok(Some(line)),
        None => Err(Cause::Number),
    }
}

/// Whether an mremap(2) of these words, its name among them, has NEW exactly where its flags have `MREMAP_FIXED`.
fn op_has_its_new(op: &Op, words: &[&str]) -> bool
    ensures { result ≡ op_has_its_new op.now (map (λ word. word.now) words.now) }
{
    match op {
        Op::Call(call) => has_its_new(call, words),
        Op::Fault { .. } | Op::Maps | Op::Fork { .. } => true,
    }
}

/// What the words after a thread ask for: the name of an operation, and the words of its form.
#[tactic(auto, unfolding(crate::specs::Operations::read_op))]
fn op_of(words: &[&str]) -> Result<Op, Cause>
    ensures { ReadsAs (λ op. op) result (read_op (map (λ word. word.now) words.now)) }
{
    let [name, rest @ ..] = words else {
        return Err(Cause::Arity);
    };
    op_named(name, rest)
}

/// The operation of this name, from the words after it.
#[tactic(auto, unfolding(crate::specs::Operations::op_named))]
fn op_named(name: &str, words: &[&str]) -> Result<Op, Cause>
    ensures { ReadsAs (λ op. op) result (op_named name.now (map (λ word. word.now) words.now)) }
{
    if is_name(name, "fault") {
        fault_of(words)
    } else if is_name(name, "maps") {
        maps_of(words)
    } else if is_name(name, "fork") {
        fork_of(words)
    } else if is_name(name, "brk") {
        Ok(Op::Call(brk_of(words)?))
    } else if is_name(name, "mseal") {
        Ok(Op::Call(mseal_of(words)?))
    } else {
        Ok(Op::Call(call_named(name, words)?))
    }
}

/// The page fault of these words: an access to the page of the address.
#[tactic(auto, unfolding(crate::specs::Operations::read_fault))]
fn fault(addr: &str, wanted: &str) -> Result<Op, Cause>
    ensures { ReadsAs (λ op. op) result (read_fault addr.now wanted.now) }
{
    Ok(Op::Fault {
        page: Page(number(addr)? / PAGE_SIZE),
        access: access(wanted)?,
    })
}

/// `fault ADDR A`.
#[tactic(auto, unfolding(crate::specs::Operations::fault_of))]
fn fault_of(words: &[&str]) -> Result<Op, Cause>
    ensures { ReadsAs (λ op. op) result (fault_of (map (λ word. word.now) words.now)) }
{
    match words {
        [addr, wanted] => fault(addr, wanted),
        _ => Err(Cause::Arity),
    }
}

/// `maps`: a read of the list of areas.
#[tactic(auto, unfolding(crate::specs::Operations::read_maps))]
fn maps_of(words: &[&str]) -> Result<Op, Cause>
    ensures { ReadsAs (λ op. op) result (read_maps (map (λ word. word.now) words.now)) }
{
    if words.is_empty() {
        Ok(Op::Maps)
    } else {
        Err(Cause::Arity)
    }
}

/// `fork C`: a child space, whose one thread is C.
#[tactic(auto, unfolding(crate::specs::Operations::read_fork))]
fn fork_of(words: &[&str]) -> Result<Op, Cause>
    ensures { ReadsAs (λ op. op) result (read_fork (map (λ word. word.now) words.now)) }
{
    let [child] = words else {
        return Err(Cause::Arity);
    };
    match thread_of(child) {
        Some(child) => Ok(Op::Fork { child }),
        None => Err(Cause::Number),
    }
}
