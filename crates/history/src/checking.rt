//! Whether a history is legal and of a trace, found in one pass over its items.
ghost use Rattle.std.specs.Prelude.{◌≡◌, ◌+◌, ◌-◌, ◌^◌, ◌<◌, ◌≤◌, ◌↔◌, Err, List, [], IsTrue, length, take, IfOk, IfErr, OnOk};
ghost use Rattle.mm_types.specs.Config.{IsValidConfig};
ghost use Rattle.trace_reader.specs.Values.{IsTraceValue};
ghost use Rattle.history.specs.declared.answers.BadEntry.{BadEntry};
ghost use Rattle.history.specs.declared.items.Item.{Item};
ghost use Rattle.history.specs.Histories.{CanStand, IsLegalHistory, IsMade, asks_for, call_made, read_of};
ghost use Rattle.history.specs.Checking.{answer_in, answer_to, next_line, IsHistoryRefused};
ghost use Rattle.history.specs.Parents.{parent_lines};
ghost use Rattle.history.specs.Internal.Walks.{answer_expected, space_after_line, HasBegun, IsHistoryWalked, IsRefusalRight};

use crate::answers::{Answer, BadEntry, CheckError, Expected};
use crate::items::{Content, History, Item};
use crate::made::made_call;
use crate::progress::Progress;
use crate::space_lines::SpaceLines;
use mm_types::{Call, Config, Entry, NoMemory};
use plain_space::PlainSpace;
use std::alloc::Global;
use trace_reader::{Op, Trace, TraceLine};

/// What is judged: the items of a history, against the lines of a space of this configuration, which began with some entries.
#[derive(Clone, Copy)]
pub(crate) struct Case<'a> {
    pub(crate) config: &'a Config,
    pub(crate) start: &'a [Entry],
    pub(crate) lines: &'a SpaceLines<'a>,
    pub(crate) items: &'a [Item],
}

/// A walk over a history: how far the callers are and the address space, after some items.
#[derive(Drop)]
struct Walk<'a> {
    progress: Progress<'a>,
    space: PlainSpace<'a>,
}

/// Judges a history: `Ok` exactly where it is legal and of the trace, of one that forks of the parent's lines, and else the first item
/// that is bad, or its end, where lines are left. Each call is made once, and each item is compared once. The only other error is out of
/// memory.
pub fn check(alloc: Global, trace: &Trace, history: &History) -> Result<(), CheckError>
    requires { IsTraceValue trace.now }
    ensures legal { OnOk result (IsLegalHistory trace.now.config [] (parent_lines trace.now.lines) history.now) }
    ensures refused { (bad : BadEntry) → result ≡ Err (CheckError.Bad bad)
        → IsHistoryRefused trace.now.config [] (parent_lines trace.now.lines) history.now bad }
{
    let lines = SpaceLines::parent_of(alloc, trace)?;
    check_after(alloc, &trace.config, &[], &lines, history)
}

/// Judges a history of a space that began with some entries, as `check` does one of a space that began empty.
pub fn check_after(
    alloc: Global,
    config: &Config,
    start: &[Entry],
    lines: &SpaceLines<'_>,
    history: &History,
) -> Result<(), CheckError>
    requires valid { IsValidConfig config.now }
    requires begun { length start.now ≤ 2 ^ 31 }
    ensures legal { OnOk result (IsLegalHistory config.now start.now lines.now history.now) }
    ensures refused { (bad : BadEntry) → result ≡ Err (CheckError.Bad bad)
        → IsHistoryRefused config.now start.now lines.now history.now bad }
{
    let case = Case {
        config,
        start,
        lines,
        items: history.items(),
    };
    let mut walk = Walk::new(alloc, &case)?;
    for place in 0..case.items.len() {
        walk.judge(alloc, &case, place)?;
    }
    walk.end(alloc, &case)
}

impl<'a> Walk<'a> {
    /// Before the first item.
    fn new(alloc: Global, case: &Case<'a>) -> Result<Walk<'a>, NoMemory>
        requires valid { IsValidConfig case.now.config.now }
        requires begun { length case.now.start.now ≤ 2 ^ 31 }
        ensures { IfOk result (IsHistoryWalked case.now 0) }
    {
        Ok(Walk {
            progress: Progress::new(alloc, case.lines)?,
            space: begun(alloc, case.config, case.start)?,
        })
    }

    /// Judges the next item, which stands at this place.
    fn judge(&mut self, alloc: Global, case: &Case<'_>, place: usize) -> Result<(), CheckError>
        requires within { place < length case.now.items.now }
        requires walked { IsHistoryWalked case.now place self.old }
        ensures ok { OnOk result (IsHistoryWalked case.now (place + 1) self.new) }
        ensures refused { IfErr result (IsRefusalRight case.now) }
    {
        let item = &case.items[place];
        let line = self.progress.next_line(item.caller as usize);
        if !self.can_stand(case, place, item, line) {
            return Err(CheckError::Bad(BadEntry {
                place: place as u64 + 1,
                expected: Answer::Nothing,
                found: Answer::of(alloc, &item.content)?,
            }));
        }
        let expected = run_line(&mut self.space, line);
        let is_answered = expected.is_in(alloc, &self.space, &item.content)?;
        if !is_answered {
            return Err(CheckError::Bad(BadEntry {
                place: place as u64 + 1,
                expected: expected.answer(alloc, &self.space)?,
                found: Answer::of(alloc, &item.content)?,
            }));
        }
        self.progress.pass(item.caller, item.is_call());
        Ok(())
    }

    /// Whether an item can stand at a place, where this is the next line of its caller.
    fn can_stand(&self, case: &Case<'_>, place: usize, item: &Item, line: Option<TraceLine>) -> bool
        requires walked { IsHistoryWalked case.now place self.now }
        requires next { line ≡ next_line case.now.lines.now (take place case.now.items.now) item.now.caller }
        ensures { IsTrue result ↔ CanStand case.now.config.now case.now.start.now case.now.lines.now
            (take place case.now.items.now) item.now }
    {
        self.progress.can_stand(line, item)
            && is_made(&self.space, &item.content)
            && self.progress.is_told(line)
    }

    /// Judges the end of the items.
    fn end(&mut self, alloc: Global, case: &Case<'_>) -> Result<(), CheckError>
        requires { IsHistoryWalked case.now (length case.now.items.now) self.old }
        ensures legal { OnOk result (IsLegalHistory case.now.config.now case.now.start.now case.now.lines.now case.now.items.now) }
        ensures refused { IfErr result (IsRefusalRight case.now) }
    {
        let Some(caller) = self.progress.unfinished() else {
            return Ok(());
        };
        let line = self.progress.next_line(caller);
        let expected = run_line(&mut self.space, line);
        Err(CheckError::Bad(BadEntry {
            place: case.items.len() as u64 + 1,
            expected: expected.answer(alloc, &self.space)?,
            found: Answer::Nothing,
        }))
    }
}

/// The address space after the entries that it begins with. Fails only where memory runs out.
fn begun<'a>(alloc: Global, config: &'a Config, start: &[Entry]) -> Result<PlainSpace<'a>, NoMemory>
    requires valid { IsValidConfig config.now }
    requires few { length start.now ≤ 2 ^ 31 }
    ensures { IfOk result (HasBegun config.now start.now) }
{
    let mut space = PlainSpace::new(alloc, config)?;
    for entry in start {
        space.call(&entry.call);
    }
    Ok(space)
}

/// Whether what a content was asked to do makes its call over an address space, if it is a call.
fn is_made(space: &PlainSpace<'_>, content: &Content) -> bool
    ensures { IsTrue result ↔ IsMade space.now.config space.now.space content.now }
{
    match content {
        Content::Called(call, _) => makes(space, call),
        Content::Fault { .. } | Content::List(_) => true,
    }
}

/// Whether what asks for a call makes it over an address space: a touch is made by a fault that grows.
#[tactic(auto, unfolding(crate::specs::Histories::call_made, crate::specs::Histories::asks_for))]
fn makes(space: &PlainSpace<'_>, call: &Call) -> bool
    ensures { IsTrue result ↔ (call_made space.now.config space.now.space (asks_for call.now) ≡ Some call.now) }
{
    match call {
        Call::Touch { page, access } => space.grows(*page, *access),
        Call::Mmap(_)
        | Call::Munmap { .. }
        | Call::Mprotect { .. }
        | Call::Mremap { .. }
        | Call::Brk { .. }
        | Call::Mseal { .. } => true,
    }
}

/// What an address space answers to a line, of which a call is then made; nothing where there is none.
fn run_line(space: &mut PlainSpace<'_>, line: Option<TraceLine>) -> Expected
    requires room { space.old.space.objects < 2 ^ 32 - 1 }
    ensures answer { answer_expected space.new.space.areas result ≡ answer_to space.old.config space.old.space line }
    ensures space { space.new.space ≡ space_after_line space.old.config space.old.space line }
    ensures config { space.new.config ≡ space.old.config }
    ensures objects { space.new.space.objects ≤ space.old.space.objects + 1 }
{
    let Some(line) = line else {
        return Expected::Nothing;
    };
    match made_call(space, line.op) {
        Some(call) => Expected::Call(call, space.call(&call)),
        None => read_by(space, line.op),
    }
}

/// What an operation reads over an address space, where it makes no call.
fn read_by(space: &PlainSpace<'_>, op: Op) -> Expected
    ensures { answer_expected space.now.space.areas result ≡ answer_in (read_of space.now.config space.now.space op) }
{
    match op {
        Op::Fault { page, access } => Expected::Fault(space.verdict(page, access)),
        Op::Call(_) | Op::Maps | Op::Fork { .. } => Expected::List,
    }
}
