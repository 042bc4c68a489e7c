//! How far the callers of a trace are in a history.
ghost use Rattle.std.specs.Prelude.{◌≡◌, ◌≢◌, ◌+◌, ◌<◌, ◌≤◌, ◌-◌, ◌^◌, ◌↔◌, List, [], length, All, IsTrue, IfOk, IfSome, IfNone, Contains, MatchBool, MatchOption, slice_index, slice_set, if◌then◌else◌, false};
ghost use Rattle.trace_reader.specs.declared.limits.TheConstants.{MOST_LINES};
ghost use Rattle.trace_reader.specs.Values.{AreNumbered};
ghost use Rattle.history.specs.declared.callers.TheConstants.{MOST_THREADS};
ghost use Rattle.history.specs.declared.items.Item.{Item};
ghost use Rattle.history.specs.Histories.{StandsAmong};
ghost use Rattle.history.specs.Checking.{next_line};
ghost use Rattle.history.specs.Coming.{IsProgress, IsToCome, NoneIsToCome, HasNoneLeft};
ghost use Rattle.history.specs.SpaceLines.{AreSpaceLines};
ghost use Rattle.history.specs.Internal.Walks.{IsNext, IsTold, IsLowestLeft};

use crate::callers::Callers;
use crate::items::Item;
use crate::places::places_of;
use crate::space_lines::SpaceLines;
use mm_types::NoMemory;
use std::alloc::Global;
use std::marker::Model;
use trace_reader::TraceLine;

/// How far the callers of a trace are after some items of a history. Contracts see the lines of the trace, how many of each caller are
/// answered, how many of the items are calls, and the lowest caller that may read next.
#[derive(Drop)]
pub struct Progress<'a> {
    lines: &'a [TraceLine],
    callers: Callers,
    /// The places of the lines of each caller.
    places: Vec<Vec<u32>>,
    /// How many lines of each caller are answered.
    answered: Vec<usize>,
    /// How many of the items are calls.
    version: u64,
    /// After a read its caller, and else 0: reads of one version come by ascending caller.
    lowest: u32,
}

impl<'a> Model for Progress<'a> {
    ghost use Rattle.history.specs.Coming.{ProgressView};

    ghost Value = { ProgressView };

    ghost use Rattle.history.specs.Internal.Kept.{progress_of, IsPlaced};

    ghost view = { progress_of };

    ghost invariant = { IsPlaced };
}

impl<'a> Progress<'a> {
    /// Before the first item. Fails only where memory runs out.
    pub fn new(alloc: Global, lines: &'a SpaceLines<'_>) -> Result<Progress<'a>, NoMemory>
        ensures first { IfOk result (IsProgress lines.now []) }
        ensures kept { AreSpaceLines lines.now }
    {
        let own = lines.items();
        let callers = Callers::of(lines);
        let places = places_of(alloc, lines, &callers)?;
        let answered = vec![in alloc; 0usize; places.len()]?;
        Ok(Progress {
            lines: own,
            callers,
            places,
            answered,
            version: 0,
            lowest: 0,
        })
    }

    /// The line of a number, with its caller, where it is the next of that caller and the line that it names is answered.
    pub fn line_to_come(&self, number: u64) -> Option<(TraceLine, u32)>
        ensures { (lines : List TraceLine) (before : List Item) → IsProgress lines before self.now
            → MatchOption result (NoneIsToCome lines before number) (λ found. IsToCome lines before number found.0 found.1) }
    {
        let line = line_of_number(self.lines, number)?;
        let caller = self.callers.caller(line.thread);
        let next = self.next_line(caller as usize)?;
        if next.number != number {
            return None;
        }
        if !self.is_told(Some(next)) {
            return None;
        }
        Some((next, caller))
    }

    /// The next line of a caller, if it has one left.
    pub(crate) fn next_line(&self, caller: usize) -> Option<TraceLine>
        ensures { (lines : List TraceLine) (before : List Item) → IsProgress lines before self.now → result ≡ next_line lines before caller }
    {
        let own = self.places.get(caller)?;
        let answered = self.answered.get(caller)?;
        let place = own.get(*answered)?;
        self.lines.get(*place as usize).copied()
    }

    /// Whether an item can stand next, where this is the next line of its caller.
    pub(crate) fn can_stand(&self, line: Option<TraceLine>, item: &Item) -> bool
        requires { self.now.version < 2 ^ 64 - 1 }
        ensures { IsTrue result ↔ IsNext self.now line item.now }
    {
        let is_call = item.is_call();
        item.version == self.version_with(is_call)
            && self.is_in_order(item.caller, is_call)
            && item.answers(line)
    }

    /// Whether the line that a line names, if it names one, is answered.
    pub(crate) fn is_told(&self, line: Option<TraceLine>) -> bool
        ensures { (lines : List TraceLine) (before : List Item) → IsProgress lines before self.now → IsTrue result ↔ IsTold lines before line }
    {
        let Some(line) = line else {
            return true;
        };
        match line.after {
            Some(number) => self.is_answered(number),
            None => true,
        }
    }

    /// Whether a line has this number and is answered.
    fn is_answered(&self, number: u64) -> bool
        ensures { (lines : List TraceLine) (before : List Item) → IsProgress lines before self.now
            → IsTrue result ↔ StandsAmong lines before number }
    {
        let Some(line) = line_of_number(self.lines, number) else {
            return false;
        };
        let caller = self.callers.caller(line.thread) as usize;
        match self.next_line(caller) {
            Some(next) => number < next.number,
            None => true,
        }
    }

    /// Whether an item of a caller keeps the order of reads: those of one version come by ascending caller.
    pub fn is_in_order(&self, caller: u32, is_call: bool) -> bool
        ensures { IsTrue result ↔ (is_call ≡ false → self.now.lowest ≤ caller) }
    {
        is_call || self.lowest <= caller
    }

    /// The version of the next item: a call's counts the call itself.
    pub fn version_with(&self, is_call: bool) -> u64
        requires { self.now.version < 2 ^ 64 - 1 }
        ensures { result ≡ self.now.version + (if is_call then 1 else 0) }
    {
        if is_call {
            self.version + 1
        } else {
            self.version
        }
    }

    /// Counts an item of a caller, which answers its next line.
    pub fn pass(&mut self, caller: u32, is_call: bool)
        requires caller { caller < length self.old.answered }
        requires room { slice_index self.old.answered caller < 2 ^ 32 }
        requires version { self.old.version < 2 ^ 64 - 1 }
        ensures lines { self.new.lines ≡ self.old.lines }
        ensures answered { self.new.answered ≡ slice_set self.old.answered caller (slice_index self.old.answered caller + 1) }
        ensures version { self.new.version ≡ self.old.version + (if is_call then 1 else 0) }
        ensures lowest { self.new.lowest ≡ (if is_call then 0 else caller) }
    {
        self.answered[caller as usize] += 1;
        if is_call {
            self.version += 1;
        }
        self.lowest = if is_call { 0 } else { caller };
    }

    /// The lowest caller that has lines left, if one has.
    pub(crate) fn unfinished(&self) -> Option<usize>
        ensures { (lines : List TraceLine) (before : List Item) → IsProgress lines before self.now
            → MatchOption result (HasNoneLeft lines before) (IsLowestLeft lines before) }
    {
        for caller in 0..self.places.len() {
            if self.answered[caller] < self.places[caller].len() {
                return Some(caller);
            }
        }
        None
    }

    /// Whether any caller has a line left.
    pub fn has_line_left(&self) -> bool
        ensures { (lines : List TraceLine) (before : List Item) → IsProgress lines before self.now
            → MatchBool result (HasNoneLeft lines before → ⊥) (HasNoneLeft lines before) }
    {
        match self.unfinished() {
            Some(_) => true,
            None => false,
        }
    }
}

/// The line of a number, if there is one, found by halving.
fn line_of_number(lines: &[TraceLine], number: u64) -> Option<TraceLine>
    requires { AreNumbered lines.now }
    ensures found { IfSome result (λ line. Contains lines.now line × (line.number ≡ number)) }
    ensures none { IfNone result (All (λ line. line.number ≢ number) lines.now) }
{
    let place = lines.partition_point(|line| line.number < number);
    let Some(line) = lines.get(place).copied() else {
        return None;
    };
    if line.number == number {
        Some(line)
    } else {
        None
    }
}
