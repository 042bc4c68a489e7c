//! What one caller did that ran all lines of a trace, one thing after the other, without a list of it.
ghost use Rattle.std.specs.Prelude.{◌≡◌, ◌↔◌, ◌<◌, ◌≤◌, ◌⊎◌, ◌∷◌, [], All, AllPairs, IfSome, IfNone, IsTrue, MatchOption, true};
ghost use Rattle.history.specs.declared.callers.TheConstants.{MOST_THREADS};
ghost use Rattle.history.specs.Histories.{gather, goes_first};
ghost use Rattle.history.specs.Labels.{labelled, label_of};
ghost use Rattle.history.specs.Runs.{history_of, log_items};
ghost use Rattle.area_rules.specs.Journals.{version_of};
ghost use Rattle.history.specs.Internal.Turns.{turn_place, AreLater};
ghost use Rattle.history.specs.Turns.{turn_item, IsInTurn};

use crate::callers::Callers;
use crate::gathering::{is_in_order, version_of};
use crate::ordering::place_at;
use crate::space_lines::SpaceLines;
use mm_types::{Entry, Seen};
use std::marker::Model;

/// One thing that a caller did.
#[derive(Clone, Copy, Debug)]
pub enum Turn<'a> {
    /// A call: the version after it, and its entry of the journal.
    Call(u64, &'a Entry),
    /// A read of the log.
    Read(&'a Seen),
}

impl Turn<'_> {
    /// Its version: of a call the one after it, of a read the one that it saw.
    pub fn version(&self) -> u64
        ensures { result ≡ (turn_item self.now).version }
    {
        match self {
            Turn::Call(version, _) => *version,
            Turn::Read(read) => version_of(read),
        }
    }
}

/// What one caller did and that is not told yet, in the order of a history. Contracts see it as a list of items.
#[derive(Debug, Drop)]
pub struct Turns<'a> {
    /// How many calls were told.
    version: u64,
    journal: &'a [Entry],
    log: &'a [Seen],
}

impl<'a> Model for Turns<'a> {
    ghost use Rattle.std.specs.Prelude.{List};
    ghost use Rattle.history.specs.declared.items.Item.{Item};

    ghost Value = { List Item };

    ghost use Rattle.history.specs.Internal.Turns.{items_left, AreTurns};

    ghost view = { items_left };

    ghost invariant = { AreTurns };
}

impl<'a> Turns<'a> {
    /// All that the caller of a journal and a log did, whose reads are in the order of a history.
    fn of(journal: &'a [Entry], log: &'a [Seen]) -> Turns<'a>
        requires { AllPairs (λ a b. goes_first a b ≡ true) (log_items 0 log.now) }
        ensures { result ≡ history_of journal.now (log.now ∷ []) }
    {
        Turns {
            version: 0,
            journal,
            log,
        }
    }

    /// The next thing that the caller did: a read that saw no later call, and else a call.
    pub fn next(&mut self) -> Option<Turn<'a>>
        ensures { MatchOption result ((self.old ≡ []) × (self.new ≡ [])) (λ turn. self.old ≡ turn_item turn ∷ self.new) }
    {
        if let Some((read, rest)) = next_read(self.version, self.journal, self.log) {
            self.log = rest;
            return Some(Turn::Read(read));
        }
        let Some((entry, rest)) = self.journal.split_first() else {
            return None;
        };
        self.version += 1;
        self.journal = rest;
        Some(Turn::Call(self.version, entry))
    }
}

/// The read that comes next after so many calls, and those behind it, where one saw no later call, or no call is left.
fn next_read<'a>(version: u64, journal: &[Entry], log: &'a [Seen]) -> Option<(&'a Seen, &'a [Seen])>
    ensures { MatchOption result (AreLater version log.now × (journal.now ≡ [] → log.now ≡ []))
        (λ next. (log.now ≡ next.0.now ∷ next.1.now) × ((version_of next.0.now ≤ version) ⊎ (journal.now ≡ []))) }
{
    let (read, rest) = log.split_first()?;
    if version_of(read) > version && !journal.is_empty() {
        return None;
    }
    Some((read, rest))
}

/// What one caller did by a journal and a log, in the order of a history, where that is the order of the lines that stand with it; else
/// `None`: the versions of the log fall, or a read of a version stands behind one of it by a later thread.
pub fn in_turn<'a>(
    lines: &SpaceLines<'_>,
    journal: &'a [Entry],
    log: &'a [Seen],
) -> Option<Turns<'a>>
    ensures all { IfSome result (λ turns. turns ≡ history_of journal.now (log.now ∷ [])) }
    ensures order { IfSome result (λ turns. labelled lines.now lines.now turns ≡ label_of lines.now journal.now log.now) }
    ensures none { IfNone result (IsInTurn lines.now journal.now log.now → ⊥) }
{
    if !is_in_order(log) {
        return None;
    }
    if !is_in_turn(lines, Turns::of(journal, log)) {
        return None;
    }
    Some(Turns::of(journal, log))
}

/// Whether these things, each by the caller of the line that stands with it, are in the order of a history.
fn is_in_turn(lines: &SpaceLines<'_>, mut turns: Turns<'_>) -> bool
    ensures { IsTrue result ↔ (labelled lines.now lines.now turns.entry ≡ gather (labelled lines.now lines.now turns.entry)) }
{
    let callers = Callers::of(lines);
    let lines = lines.items();
    let mut last = 0;
    for line in lines {
        let Some(turn) = turns.next() else {
            return true;
        };
        let now = place(&turn, callers.caller(line.thread));
        if now < last {
            return false;
        }
        last = now;
    }
    true
}

/// Where something stands in a history that a caller did, as a number.
fn place(turn: &Turn<'_>, caller: u32) -> u128
    ensures { result ≡ turn_place caller turn.now }
{
    match turn {
        Turn::Call(version, _) => place_at(*version, true, caller),
        Turn::Read(read) => place_at(version_of(read), false, caller),
    }
}
