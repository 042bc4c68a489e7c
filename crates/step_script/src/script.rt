//! A script as a value.

ghost use Rattle.std.specs.Prelude.{◌≡◌, ◌++◌, ◌∷◌, [], IfOk, OnOk};
ghost use Rattle.step_script.specs.Scripts.{without_events, with_event};

use grace_core::GraceEvent;
use lock_core::LockEvent;
use mm_types::NoMemory;
use std::alloc::Global;
use std::marker::Model;

/// The most lines of a script, those that are passed over included. Each event prints a whole state, and `end` runs the slow model.
pub const MOST_LINES: u64 = 10_000;

/// The most readers, slots or rows of a script.
pub const MOST_PARTS: u64 = 8; // a line of output shows the state of all

/// A script: the core that it names, and its events.
#[derive(Debug, Drop)]
pub enum Script {
    /// Of the lock core. Its parts are slots.
    Lock(CoreScript<LockEvent>),
    /// Of the grace core. Its parts are rows.
    Grace(CoreScript<GraceEvent>),
}

/// A script of the core that has these events.
#[derive(Debug, Drop)]
pub struct CoreScript<E> {
    /// How many readers there are, numbered from 0.
    pub readers: u32,
    /// How many slots or rows there are, numbered from 0.
    pub parts: u32,
    pub lines: EventLines<E>,
}

impl<E> CoreScript<E> {
    /// A script without events.
    pub(crate) fn new(alloc: Global, counts: Counts) -> CoreScript<E>
        ensures { result ≡ without_events counts }
    {
        CoreScript {
            readers: counts.readers,
            parts: counts.parts,
            lines: EventLines::new(alloc),
        }
    }

    /// The script with the event of one line more.
    pub(crate) fn with_event(self, number: u64, event: E) -> Result<CoreScript<E>, NoMemory>
    where
        E: Drop,
        ensures { IfOk result (λ next. next ≡ with_event self number event) }
    {
        let mut script = self;
        script.lines.push(EventLine { number, event })?;
        Ok(script)
    }
}

/// How many parts of each kind a state has.
#[derive(Clone, Copy, Debug)]
pub(crate) struct Counts {
    pub(crate) readers: u32,
    /// Slots or rows.
    pub(crate) parts: u32,
}

/// A line with an event of a core: its number, counted from 1, and the event.
#[derive(Debug, Drop)]
pub struct EventLine<E> {
    pub number: u64,
    pub event: E,
}

/// Lines with events of one core, seen by contracts as a list.
#[derive(Debug, Drop)]
pub struct EventLines<E> {
    items: Vec<EventLine<E>>,
}

impl<E> Model for EventLines<E> {
    ghost use Rattle.std.specs.Prelude.{List};
    ghost use Rattle.step_script.specs.declared.script.EventLine.{EventLine};

    ghost Value = { List (EventLine E) };

    ghost view = { λ lines. lines.items.items };
}

impl<E> EventLines<E> {
    /// No lines.
    pub(crate) fn new(alloc: Global) -> EventLines<E>
        ensures { result ≡ [] }
    {
        EventLines {
            items: Vec::new(alloc),
        }
    }

    /// Appends a line.
    pub(crate) fn push(&mut self, line: EventLine<E>) -> Result<(), NoMemory>
    where
        E: Drop,
        ensures { OnOk result (self.new ≡ self.old ++ line ∷ []) }
    {
        self.items.push(line)?;
        Ok(())
    }

    /// Shows the lines.
    pub fn items(&self) -> &[EventLine<E>]
        ensures { result.now ≡ self.now }
    {
        self.items.as_slice()
    }

    /// Gives the lines.
    pub(crate) fn into_vec(self) -> Vec<EventLine<E>>
        ensures { result.items ≡ self }
    {
        self.items
    }
}
