//! A space once it is closed.
ghost use Rattle.std.specs.Prelude.{◌≡◌, map};

use mm_types::{AreaList, Entry, Seen};
use std::marker::Model;

/// What is left of a space: the journal of all calls, the log of each caller, and the list of areas at the end. Closing a
/// space is the one way to have it.
#[derive(Drop)]
pub struct Closed {
    journal: Vec<Entry>,
    logs: Vec<Vec<Seen>>,
    list: AreaList,
}

impl Model for Closed {
    ghost use Rattle.std.specs.Prelude.{map};
    ghost use Rattle.mm_space.specs.Closing.{ClosedView};

    ghost Value = { ClosedView };

    ghost view = { λ c. record { journal = c.journal.items; logs = map (λ log. log.items) c.logs.items; list = c.list } };
}

impl Closed {
    /// What closing a space leaves.
    pub(crate) fn new(journal: Vec<Entry>, logs: Vec<Vec<Seen>>, list: AreaList) -> Closed
        ensures { result ≡ record { journal = journal.items; logs = map (λ log. log.items) logs.items; list = list } }
    {
        Closed {
            journal,
            logs,
            list,
        }
    }

    /// The journal of all calls.
    pub fn journal(&self) -> &[Entry]
        ensures { result.now ≡ self.now.journal }
    {
        self.journal.as_slice()
    }

    /// The log of each caller, in its place.
    pub fn logs(&self) -> &[Vec<Seen>]
        ensures { map (λ log. log.items) result.now ≡ self.now.logs }
    {
        self.logs.as_slice()
    }

    /// The list of areas at the end.
    pub fn list(&self) -> &AreaList
        ensures { result.now ≡ self.now.list }
    {
        &self.list
    }
}
