ghost use Rattle.std.specs.Prelude.{◌≡◌, ◌<◌, ◌+◌, ◌*◌, ◌≤◌, [], ◌∷◌, ◌++◌, ◌^◌, length, IfOk};
ghost use Rattle.split_merge.specs.Plans.{olds_of, news_of};

use mm_types::{NoMemory, Record};
use std::alloc::Global;
use std::marker::Model;

/// One change of a list of areas.
#[derive(Clone, Copy, Debug, PartialEq, Eq)]
pub enum Change {
    /// This area leaves the list.
    Detach(Record),
    /// The one area takes the place of the other.
    Alter { old: Record, new: Record },
    /// This area joins the list.
    Add(Record),
}

/// A list of changes with room that was reserved before, seen by contracts as its changes and its room.
#[derive(Debug, Drop)]
pub struct Plan {
    changes: Vec<Change>,
}

impl Change {
    ghost use Rattle.std.specs.Prelude.{◌≡◌};
    ghost use Rattle.split_merge.specs.Plans.{old_of, new_of};

    /// The area that it takes away.
    pub fn old(&self) -> Option<Record>
        ensures { result ≡ old_of self.now }
    {
        match self {
            Change::Detach(old) | Change::Alter { old, .. } => Some(*old),
            Change::Add(_) => None,
        }
    }

    /// The area that it brings.
    pub fn new(&self) -> Option<Record>
        ensures { result ≡ new_of self.now }
    {
        match self {
            Change::Alter { new, .. } | Change::Add(new) => Some(*new),
            Change::Detach(_) => None,
        }
    }
}

impl Model for Plan {
    ghost use Rattle.std.specs.Vec.{vec_capacity};
    ghost use Rattle.split_merge.specs.Plans.{PlanView};

    ghost Value = { PlanView };

    ghost view = { λ p. record { changes = p.changes.items; room = vec_capacity p.changes } };
}

impl Plan {
    /// An empty plan with room for the changes of one call on a list of at most so many areas.
    pub fn with_room(alloc: Global, areas: u32) -> Result<Plan, NoMemory>
        ensures { IfOk result (λ plan. plan ≡ record { changes = []; room = 2 * areas + 4 }) }
    {
        // a plan has at most two changes for each area near its spans, and four (`IsLocal`)
        let changes = Vec::with_capacity(alloc, 2 * areas as usize + 4)?;
        Ok(Plan { changes })
    }

    /// The changes, in the order in which they were planned.
    pub fn changes(&self) -> &[Change]
        ensures { result.now ≡ self.now.changes }
    {
        self.changes.as_slice()
    }

    /// Forgets the changes and keeps the room.
    pub fn clear(&mut self)
        ensures { self.new ≡ record self.old { changes = [] } }
    {
        self.changes.clear();
    }

    /// Adds a change at the end, within the room.
    pub(crate) fn push(&mut self, change: Change)
        requires { length self.old.changes < self.old.room }
        ensures { self.new ≡ record self.old { changes = self.old.changes ++ change ∷ [] } }
    {
        self.changes.push_reserved(change);
    }

    /// How many areas a list of so many has after the plan.
    pub fn count_after(&self, count: u64) -> u64
        requires olds { length (olds_of self.now.changes) ≤ count }
        requires few { count < 2 ^ 63 }
        ensures { result + length (olds_of self.now.changes) ≡ count + length (news_of self.now.changes) }
    {
        let mut after = count;
        let changes = self.changes();
        for change in changes {
            match change {
                Change::Detach(_) => after -= 1,
                Change::Add(_) => after += 1,
                Change::Alter { .. } => {}
            }
        }
        after
    }
}
