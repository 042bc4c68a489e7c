//! The pass of a caller.
ghost use Rattle.std.specs.Prelude.{◌≡◌, ◌≤◌, ◌<◌, ◌+◌, ◌-◌, ◌^◌, ◌++◌, ◌∷◌, [], length, min, All, AllPairs, IfOk};
ghost use Rattle.area_rules.specs.Journals.{version_of, IsReadRight};
ghost use Rattle.area_rules.specs.Steps.{IsLegalJournal};
ghost use Rattle.lock_core.specs.declared.stage.Stage.TheVariants.{Out};
ghost use Rattle.vma_lock.specs.Seats.{seen, stage, HasTurn};
ghost use Rattle.node_slots.specs.Seats.{IsClosed};
ghost use Rattle.fault_path.specs.Passes.{caller, pass_config, seen_by, made_by, looks_of, walks_of};

use mm_types::{NoMemory, Seen, Steps};
use mmap_lock::CountsTakes;
use node_slots::NodeSeat;
use std::alloc::Global;
use std::marker::Model;
use vma_lock::ReaderSeat;

/// What a caller has of its own: its seats at the table of areas and at the table of nodes, the log of its reads, and how many
/// operations it has left. Each call, fault or list that it asks for is one operation.
#[derive(Drop)]
pub struct Pass {
    pub reader: ReaderSeat,
    /// Lent for as long as the caller has the mmap lock.
    pub unlocked: Unlocked,
    pub rest: Rest,
}

/// What says that a caller doesn't have the mmap lock. It has no bytes. One is made with each pass, and none is copied: so a caller
/// that lent it can't take the lock again, and no function that it hands its pass to can. Contracts see it as how often the caller
/// took the lock.
#[derive(Drop)]
pub struct Unlocked {
    takes: Steps<Takes>,
}

/// Names the count of takes.
struct Takes;

impl Model for Unlocked {
    ghost use Rattle.std.specs.Prelude.{ℕ};

    ghost Value = { ℕ };

    ghost view = { λ u. u.takes };
}

impl CountsTakes for Unlocked {
    ghost takes = { λ count. count };

    fn count_take(&mut self)
        ensures { self.new ≡ self.old + 1 }
    {
        self.takes.tick();
    }
}

/// What a pass has beside its seat at the table of areas.
#[derive(Drop)]
pub struct Rest {
    pub(crate) nodes: NodeSeat,
    pub(crate) log: Vec<Seen>,
    pub(crate) left: u64,
    pub(crate) operations: u64,
}

impl Model for Pass {
    ghost use Rattle.std.specs.Prelude.{vec_capacity};
    ghost use Rattle.fault_path.specs.Passes.{PassView, IsPass, pass_of};

    ghost Value = { PassView };

    ghost view = { λ p. pass_of p.reader p.unlocked p.rest };

    ghost invariant = { λ p. IsPass (pass_of p.reader p.unlocked p.rest) (vec_capacity p.rest.log) };
}

impl Pass {
    /// The pass of seats that did nothing, with so many operations. The room for as many reads is taken here.
    pub(crate) fn new(
        alloc: Global,
        reader: ReaderSeat,
        nodes: NodeSeat,
        operations: u64,
    ) -> Result<Pass, NoMemory>
        requires seen { seen reader ≡ [] }
        requires turn { HasTurn reader }
        requires free { stage reader ≡ Out }
        requires closed { IsClosed nodes }
        requires few { operations < 2 ^ 32 }
        ensures { IfOk result (λ pass. pass ≡ record { reader = reader; nodes = nodes; log = []; left = operations; operations = operations; takes = 0 }) }
    {
        let rest = Rest {
            nodes,
            log: Vec::with_capacity(alloc, operations as usize)?,
            left: operations,
            operations,
        };
        let unlocked = Unlocked {
            takes: Steps::new(),
        };
        Ok(Pass {
            reader,
            unlocked,
            rest,
        })
    }

    /// Whose pass it is.
    pub fn caller(&self) -> u32
        ensures { result ≡ caller self.now }
    {
        self.reader.caller()
    }

    /// How many entries of the journal it has seen.
    pub fn version(&self) -> u64
        ensures { result ≡ length (seen_by self.now) }
    {
        self.reader.version()
    }

    /// How often it looked at the sequence, or 2^64 - 1 where it looked more often.
    pub fn looks(&self) -> u64
        ensures { result ≡ min (looks_of self.now) (2 ^ 64 - 1) }
    {
        self.reader.looks()
    }

    /// How often it walked the tree of areas, or 2^64 - 1 where it walked more often.
    pub fn walks(&self) -> u64
        ensures { result ≡ min (walks_of self.now) (2 ^ 64 - 1) }
    {
        self.rest.nodes.walks()
    }

    /// How many operations are left.
    pub fn left(&self) -> u64
        ensures { result ≡ self.now.left }
    {
        self.rest.left
    }

    /// The reads so far, in order.
    pub fn log(&self) -> &[Seen]
        ensures { result.now ≡ self.now.log }
    {
        self.rest.log.as_slice()
    }

    /// Tells what each pass keeps.
    pub fn facts(&self)
        ensures legal { IsLegalJournal (pass_config self.now) (seen_by self.now) }
        ensures turn { HasTurn self.now.reader }
        ensures free { stage self.now.reader ≡ Out }
        ensures closed { IsClosed self.now.nodes }
        ensures right { All (IsReadRight (pass_config self.now) (seen_by self.now)) self.now.log }
        ensures rises { AllPairs (λ earlier later. version_of earlier ≤ version_of later) self.now.log }
        ensures few { length (made_by self.now) + length self.now.log + self.now.left ≤ self.now.operations }
    {
        let _left = self.rest.left;
    }

    /// Adds a read to the log, as one operation. The read is right in what the pass has seen, and no read before it has a
    /// greater version.
    pub fn note(&mut self, read: Seen)
        requires left { 0 < self.old.left }
        requires right { IsReadRight (pass_config self.old) (seen_by self.old) read }
        requires rises { All (λ earlier. version_of earlier ≤ version_of read) self.old.log }
        ensures { self.new ≡ record self.old { log = self.old.log ++ read ∷ []; left = self.old.left - 1 } }
    {
        self.spend();
        self.rest.log.push_reserved(read);
    }

    /// Takes one operation, for a call that is to be made. Tells how many entries the caller can have made at most.
    pub fn spend(&mut self)
        requires left { 0 < self.old.left }
        ensures same { self.new ≡ record self.old { left = self.old.left - 1 } }
        ensures few { length (made_by self.old) + length self.old.log + self.old.left ≤ self.old.operations }
    {
        self.rest.spend();
    }

    /// Ends the pass, and hands its log out.
    pub fn into_log(self) -> Vec<Seen>
        ensures { result.items ≡ self.log }
    {
        let Pass {
            reader: _,
            unlocked: _,
            rest,
        } = self;
        let Rest {
            nodes: _,
            log,
            left: _,
            operations: _,
        } = rest;
        log
    }
}

impl Rest {
    /// Takes one operation, where a caller has the mmap lock.
    pub fn spend(&mut self)
        requires { 0 < self.old.left }
        ensures { self.new ≡ record self.old { left = self.old.left - 1 } }
    {
        self.left -= 1;
    }
}
