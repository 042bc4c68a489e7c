ghost use Rattle.std.specs.Prelude.{◌≡◌, ◌<◌, ◌^◌, IfOk, length};
ghost use Rattle.mm_types.specs.Config.{IsValidConfig};
ghost use Rattle.lock_core.specs.Core.{slot_at, count_at};
ghost use Rattle.lock_core.specs.Facts.{LockFacts};
ghost use Rattle.lock_core.specs.States.{opening_core};

use crate::protocol::LockProtocol;
use mm_types::{AreaList, Config, Counters, NoMemory, Slot};
use std::alloc::Global;
use std::marker::Model;

/// A state of the lock protocol over an address space of this configuration.
#[derive(Debug, Drop)]
pub struct LockState {
    pub(crate) config: Config,
    pub(crate) protocol: LockProtocol,
    /// The list after the journal.
    pub(crate) list: AreaList,
    /// How many objects are numbered after it, and the break.
    pub(crate) counters: Counters,
}

impl Model for LockState {
    ghost use Rattle.lock_core.specs.States.{Lock};

    ghost Value = { Lock };

    ghost use Rattle.lock_core.specs.Kept.{lock_of, IsLockKept};

    ghost view = { lock_of };

    ghost invariant = { IsLockKept };
}

impl LockState {
    /// The state before anything happened, with so many readers, numbered from 0, and slots.
    pub fn new(
        alloc: Global,
        config: Config,
        readers: u32,
        slots: u32,
    ) -> Result<LockState, NoMemory>
        requires valid { IsValidConfig config }
        requires readers { readers < 2 ^ 31 }
        ensures { IfOk result (λ state. state ≡ record { config = config; core = opening_core readers slots }) }
    {
        let protocol = LockProtocol::new(alloc, readers, slots)?;
        let list = AreaList::of(Vec::new(alloc));
        let counters = Counters::opening(&config);
        Ok(LockState {
            config,
            protocol,
            list,
            counters,
        })
    }

    /// The sequence. Of every state the five facts hold, and its configuration is valid.
    pub fn seq(&self) -> u64
        ensures seq { result ≡ self.now.core.seq }
        ensures valid { IsValidConfig self.now.config }
        ensures facts { LockFacts self.now.config self.now.core }
    {
        self.protocol.seq()
    }

    /// How many slots there are.
    pub fn slots(&self) -> u32
        ensures { result ≡ length self.now.core.slots }
    {
        self.protocol.slots().len() as u32
    }

    /// The lock sequence of a slot, and how many readers hold it.
    pub fn mark(&self, slot: Slot) -> (u64, u64)
        requires { slot.0 < length self.now.core.slots }
        ensures lock_seq { result.0 ≡ (slot_at self.now.core.slots slot.0).lock_seq }
        ensures count { result.1 ≡ count_at self.now.core.counts slot.0 }
    {
        (self.protocol.slot(slot).lock_seq, self.protocol.count(slot))
    }
}
