ghost use Rattle.std.specs.Prelude.{◌≡◌, ◌<◌, ◌≤◌, ◌%◌, ◌^◌, nat_eq, IfOk, MatchResult, length};
ghost use Rattle.lock_core.specs.Core.{slot_at, count_at, reader_at, slot_held};
ghost use Rattle.lock_core.specs.States.{opening_core};
ghost use Rattle.lock_core.specs.Internal.Protocols.{reader_that_saw};
ghost use Rattle.lock_core.specs.Refusals.{lacks_reader, lacks_slot};
ghost use Rattle.lock_core.specs.Events.{after_add, after_look, after_sub, after_begin, after_mark, after_store, after_end, after_lock_split, after_lock_join, held_slot, stage_after_look};

use crate::stage::{SlotState, Stage};
use mm_types::{Entry, NoMemory, Slot};
use std::alloc::Global;
use std::marker::Model;

/// A slot that was never marked.
const FREE_SLOT: SlotState = SlotState {
    lock_seq: 0,
    row: [0; 4],
};

/// A reader: where it stands, and how many entries of the journal it has seen.
#[derive(Clone, Copy, Debug, PartialEq, Eq)]
pub(crate) struct ReaderState {
    stage: Stage,
    seen: usize,
}

/// What stands for a reader that is none.
const GONE: ReaderState = ReaderState {
    stage: Stage::Gone,
    seen: 0,
};

/// The state without its configuration.
#[derive(Debug, Drop)]
pub(crate) struct LockProtocol {
    seq: u64,
    slots: Vec<SlotState>,
    counts: Vec<u64>,
    readers: Vec<ReaderState>,
    journal: Vec<Entry>,
}

impl Model for LockProtocol {
    ghost use Rattle.lock_core.specs.Core.{LockCore};

    ghost Value = { LockCore };

    ghost use Rattle.lock_core.specs.Internal.Protocols.{lock_core_of, AreSeen};

    ghost view = { lock_core_of };

    ghost invariant = { AreSeen };
}

impl LockProtocol {
    /// The state before anything happened.
    pub(crate) fn new(alloc: Global, readers: u32, slots: u32) -> Result<LockProtocol, NoMemory>
        ensures { IfOk result (λ state. state ≡ opening_core readers slots) }
    {
        let reader = ReaderState {
            stage: Stage::Out,
            seen: 0,
        };
        Ok(LockProtocol {
            seq: 2,
            slots: vec![in alloc; FREE_SLOT; slots as usize]?,
            counts: vec![in alloc; 0; slots as usize]?,
            readers: vec![in alloc; reader; readers as usize]?,
            journal: Vec::new(alloc),
        })
    }

    /// The sequence.
    pub(crate) fn seq(&self) -> u64
        ensures { result ≡ self.now.seq }
    {
        self.seq
    }

    /// The slots, without their counts.
    pub(crate) fn slots(&self) -> &[SlotState]
        ensures { result.now ≡ self.now.slots }
    {
        self.slots.as_slice()
    }

    /// How many readers were made.
    pub(crate) fn readers(&self) -> usize
        ensures { result ≡ length self.now.readers }
    {
        self.readers.len()
    }

    /// The slot of a number.
    pub(crate) fn slot(&self, slot: Slot) -> SlotState
        ensures { result ≡ slot_at self.now.slots slot.0 }
    {
        self.slots
            .get(slot.0 as usize)
            .copied()
            .unwrap_or(FREE_SLOT)
    }

    /// How many readers hold a slot.
    pub(crate) fn count(&self, slot: Slot) -> u64
        ensures { result ≡ count_at self.now.counts slot.0 }
    {
        self.counts.get(slot.0 as usize).copied().unwrap_or(0)
    }

    /// Where a reader stands.
    pub(crate) fn stage(&self, reader: u32) -> Stage
        ensures { result ≡ (reader_at self.now.readers reader).stage }
    {
        self.reader(reader).stage
    }

    /// Whether a call is open.
    pub(crate) fn is_open(&self) -> bool
        ensures { result ≡ nat_eq (self.now.seq % 2) 1 }
    {
        self.seq % 2 == 1
    }

    /// Whether no reader has this number.
    pub(crate) fn lacks_reader(&self, reader: u32) -> bool
        ensures { result ≡ lacks_reader self.now reader }
    {
        matches!(self.stage(reader), Stage::Gone)
    }

    /// Whether no slot has this number.
    pub(crate) fn lacks_slot(&self, slot: Slot) -> bool
        ensures { result ≡ lacks_slot self.now slot.0 }
    {
        self.slots.len() <= slot.0 as usize
    }

    /// The slot that a reader holds, with the lock sequence that its add found there.
    pub(crate) fn held(&self, reader: u32) -> Option<(u32, u64)>
        ensures { result ≡ slot_held (reader_at self.now.readers reader).stage }
    {
        match self.stage(reader) {
            Stage::Holds { slot, found } | Stage::Valid { slot, found, .. } => Some((slot, found)),
            Stage::Out | Stage::Gone => None,
        }
    }

    /// A reader, with how many entries it has seen.
    fn reader(&self, reader: u32) -> ReaderState
        ensures reader { reader_at self.now.readers reader ≡ reader_that_saw self.now.journal result }
        ensures seen { result.seen ≤ length self.now.journal }
    {
        self.readers.get(reader as usize).copied().unwrap_or(GONE)
    }

    /// Counts one reader more in a slot, which the reader then holds.
    pub(crate) fn add(&mut self, reader: u32, slot: Slot)
        requires reader { reader < length self.old.readers }
        requires slot { slot.0 < length self.old.slots }
        requires counts { length self.old.counts ≡ length self.old.slots }
        requires room { count_at self.old.counts slot.0 < 2 ^ 32 }
        ensures { self.new ≡ after_add self.old reader slot.0 }
    {
        let found = self.slot(slot).lock_seq;
        let count = self.count(slot);
        let seen = self.reader(reader).seen;
        let stage = Stage::Holds {
            slot: slot.0,
            found,
        };
        self.counts[slot.0 as usize] = count + 1;
        self.readers[reader as usize] = ReaderState { stage, seen };
    }

    /// Where a reader stands after a look.
    fn looked(&self, stage: Stage) -> Stage
        ensures { result ≡ stage_after_look self.now.seq self.now.slots stage }
    {
        match stage {
            Stage::Holds { slot, found } if found != self.seq => {
                let row = self.slot(Slot(slot)).row;
                Stage::Valid { slot, found, row }
            }
            _ => stage,
        }
    }

    /// Shows a reader the whole journal.
    pub(crate) fn look(&mut self, reader: u32)
        requires reader { reader < length self.old.readers }
        ensures { self.new ≡ after_look self.old reader }
    {
        let stage = self.looked(self.stage(reader));
        let seen = self.journal.len();
        self.readers[reader as usize] = ReaderState { stage, seen };
    }

    /// Counts one reader fewer in the slot that the reader holds, and then it holds nothing.
    pub(crate) fn sub(&mut self, reader: u32, slot: Slot)
        requires reader { reader < length self.old.readers }
        requires slot { held_slot self.old reader ≡ slot.0 }
        requires counted { slot.0 < length self.old.counts }
        ensures { self.new ≡ after_sub self.old reader }
    {
        let count = self.count(slot);
        let seen = self.reader(reader).seen;
        let stage = Stage::Out;
        self.counts[slot.0 as usize] = count.saturating_sub(1);
        self.readers[reader as usize] = ReaderState { stage, seen };
    }

    /// Begins a call.
    pub(crate) fn begin(&mut self)
        requires room { self.old.seq < 2 ^ 34 }
        ensures { self.new ≡ after_begin self.old }
    {
        self.seq += 1;
    }

    /// Marks a slot.
    pub(crate) fn mark(&mut self, slot: Slot)
        requires slot { slot.0 < length self.old.slots }
        ensures { self.new ≡ after_mark self.old slot.0 }
    {
        self.slots[slot.0 as usize].lock_seq = self.seq;
    }

    /// Writes a word of a slot's row.
    pub(crate) fn store(&mut self, slot: Slot, field: u32, word: u64)
        requires slot { slot.0 < length self.old.slots }
        requires field { field < 4 }
        ensures { self.new ≡ after_store self.old slot.0 field word }
    {
        self.slots[slot.0 as usize].row[field as usize] = word;
    }

    /// Ends a call with its entry.
    pub(crate) fn end(&mut self, entry: Entry) -> Result<(), NoMemory>
        requires room { self.old.seq < 2 ^ 34 }
        ensures { MatchResult result (λ _. self.new ≡ after_end self.old entry) (λ _. self.new ≡ self.old) }
    {
        self.journal.push(entry)?;
        self.seq += 1;
        Ok(())
    }

    /// Makes a reader that has seen what this one has.
    pub(crate) fn split(&mut self, reader: u32) -> Result<(), NoMemory>
        requires reader { reader < length self.old.readers }
        ensures { MatchResult result (λ _. self.new ≡ after_lock_split self.old reader) (λ _. self.new ≡ self.old) }
    {
        let seen = self.reader(reader).seen;
        let stage = Stage::Out;
        self.readers.push(ReaderState { stage, seen })?;
        Ok(())
    }

    /// Joins the second reader into the first.
    pub(crate) fn join(&mut self, first: u32, second: u32)
        requires first { first < length self.old.readers }
        requires second { second < length self.old.readers }
        ensures { self.new ≡ after_lock_join self.old first second }
    {
        let stage = self.stage(first);
        let seen = self.reader(first).seen.max(self.reader(second).seen);
        self.readers[first as usize] = ReaderState { stage, seen };
        self.readers[second as usize] = GONE;
    }
}
