//! The events on a state, each with its refusals.

ghost use Rattle.std.specs.Prelude.{◌≡◌, ◌<◌, ◌^◌, All, length, map, option_map, MatchResult};
ghost use Rattle.mm_types.specs.Packed.{packed};
ghost use Rattle.mm_types.specs.Records.{IsValid};
ghost use Rattle.lock_core.specs.declared.events.LockEvent.TheVariants.{Add, Look, Field, Sub, Begin, Mark, Store, End, Split, Join};
ghost use Rattle.lock_core.specs.declared.events.StepRefusal.TheVariants.{NotTheList, NoMemory};
ghost use Rattle.lock_core.specs.Refusals.{first_difference};
ghost use Rattle.lock_core.specs.States.{NamesField, IsLockStepDone, IsLockStepRefused, IsLockStep, HasRoom};

use crate::events::{LockAnswer, LockEvent, StepRefusal};
use crate::rows::{first_difference, sorted_rows};
use crate::state::LockState;
use area_model::model_step;
use mm_types::{Call, Entry, NoMemory, Record, Slot};
use std::alloc::Global;

impl From<NoMemory> for StepRefusal {
    ghost from_gives = { λ _ reason. reason ≡ NoMemory };

    fn from(_error: NoMemory) -> StepRefusal {
        StepRefusal::NoMemory
    }
}

/// The state after an event, with what the event finds. A refused event hands the same state back, with the reason.
pub fn apply(
    alloc: Global,
    state: LockState,
    event: LockEvent,
) -> Result<(LockState, LockAnswer), (LockState, StepRefusal)>
    requires entries { length state.core.journal < 2 ^ 31 }
    requires readers { length state.core.readers < 2 ^ 31 }
    requires field { NamesField event }
    ensures { MatchResult result (λ done. IsLockStepDone state event done.0 done.1) (λ refused. IsLockStepRefused state event refused.0 refused.1) }
{
    let mut state = state;
    match state.step(alloc, event) {
        Ok(answer) => Ok((state, answer)),
        Err(refusal) => Err((state, refusal)),
    }
}

/// Why a call does not end with these rows and this list, if it does not.
fn list_refusal(rows: &[[u64; 4]], areas: &[Record]) -> Option<StepRefusal>
    requires { All IsValid areas.now }
    ensures { result ≡ option_map NotTheList (first_difference rows.now (map packed areas.now)) }
{
    let place = first_difference(rows, areas)?;
    Some(StepRefusal::NotTheList(place as u64))
}

impl LockState {
    /// Makes an event's change, unless it is refused.
    fn step(&mut self, alloc: Global, event: LockEvent) -> Result<LockAnswer, StepRefusal>
        requires room { HasRoom self.old }
        requires field { NamesField event }
        ensures { IsLockStep self.old event result self.new }
    {
        match event {
            LockEvent::Add(reader, slot) => self.add(reader, slot),
            LockEvent::Look(reader) => self.look(reader),
            LockEvent::Field(reader, field) => self.field(reader, field),
            LockEvent::Sub(reader) => self.sub(reader),
            LockEvent::Begin => self.begin(),
            LockEvent::Mark(slot) => self.mark_slot(slot),
            LockEvent::Store(slot, field, word) => self.store(slot, field, word),
            LockEvent::End(caller, call) => self.end(alloc, caller, call),
            LockEvent::Split(reader) => self.split(reader),
            LockEvent::Join(first, second) => self.join(first, second),
        }
    }

    #[tactic(auto, unfolding(crate::specs::Refusals::lock_refusal))]
    fn add(&mut self, reader: u32, slot: Slot) -> Result<LockAnswer, StepRefusal>
        requires room { HasRoom self.old }
        ensures { IsLockStep self.old (Add reader slot) result self.new }
    {
        if self.protocol.lacks_reader(reader) || self.protocol.lacks_slot(slot) {
            return Err(StepRefusal::NoSlot);
        }
        if self.protocol.held(reader).is_some() {
            return Err(StepRefusal::AlreadyHeld);
        }
        let found = self.protocol.slot(slot).lock_seq;
        self.protocol.add(reader, slot);
        Ok(LockAnswer::Found(found))
    }

    #[tactic(auto, unfolding(crate::specs::Refusals::lock_refusal))]
    fn look(&mut self, reader: u32) -> Result<LockAnswer, StepRefusal>
        ensures { IsLockStep self.old (Look reader) result self.new }
    {
        if self.protocol.lacks_reader(reader) {
            return Err(StepRefusal::NoSlot);
        }
        let seq = self.protocol.seq();
        let held = self.protocol.held(reader);
        self.protocol.look(reader);
        match held {
            Some((_, found)) if found == seq => Ok(LockAnswer::Marked(seq)),
            _ => Ok(LockAnswer::Version {
                seq,
                version: seq / 2 - 1,
            }),
        }
    }

    #[tactic(auto, unfolding(crate::specs::Refusals::lock_refusal))]
    fn field(&mut self, reader: u32, field: u32) -> Result<LockAnswer, StepRefusal>
        requires { field < 4 }
        ensures { IsLockStep self.old (Field reader field) result self.new }
    {
        if self.protocol.lacks_reader(reader) {
            return Err(StepRefusal::NoSlot);
        }
        match self.protocol.held(reader) {
            Some((slot, _)) => {
                let row = self.protocol.slot(Slot(slot)).row;
                Ok(LockAnswer::Word(row[field as usize]))
            }
            None => Err(StepRefusal::NotHeld),
        }
    }

    #[tactic(auto, unfolding(crate::specs::Refusals::lock_refusal))]
    fn sub(&mut self, reader: u32) -> Result<LockAnswer, StepRefusal>
        ensures { IsLockStep self.old (Sub reader) result self.new }
    {
        if self.protocol.lacks_reader(reader) {
            return Err(StepRefusal::NoSlot);
        }
        match self.protocol.held(reader) {
            Some((slot, _)) => {
                self.protocol.sub(reader, Slot(slot));
                Ok(LockAnswer::Done)
            }
            None => Err(StepRefusal::NotHeld),
        }
    }

    #[tactic(auto, unfolding(crate::specs::Refusals::lock_refusal))]
    fn begin(&mut self) -> Result<LockAnswer, StepRefusal>
        requires room { HasRoom self.old }
        ensures { IsLockStep self.old Begin result self.new }
    {
        if self.protocol.is_open() {
            return Err(StepRefusal::AlreadyOpen);
        }
        self.protocol.begin();
        Ok(LockAnswer::Done)
    }

    #[tactic(auto, unfolding(crate::specs::Refusals::lock_refusal))]
    fn mark_slot(&mut self, slot: Slot) -> Result<LockAnswer, StepRefusal>
        ensures { IsLockStep self.old (Mark slot) result self.new }
    {
        if self.protocol.lacks_slot(slot) {
            return Err(StepRefusal::NoSlot);
        }
        if !self.protocol.is_open() {
            return Err(StepRefusal::NotOpen);
        }
        let count = self.protocol.count(slot);
        if count > 0 {
            return Err(StepRefusal::ReadersLeft(count));
        }
        self.protocol.mark(slot);
        Ok(LockAnswer::Done)
    }

    #[tactic(auto, unfolding(crate::specs::Refusals::lock_refusal))]
    fn store(&mut self, slot: Slot, field: u32, word: u64) -> Result<LockAnswer, StepRefusal>
        requires { field < 4 }
        ensures { IsLockStep self.old (Store slot field word) result self.new }
    {
        if self.protocol.lacks_slot(slot) {
            return Err(StepRefusal::NoSlot);
        }
        if !self.protocol.is_open() {
            return Err(StepRefusal::NotOpen);
        }
        if self.protocol.slot(slot).lock_seq != self.protocol.seq() {
            return Err(StepRefusal::NotMarked);
        }
        self.protocol.store(slot, field, word);
        Ok(LockAnswer::Done)
    }

    #[tactic(auto, unfolding(crate::specs::Refusals::lock_refusal))]
    fn end(&mut self, alloc: Global, caller: u32, call: Call) -> Result<LockAnswer, StepRefusal>
        requires room { HasRoom self.old }
        ensures { IsLockStep self.old (End caller call) result self.new }
    {
        if !self.protocol.is_open() {
            return Err(StepRefusal::NotOpen);
        }
        let stepped = model_step(alloc, &self.config, self.counters, &self.list, &call)?;
        let rows = sorted_rows(alloc, self.protocol.slots())?;
        if let Some(refusal) = list_refusal(rows.as_slice(), stepped.list.items()) {
            return Err(refusal);
        }
        let reply = stepped.reply;
        self.protocol.end(Entry {
            caller,
            call,
            reply,
        })?;
        self.list = stepped.list;
        self.counters = stepped.counters;
        Ok(LockAnswer::Done)
    }

    #[tactic(auto, unfolding(crate::specs::Refusals::lock_refusal))]
    fn split(&mut self, reader: u32) -> Result<LockAnswer, StepRefusal>
        requires room { HasRoom self.old }
        ensures { IsLockStep self.old (Split reader) result self.new }
    {
        if self.protocol.lacks_reader(reader) {
            return Err(StepRefusal::NoSlot);
        }
        let made = self.protocol.readers();
        self.protocol.split(reader)?;
        Ok(LockAnswer::Made(made as u32))
    }

    #[tactic(auto, unfolding(crate::specs::Refusals::lock_refusal))]
    fn join(&mut self, first: u32, second: u32) -> Result<LockAnswer, StepRefusal>
        ensures { IsLockStep self.old (Join first second) result self.new }
    {
        if self.protocol.lacks_reader(first)
            || self.protocol.lacks_reader(second)
            || first == second
        {
            return Err(StepRefusal::NoSlot);
        }
        if self.protocol.held(second).is_some() {
            return Err(StepRefusal::AlreadyHeld);
        }
        self.protocol.join(first, second);
        Ok(LockAnswer::Done)
    }
}
