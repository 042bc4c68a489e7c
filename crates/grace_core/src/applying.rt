//! The events on a state, each with its refusals.

ghost use Rattle.std.specs.Prelude.{◌≡◌, ◌<◌, ◌^◌, All, length, MatchResult};
ghost use Rattle.grace_core.specs.declared.events.GraceEvent.TheVariants.{Open, Root, Word, Close, Fill, Publish, Scan, Split, Join};
ghost use Rattle.grace_core.specs.declared.events.GraceRefusal.TheVariants.{NoMemory};
ghost use Rattle.grace_core.specs.States.{IsPossible, IsGraceStepDone, IsGraceStepRefused, IsGraceStep, HasReader, HasRow, CanJoin};

use crate::events::{GraceAnswer, GraceEvent, GraceRefusal};
use crate::rows::Rows;
use crate::state::GraceState;
use mm_types::{NoMemory, Row};

impl From<NoMemory> for GraceRefusal {
    ghost from_gives = { λ _ reason. reason ≡ NoMemory };

    fn from(_error: NoMemory) -> GraceRefusal {
        GraceRefusal::NoMemory
    }
}

/// The state after an event, with what the event finds. A refused event hands the same state back, with the reason.
pub fn apply(
    state: GraceState,
    event: GraceEvent,
) -> Result<(GraceState, GraceAnswer), (GraceState, GraceRefusal)>
    requires readers { length state.pins < 2 ^ 31 }
    requires possible { IsPossible state event }
    ensures { MatchResult result (λ done. IsGraceStepDone state event done.0 done.1) (λ refused. IsGraceStepRefused state event refused.0 refused.1) }
{
    let mut state = state;
    match state.step(event) {
        Ok(answer) => Ok((state, answer)),
        Err(refusal) => Err((state, refusal)),
    }
}

impl GraceState {
    /// Makes an event's change, unless it is refused.
    fn step(&mut self, event: GraceEvent) -> Result<GraceAnswer, GraceRefusal>
        requires readers { length self.old.pins < 2 ^ 31 }
        requires possible { IsPossible self.old event }
        ensures { IsGraceStep self.old event result self.new }
    {
        match event {
            GraceEvent::Open(reader) => self.open(reader),
            GraceEvent::Root(reader) => self.load_root(reader),
            GraceEvent::Word(reader, row) => self.word(reader, row),
            GraceEvent::Close(reader) => self.close(reader),
            GraceEvent::Fill(row, word) => self.fill(row, word),
            GraceEvent::Publish { tree, rows } => self.publish(tree, rows),
            GraceEvent::Scan(reader) => self.scan(reader),
            GraceEvent::Split(reader) => self.split(reader),
            GraceEvent::Join(first, second) => self.join(first, second),
        }
    }

    #[tactic(auto, unfolding(crate::specs::Refusals::grace_refusal))]
    fn open(&mut self, reader: u32) -> Result<GraceAnswer, GraceRefusal>
        requires { HasReader self.old reader }
        ensures { IsGraceStep self.old (Open reader) result self.new }
    {
        if self.protocol.is_open(reader) {
            return Err(GraceRefusal::AlreadyOpen);
        }
        self.protocol.open(reader);
        Ok(GraceAnswer::Done)
    }

    #[tactic(auto, unfolding(crate::specs::Refusals::grace_refusal))]
    fn load_root(&mut self, reader: u32) -> Result<GraceAnswer, GraceRefusal>
        requires { HasReader self.old reader }
        ensures { IsGraceStep self.old (Root reader) result self.new }
    {
        if !self.protocol.is_open(reader) {
            return Err(GraceRefusal::NotOpen);
        }
        let tree = self.protocol.writer_state().tree().number();
        let row = self.protocol.writer_state().tree().root();
        self.protocol.root(reader)?;
        Ok(GraceAnswer::Tree { tree, row })
    }

    #[tactic(auto, unfolding(crate::specs::Refusals::grace_refusal))]
    fn word(&mut self, reader: u32, row: Row) -> Result<GraceAnswer, GraceRefusal>
        ensures { IsGraceStep self.old (Word reader row) result self.new }
    {
        if !self.protocol.is_open(reader) {
            return Err(GraceRefusal::NotOpen);
        }
        if !self.protocol.shows(reader, row) {
            return Err(GraceRefusal::RowNotShown(row));
        }
        Ok(GraceAnswer::Word(self.protocol.word(reader, row)))
    }

    #[tactic(auto, unfolding(crate::specs::Refusals::grace_refusal))]
    fn close(&mut self, reader: u32) -> Result<GraceAnswer, GraceRefusal>
        requires { HasReader self.old reader }
        ensures { IsGraceStep self.old (Close reader) result self.new }
    {
        if !self.protocol.is_open(reader) {
            return Err(GraceRefusal::NotOpen);
        }
        self.protocol.close(reader);
        Ok(GraceAnswer::Done)
    }

    #[tactic(auto, unfolding(crate::specs::Refusals::grace_refusal))]
    fn fill(&mut self, row: Row, word: u64) -> Result<GraceAnswer, GraceRefusal>
        requires { HasRow self.old row.0 }
        ensures { IsGraceStep self.old (Fill row word) result self.new }
    {
        if !self.protocol.writer_state().is_free(row) {
            return Err(GraceRefusal::RowNotFree(row));
        }
        self.protocol.fill(row, word);
        Ok(GraceAnswer::Done)
    }

    #[tactic(auto, unfolding(crate::specs::Refusals::grace_refusal))]
    fn publish(&mut self, tree: u64, rows: Rows) -> Result<GraceAnswer, GraceRefusal>
        requires { All (λ row. HasRow self.old row.0) rows }
        ensures { IsGraceStep self.old (Publish tree rows) result self.new }
    {
        if !self.protocol.writer_state().is_next(tree) {
            return Err(GraceRefusal::WrongTree(tree));
        }
        if let Some(row) = self.protocol.writer_state().first_unfit(rows.items()) {
            return Err(GraceRefusal::RowNotFree(row));
        }
        self.protocol.publish(tree, rows.into_vec())?;
        Ok(GraceAnswer::Done)
    }

    #[tactic(auto, unfolding(crate::specs::Refusals::grace_refusal))]
    fn scan(&mut self, reader: u32) -> Result<GraceAnswer, GraceRefusal>
        requires { HasReader self.old reader }
        ensures { IsGraceStep self.old (Scan reader) result self.new }
    {
        let pin = self.protocol.pin(reader);
        self.protocol.scan(reader);
        Ok(GraceAnswer::Pin(pin))
    }

    #[tactic(auto, unfolding(crate::specs::Refusals::grace_refusal))]
    fn split(&mut self, reader: u32) -> Result<GraceAnswer, GraceRefusal>
        requires { length self.old.pins < 2 ^ 31 }
        ensures { IsGraceStep self.old (Split reader) result self.new }
    {
        let made = self.protocol.readers() as u32;
        self.protocol.split()?;
        Ok(GraceAnswer::Made(made))
    }

    #[tactic(auto, unfolding(crate::specs::Refusals::grace_refusal))]
    fn join(&mut self, first: u32, second: u32) -> Result<GraceAnswer, GraceRefusal>
        requires { CanJoin self.old first second }
        ensures { IsGraceStep self.old (Join first second) result self.new }
    {
        self.protocol.join(second);
        Ok(GraceAnswer::Done)
    }
}
