//! The state behind the lock of a named space.
ghost use Rattle.std.specs.Prelude.{◌≡◌, ◌<◌, ◌+◌, ◌++◌, ◌∷◌, [], true, false, IfOk, length, slice_index_or};
ghost use Rattle.mm_types.specs.declared.call.Call.TheVariants.{Touch};
ghost use Rattle.mm_types.specs.declared.call.Reply.TheVariants.{Grown};
ghost use Rattle.area_rules.specs.Growing.{grows};
ghost use Rattle.area_rules.specs.Journals.{calls_by};
ghost use Rattle.area_rules.specs.Steps.{step, after, IsLegalJournal};
ghost use Rattle.area_rules.specs.Verdicts.{verdict};
ghost use Rattle.lock_core.specs.declared.stage.Stage.TheVariants.{Out};
ghost use Rattle.lock_core.specs.Core.{StartsWith};
ghost use Rattle.lock_core.specs.Facts.{list_after};
ghost use Rattle.vma_lock.specs.Seats.{lock_view, seen, stage, HasTurn};
ghost use Rattle.mm_space.specs.Names.{MadeWithin, since, IsNamed};
ghost use Rattle.mm_space.specs.Spaces.{MeetsState};

use crate::name::SpaceName;
use mm_state::MmState;
use mm_types::{Access, AreaList, Call, Entry, NoMemory, Page, Record, Reply, Verdict};
use std::alloc::Global;
use std::marker::{Model, PhantomData};
use std::sync::Wait;
use vma_lock::ReaderSeat;

/// The state of the space of this name. It has room for the calls of every caller that has operations left.
#[derive(Drop)]
pub struct Named<N: SpaceName> {
    state: MmState,
    of: PhantomData<N>,
}

impl<N: SpaceName> Model for Named<N> {
    ghost use Rattle.mm_state.specs.States.{StateView};
    ghost use Rattle.mm_space.specs.Names.{IsNamed};

    ghost Value = { StateView };

    ghost view = { λ n. n.state };

    ghost invariant = { λ n. IsNamed N.name n.state };
}

impl<N: SpaceName> Named<N> {
    /// Gives a state its name.
    pub(crate) fn new(state: MmState) -> Named<N>
        requires { IsNamed N.name state }
        ensures { result ≡ state }
    {
        Named {
            state,
            of: PhantomData,
        }
    }

    /// Makes a call with the turn of a reader whose caller has made fewer calls than it may, and enters it in the journal.
    /// The reader has then seen the whole journal, by one look more, and has its turn again.
    pub(crate) fn apply<R: Wait>(&mut self, rt: &R, seat: &mut ReaderSeat, call: &Call) -> Reply
        requires table { seat.old.seat.table_id ≡ N.name.table }
        requires turn { HasTurn seat.old }
        requires free { stage seat.old ≡ Out }
        requires room { length (calls_by (lock_view seat.old).caller (seen seat.old)) < slice_index_or N.name.operations (lock_view seat.old).caller 0 }
        ensures meets { MeetsState N.name self.old.journal self.new.journal seat.old seat.new }
        ensures entry { self.new.journal ≡ self.old.journal ++ record { caller = (lock_view seat.old).caller; call = call.now; reply = result } ∷ [] }
        ensures reply { result ≡ (step N.name.config (after N.name.config self.old.journal) call.now).reply }
    {
        let reply = self.state.apply(rt, seat, call);
        self.state.facts();
        reply
    }

    /// Grows the area that a fault at a page grows, by a touch with the turn of a reader, which is entered as any call is. Answers the
    /// area as it is then.
    pub(crate) fn touch<R: Wait>(
        &mut self,
        rt: &R,
        seat: &mut ReaderSeat,
        page: Page,
        access: Access,
    ) -> Record
        requires table { seat.old.seat.table_id ≡ N.name.table }
        requires turn { HasTurn seat.old }
        requires free { stage seat.old ≡ Out }
        requires room { length (calls_by (lock_view seat.old).caller (seen seat.old)) < slice_index_or N.name.operations (lock_view seat.old).caller 0 }
        requires grows { grows N.name.config (list_after N.name.config self.old.journal) page.0 access ≡ true }
        ensures meets { MeetsState N.name self.old.journal self.new.journal seat.old seat.new }
        ensures entry { self.new.journal ≡ self.old.journal ++ record { caller = (lock_view seat.old).caller; call = Touch page access; reply = Grown result 0 } ∷ [] }
    {
        match self.apply(rt, seat, &Call::Touch { page, access }) {
            Reply::Grown { area, index: _ } => area,
            _ => unreachable!(),
        }
    }

    /// A reader that holds no slot sees the whole journal, by one look.
    pub(crate) fn meet(&mut self, seat: &mut ReaderSeat)
        requires table { seat.old.seat.table_id ≡ N.name.table }
        requires turn { HasTurn seat.old }
        requires free { stage seat.old ≡ Out }
        ensures meets { MeetsState N.name self.old.journal self.new.journal seat.old seat.new }
        ensures state { self.new ≡ self.old }
    {
        self.state.facts();
        self.state.meet(seat);
    }

    /// Whether a fault at a page grows an area.
    pub(crate) fn grows(&self, page: Page, access: Access) -> bool
        ensures { result ≡ grows N.name.config (list_after N.name.config self.now.journal) page.0 access }
    {
        self.state.grows(page, access)
    }

    /// The verdict on a fault at a page that grows no area.
    pub(crate) fn verdict(&self, page: Page, access: Access) -> Verdict
        requires { grows N.name.config (list_after N.name.config self.now.journal) page.0 access ≡ false }
        ensures { result ≡ verdict N.name.config (list_after N.name.config self.now.journal) page.0 access }
    {
        self.state.verdict(page, access)
    }

    /// A copy of the list of areas.
    pub(crate) fn copy_list(&self, alloc: Global) -> Result<AreaList, NoMemory>
        ensures { IfOk result (λ list. list ≡ list_after N.name.config self.now.journal) }
    {
        self.state.copy_list(alloc)
    }

    /// Hands the journal and the list out.
    pub(crate) fn finish(self) -> (Vec<Entry>, AreaList)
        ensures journal { result.0.items ≡ self.journal }
        ensures list { result.1 ≡ list_after N.name.config self.journal }
        ensures legal { IsLegalJournal N.name.config self.journal }
        ensures begins { StartsWith self.journal N.name.before }
        ensures within { MadeWithin N.name.operations (since N.name.before self.journal) }
    {
        self.state.finish()
    }
}
