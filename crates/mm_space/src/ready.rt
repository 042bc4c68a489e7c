//! A space before it is opened.
ghost use Rattle.std.specs.Prelude.{◌≡◌, ◌≤◌, ◌<◌, ◌+◌, [], IfOk, length, sum};
ghost use Rattle.area_rules.specs.Steps.{IsLegalJournal};
ghost use Rattle.area_rules.specs.Journals.{calls_by};
ghost use Rattle.fault_path.specs.Passes.{AreFresh, AreUnused, IsLater, caller, pass_config, seen_by, looks_of};
ghost use Rattle.mm_space.specs.Names.{viewed_of, AreStrangers};
ghost use Rattle.mm_space.specs.Opening.{operations_of, met_space, AreOpened};
ghost use Rattle.mm_types.specs.Config.{IsValidConfig};

use fault_path::{FaultView, Pass};
use mm_state::MmState;
use mm_types::{Config, Entry, NoMemory, Seen};
use std::alloc::Global;
use std::marker::Model;
use std::sync::Wait;

/// All that a space is made of, with the memory of every later call but `Space::maps`, and for closing too.
#[derive(Drop)]
pub struct Ready {
    pub(crate) view: FaultView,
    pub(crate) state: MmState,
    pub(crate) passes: Vec<Pass>,
    /// Empty, with room for the log of each caller.
    pub(crate) logs: Vec<Vec<Seen>>,
}

impl Model for Ready {
    ghost use Rattle.std.specs.Prelude.{vec_len, vec_capacity};
    ghost use Rattle.mm_space.specs.Names.{SpaceId};
    ghost use Rattle.mm_space.specs.Opening.{viewed_space, CanBeOpened};

    ghost Value = { SpaceId };

    ghost view = { λ r. viewed_space r.view r.state r.passes.items };

    ghost invariant = { λ r. CanBeOpened r.view r.state r.passes.items (vec_len r.logs) (vec_capacity r.logs) };
}

impl Ready {
    /// Makes a space that can be opened: an empty address space with this configuration, and as many callers as there are
    /// numbers of operations, in their order. There are 1 to 64 callers, with at most 16,777,216 operations together.
    /// Refused only where memory runs out.
    pub fn make(alloc: Global, config: Config, operations: &[u64]) -> Result<Ready, NoMemory>
        requires config { IsValidConfig config }
        requires callers { (1 ≤ length operations.now) × (length operations.now ≤ 64) }
        requires few { sum operations.now ≤ 16777216 }
        ensures config { IfOk result (λ ready. ready.config ≡ config) }
        ensures before { IfOk result (λ ready. ready.before ≡ []) }
        ensures operations { IfOk result (λ ready. ready.operations ≡ operations.now) }
    {
        let (view, passes, writer, nodes) = FaultView::make(alloc, &config, operations)?;
        let logs = Vec::with_capacity(alloc, operations.len())?;
        // One entry more than can be made: so there is room for the next one whoever makes it.
        let entries = total(operations) + 1;
        let state = MmState::new(alloc, config, entries, writer, nodes)?;
        Ok(Ready {
            view,
            state,
            passes,
            logs,
        })
    }

    /// Makes a space that can be opened, in which these entries were made before. They are legal, and of no caller of a space. Each
    /// pass has seen them. Waits as `Space::call` does, and takes all memory beforehand. Refused only where memory runs out.
    pub fn make_after<R: Wait>(
        rt: &R,
        alloc: Global,
        config: Config,
        before: &[Entry],
        operations: &[u64],
    ) -> Result<Ready, NoMemory>
        requires config { IsValidConfig config }
        requires callers { (1 ≤ length operations.now) × (length operations.now ≤ 64) }
        requires few { length before.now + sum operations.now ≤ 16777216 }
        requires legal { IsLegalJournal config before.now }
        requires strangers { AreStrangers before.now }
        ensures config { IfOk result (λ ready. ready.config ≡ config) }
        ensures before { IfOk result (λ ready. ready.before ≡ before.now) }
        ensures operations { IfOk result (λ ready. ready.operations ≡ operations.now) }
    {
        let (view, mut passes, writer, nodes) = FaultView::make(alloc, &config, operations)?;
        let logs = Vec::with_capacity(alloc, operations.len())?;
        let entries = before.len() as u64 + total(operations) + 1;
        let mut state = MmState::new(alloc, config, entries, writer, nodes)?;
        repeat(rt, &mut state, before);
        meet_all(&mut state, passes.as_mut_slice());
        Ok(Ready {
            view,
            state,
            passes,
            logs,
        })
    }
}

/// Makes the calls of entries, which are legal from the first on.
fn repeat<R: Wait>(rt: &R, state: &mut MmState, before: &[Entry])
    requires legal { IsLegalJournal state.old.config before.now }
    requires none { state.old.journal ≡ [] }
    requires room { length before.now < state.old.room }
    requires strangers { AreStrangers before.now }
    ensures same { (state.new.table ≡ state.old.table) × (state.new.config ≡ state.old.config) × (state.new.room ≡ state.old.room) × (state.new.nodes ≡ state.old.nodes) }
    ensures journal { state.new.journal ≡ before.now }
{
    for entry in before {
        state.apply_before(rt, entry.caller, &entry.call);
    }
}

/// Each pass sees the whole journal.
fn meet_all(state: &mut MmState, passes: &mut [Pass])
    requires strangers { AreStrangers state.old.journal }
    requires callers { length passes.old ≤ 64 }
    requires fresh { AreFresh (viewed_of (met_space state.old passes.old)) (operations_of passes.old) passes.old }
    requires unused { AreUnused passes.old }
    ensures state { state.new ≡ state.old }
    ensures opened { AreOpened (met_space state.old passes.old) passes.new }
{
    for place in 0..passes.len() {
        meet_one(state, &mut passes[place]);
    }
}

/// A pass that did nothing sees the whole journal.
fn meet_one(state: &mut MmState, pass: &mut Pass)
    requires table { pass.old.reader.seat.table_id ≡ state.old.table }
    requires config { pass_config pass.old ≡ state.old.config }
    requires made { calls_by (caller pass.old) state.old.journal ≡ [] }
    requires log { pass.old.log ≡ [] }
    ensures state { state.new ≡ state.old }
    ensures later { IsLater pass.old pass.new }
    ensures same { pass.new ≡ record pass.old { reader = pass.new.reader } }
    ensures seen { seen_by pass.new ≡ state.old.journal }
    ensures looks { looks_of pass.new ≡ looks_of pass.old + 1 }
{
    pass.facts();
    state.facts();
    state.meet(&mut pass.reader);
}

/// How many operations there are together.
fn total(operations: &[u64]) -> u64
    requires { sum operations.now ≤ 16777216 }
    ensures { result ≡ sum operations.now }
{
    let mut total = 0;
    for count in operations {
        total += *count;
    }
    total
}
