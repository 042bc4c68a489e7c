//! The space that callers share.
ghost use Rattle.std.specs.Prelude.{◌≡◌, ◌≤◌, ◌<◌, ◌+◌, ◌-◌, ◌++◌, ◌∷◌, [], List, length, vec_len, vec_capacity, IfOk, OnErr};
ghost use Rattle.mm_types.specs.declared.area.Record.{Record};
ghost use Rattle.mm_types.specs.declared.call.Seen.TheVariants.{Fault, Maps};
ghost use Rattle.area_rules.specs.Journals.{IsReadRight};
ghost use Rattle.fault_path.specs.Passes.{pass_config, seen_by, looks_of, walker, IsLater};
ghost use Rattle.fault_path.specs.Faults.{WalksOnce};
ghost use Rattle.mm_space.specs.declared.space.Path.TheVariants.{Slow};
ghost use Rattle.mm_space.specs.Names.{IsViewOf, IsPassOf, ArePasses};
ghost use Rattle.mm_space.specs.Spaces.{Calls, Reads, DoesNothing, LooksOnce, IsWay, takes_on, IsFaultDone, FindsPage, faulted_of, Tells, Hears};
ghost use Rattle.mm_space.specs.Closing.{Closes};
ghost use Rattle.mm_space.specs.Opening.{AreOpened};

use crate::closed::Closed;
use crate::closing::gather_logs;
use crate::name::SpaceName;
use crate::named::Named;
use crate::ready::Ready;
use fault_path::{Fast, FaultView, Miss, Note, Pass, Unlocked};
use mm_types::{Access, Call, NoMemory, Page, Reply, Seen, Verdict};
use mmap_lock::{Lent, MmapLock};
use std::alloc::Global;
use std::sync::Wait;

/// What a call gave: its reply, and its place in the journal, counted from 1.
#[derive(Clone, Copy, Debug, PartialEq, Eq)]
pub struct Called {
    pub reply: Reply,
    pub version: u64,
}

/// The way of a fault: it was answered without the lock, or it missed, for this cause, and took the lock.
#[derive(Clone, Copy, Debug, PartialEq, Eq)]
pub enum Path {
    Fast,
    Slow(Miss),
}

/// What a fault gave: its verdict, the way that it took, and how many entries the journal had then.
#[derive(Clone, Copy, Debug, PartialEq, Eq)]
pub struct Faulted {
    pub verdict: Verdict,
    pub path: Path,
    pub version: u64,
}

/// What is found for a fault.
#[derive(Clone, Copy)]
enum Found {
    /// It grows no area, and is in no log yet.
    Answered(Faulted),
    /// It grew an area, and its touch is in the journal.
    Entered(Faulted),
}

/// An address space that callers share by reference, each with a pass of its own.
#[derive(Drop)]
pub struct Space<N: SpaceName> {
    view: FaultView,
    state: MmapLock<Named<N>, Unlocked>,
    /// Empty, with room for the log of each caller.
    logs: Vec<Vec<Seen>>,
    ghost viewed: { IsViewOf N.name view },
    ghost empty: { vec_len logs ≡ 0 },
    ghost room: { vec_capacity logs ≡ length N.name.operations },
}

impl<N: SpaceName> Space<N> {
    /// Opens the space, with a fresh pass for each caller, in order. No memory is taken.
    pub fn open(ready: Ready) -> (Space<N>, Vec<Pass>)
        requires name { ready ≡ N.name }
        ensures { AreOpened N.name result.1.items }
    {
        let Ready {
            view,
            state,
            passes,
            logs,
        } = ready;
        let space = Space {
            view,
            state: MmapLock::new(Named::new(state)),
            logs,
        };
        (space, passes)
    }

    /// The view of the space's tables that faults look at.
    pub fn view(&self) -> &FaultView
        ensures { IsViewOf N.name result.now }
    {
        &self.view
    }

    /// Makes a call with a pass of this space, under the lock, which it takes once.
    pub fn call<R: Wait>(&self, rt: &R, pass: &mut Pass, call: &Call) -> Called
        requires pass { IsPassOf N.name pass.old }
        requires left { 0 < pass.old.left }
        ensures pass { IsPassOf N.name pass.new }
        ensures later { IsLater pass.old pass.new }
        ensures call { Calls pass.old pass.new call.now result.reply result.version }
        ensures takes { pass.new.takes ≡ pass.old.takes + 1 }
        ensures looks { looks_of pass.new ≡ looks_of pass.old + 1 }
        // it walks no tree
        ensures nodes { pass.new.nodes ≡ pass.old.nodes }
    {
        pass.spend();
        let mut guard = self.state.take(rt, Lent::of(&mut pass.unlocked));
        let reply = guard.value().apply(rt, &mut pass.reader, call);
        Called {
            reply,
            version: pass.reader.version(),
        }
    }

    /// A fault: the verdict, as one operation. It is looked for without the lock first, which waits for nobody: a fault that is
    /// answered so never takes the lock. Where that misses, it takes the lock once, and is the verdict over the list under the lock.
    /// A fault that grows an area in that list is entered in the journal, as a touch, and is in no log; any other is in the log, and
    /// makes no entry.
    pub fn fault<R: Wait>(&self, rt: &R, pass: &mut Pass, page: Page, access: Access) -> Faulted
        requires pass { IsPassOf N.name pass.old }
        requires left { 0 < pass.old.left }
        ensures pass { IsPassOf N.name pass.new }
        ensures later { IsLater pass.old pass.new }
        ensures done { IsFaultDone page access pass.old pass.new result }
        ensures walk { WalksOnce (walker pass.old) (walker pass.new) }
        ensures way { IsWay page.0 access pass.old pass.new result.verdict result.version result.path }
        ensures takes { pass.new.takes ≡ pass.old.takes + takes_on result.path }
    {
        match self.find(rt, pass, page, access) {
            Found::Entered(faulted) => faulted,
            Found::Answered(faulted) => {
                note(pass, page, access, faulted);
                faulted
            }
        }
    }

    /// What is found for a fault: without the lock, or where it misses under the lock.
    fn find<R: Wait>(&self, rt: &R, pass: &mut Pass, page: Page, access: Access) -> Found
        requires pass { IsPassOf N.name pass.old }
        requires left { 0 < pass.old.left }
        ensures pass { IsPassOf N.name pass.new }
        ensures later { IsLater pass.old pass.new }
        ensures found { FindsPage page access pass.old pass.new result }
        ensures walk { WalksOnce (walker pass.old) (walker pass.new) }
        ensures way { IsWay page.0 access pass.old pass.new (faulted_of result).verdict (faulted_of result).version (faulted_of result).path }
        ensures takes { pass.new.takes ≡ pass.old.takes + takes_on (faulted_of result).path }
    {
        match self.view.fault_fast(pass, page, access) {
            Fast::Answer { verdict, version } => Found::Answered(Faulted {
                verdict,
                path: Path::Fast,
                version,
            }),
            Fast::Miss(miss) => self.find_locked(rt, pass, page, access, miss),
        }
    }

    /// What is found under the lock for a fault that missed: it grows an area exactly where it does so in the list there. In either
    /// case the pass looks once.
    fn find_locked<R: Wait>(
        &self,
        rt: &R,
        pass: &mut Pass,
        page: Page,
        access: Access,
        miss: Miss,
    ) -> Found
        requires pass { IsPassOf N.name pass.old }
        requires left { 0 < pass.old.left }
        ensures pass { IsPassOf N.name pass.new }
        ensures later { IsLater pass.old pass.new }
        ensures found { FindsPage page access pass.old pass.new result }
        ensures nodes { pass.new.nodes ≡ pass.old.nodes }
        ensures look { LooksOnce pass.old.reader pass.new.reader }
        ensures path { (faulted_of result).path ≡ Slow miss }
        ensures takes { pass.new.takes ≡ pass.old.takes + 1 }
    {
        pass.facts();
        let mut guard = self.state.take(rt, Lent::of(&mut pass.unlocked));
        let state = guard.value();
        let path = Path::Slow(miss);
        if state.grows(page, access) {
            pass.rest.spend();
            let area = state.touch(rt, &mut pass.reader, page, access);
            return Found::Entered(Faulted {
                verdict: Verdict::Served { area, index: 0 },
                path,
                version: pass.reader.version(),
            });
        }
        state.meet(&mut pass.reader);
        let verdict = state.verdict(page, access);
        Found::Answered(Faulted {
            verdict,
            path,
            version: pass.reader.version(),
        })
    }

    /// Reads the list of areas under the lock, which it takes once, and answers how many entries the journal had then. Refused where
    /// memory for the copy runs out: then no operation is taken.
    pub fn maps<R: Wait>(&self, rt: &R, alloc: Global, pass: &mut Pass) -> Result<u64, NoMemory>
        requires pass { IsPassOf N.name pass.old }
        requires left { 0 < pass.old.left }
        ensures pass { IsPassOf N.name pass.new }
        ensures later { IsLater pass.old pass.new }
        ensures read { IfOk result (λ version. (list : List Record) × Reads pass.old pass.new (Maps version list)) }
        ensures takes { pass.new.takes ≡ pass.old.takes + 1 }
        ensures looks { looks_of pass.new ≡ looks_of pass.old + 1 }
        ensures err { OnErr result (DoesNothing pass.old pass.new) }
        // it walks no tree
        ensures nodes { pass.new.nodes ≡ pass.old.nodes }
    {
        let list = {
            let mut guard = self.state.take(rt, Lent::of(&mut pass.unlocked));
            let state = guard.value();
            state.meet(&mut pass.reader);
            state.copy_list(alloc)?
        };
        let version = pass.version();
        pass.note(Seen::Maps { version, list });
        Ok(version)
    }

    /// A note of what a pass has seen, for another caller. It is one operation.
    pub fn tell(&self, pass: &mut Pass) -> Note
        requires pass { IsPassOf N.name pass.old }
        requires left { 0 < pass.old.left }
        ensures pass { IsPassOf N.name pass.new }
        ensures later { IsLater pass.old pass.new }
        ensures told { Tells pass.old pass.new }
        ensures note { (result.table ≡ N.name.table) × (result.config ≡ N.name.config) × (result.seen ≡ seen_by pass.old) }
    {
        pass.spend();
        self.view.tell(pass)
    }

    /// Hears a note: the pass has then seen the longer of both lists, each of which begins it.
    pub fn hear(&self, pass: &mut Pass, note: Note)
        requires pass { IsPassOf N.name pass.old }
        requires note { (note.table ≡ N.name.table) × (note.config ≡ N.name.config) }
        ensures pass { IsPassOf N.name pass.new }
        ensures later { IsLater pass.old pass.new }
        ensures heard { Hears pass.old note.seen pass.new }
    {
        self.view.hear(pass, note);
    }

    /// Closes the space with all its passes, each in its caller's place. No memory is taken.
    pub fn close(self, passes: Vec<Pass>) -> Closed
        requires { ArePasses N.name passes.items }
        ensures { Closes N.name passes.items result }
    {
        let Space { view, state, logs } = self;
        let mut state = state.into_inner();
        let logs = gather_logs(&view, &mut state, passes, logs);
        let (journal, list) = state.finish();
        Closed::new(journal, logs, list)
    }
}

/// Adds a fault that was answered to the log.
fn note(pass: &mut Pass, page: Page, access: Access, faulted: Faulted)
    requires left { 0 < pass.old.left }
    requires right { IsReadRight (pass_config pass.old) (seen_by pass.old) (Fault faulted.version page access faulted.verdict) }
    requires version { faulted.version ≡ length (seen_by pass.old) }
    ensures { pass.new ≡ record pass.old { log = pass.old.log ++ Fault faulted.version page access faulted.verdict ∷ []; left = pass.old.left - 1 } }
{
    pass.facts();
    pass.note(Seen::Fault {
        version: faulted.version,
        page,
        access,
        verdict: faulted.verdict,
    });
}
