//! The space, its areas, and the threads that fault at them.
ghost use Rattle.std.specs.Prelude.{◌≡◌, IfSome, sum};
ghost use Rattle.fault_path.specs.Passes.{caller};
ghost use Rattle.mm_space.specs.Names.{IsPassOf, ArePasses};

use fault_path::{Fast, Pass};
use gen_load::Draws;
use mm_space::{Ready, Space, SpaceName};
use mm_types::{
    Access, Call, Config, Files, MAP_ANONYMOUS, MAP_FIXED, MAP_PRIVATE, MmapArgs, NoMemory, Page,
    Prot,
};
use std::alloc::Global;
use std::marker::Brand;
use std::sync::Wait;
use std::sync::atomic::{AtomicU64, Ordering};
use std::thread;
use std::thread::Threads;

/// The first page of the areas, which stand two pages apart.
const FIRST: u64 = 0x1_0000;

/// Where the other thread maps and unmaps a page.
const ELSEWHERE: u64 = 0x7000_0000_0000;

/// At which areas a thread faults.
#[derive(Clone, Copy, Debug, PartialEq, Eq)]
pub(crate) enum Reach {
    /// All threads fault at the same areas.
    Shared,
    /// Each thread has as many areas of its own, one after the other, as the arenas of a program's threads lie.
    Own,
}

/// What is to be done.
#[derive(Clone, Copy, Debug, PartialEq, Eq)]
pub(crate) struct Load {
    /// The faults of each thread.
    count: u64,
    threads: u64,
    /// The areas that each thread faults at.
    areas: u64,
    /// How often a page is mapped and unmapped elsewhere.
    calls: u64,
    reach: Reach,
}

/// How many faults were answered without the lock, and how many missed.
#[derive(Clone, Copy, Debug)]
pub(crate) struct Counts {
    pub(crate) answered: u64,
    pub(crate) missed: u64,
}

/// What the faults of all threads came to so far.
#[derive(Drop)]
struct Totals {
    answered: AtomicU64,
    missed: AtomicU64,
}

impl Load {
    /// A load within the limits.
    pub(crate) fn new(
        count: u64,
        threads: u64,
        areas: u64,
        calls: u64,
        reach: Reach,
    ) -> Option<Load> {
        let load = Load {
            count,
            threads,
            areas,
            calls,
            reach,
        };
        let fits = (1..=62).contains(&threads) && (1..=65_000).contains(&load.all_areas());
        (fits && calls <= 8_000_000).then_some(load)
    }

    /// How many areas there are in all.
    fn all_areas(&self) -> u64 {
        match self.reach {
            Reach::Shared => self.areas,
            Reach::Own => self.areas.saturating_mul(self.threads),
        }
    }

    /// The first area that a thread faults at. Threads count from 1.
    pub(crate) fn first_area(&self, thread: u64) -> u64 {
        match self.reach {
            Reach::Shared => 0,
            Reach::Own => self.areas.saturating_mul(thread.saturating_sub(1)),
        }
    }
}

/// How many operations there are together. None where they are too many to count.
fn total(operations: &[u64]) -> Option<u64>
    ensures { IfSome result (λ total. total ≡ sum operations.now) }
{
    let mut total: u64 = 0;
    for count in operations {
        total = total.checked_add(*count)?;
    }
    Some(total)
}

/// How many operations each caller may make: the first maps, and all others make faults alone.
fn operations_of(alloc: Global, load: &Load) -> Result<Vec<u64>, NoMemory> {
    let mut operations = Vec::new(alloc);
    operations.push(
        load.all_areas()
            .saturating_add(load.calls.saturating_mul(2)),
    )?;
    for _ in 0..load.threads {
        operations.push(0)?;
    }
    Ok(operations)
}

/// Private anonymous memory of one page.
fn mapping(addr: u64) -> Call {
    Call::Mmap(MmapArgs {
        addr,
        len: 4096,
        prot: Prot {
            read: true,
            write: true,
            exec: false,
        },
        flags: MAP_PRIVATE | MAP_ANONYMOUS | MAP_FIXED,
        fd: -1,
        offset: 0,
    })
}

/// Makes the load's faults. None where memory runs out.
pub(crate) fn measure<R: Threads + Wait + Sync>(
    rt: &R,
    alloc: Global,
    load: &Load,
) -> Option<Counts> {
    let config = Config::with_files(Files::of(Vec::new(alloc)));
    let operations = operations_of(alloc, load).ok()?;
    let few = total(operations.as_slice())? <= 16_777_216;
    let callers = operations.len();
    if !config.valid() || !few || callers == 0 || callers > 64 {
        return None;
    }
    let ready = Ready::make(alloc, config, operations.as_slice()).ok()?;
    Some(run::<Brand, R>(rt, ready, load))
}

/// Opens a space, maps its areas, and lets all threads go.
fn run<N: SpaceName + Send + Sync, R: Threads + Wait + Sync>(
    rt: &R,
    ready: Ready,
    load: &Load,
) -> Counts
    requires { ready ≡ N.name }
{
    let (space, mut passes) = Space::<N>::open(ready);
    let totals = Totals {
        answered: AtomicU64::new(0),
        missed: AtomicU64::new(0),
    };
    let all = passes.as_mut_slice();
    map_first(rt, &space, all, load.all_areas());
    fault_together(rt, &space, all, load, &totals);
    totals.counts()
}

/// The first caller maps areas, before the others begin.
fn map_first<N: SpaceName + Send + Sync, R: Threads + Wait + Sync>(
    rt: &R,
    space: &Space<N>,
    passes: &mut [Pass],
    areas: u64,
)
    requires { ArePasses N.name passes.old }
    ensures { ArePasses N.name passes.new }
{
    let map = |place: usize, pass: &mut Pass|
        requires { IsPassOf N.name pass.now }
        ensures { IsPassOf N.name pass.exit.now × (caller pass.exit.now ≡ caller pass.entry.now) }
    { map_as(rt, space, pass, if place == 0 { areas } else { 0 }) };
    thread::for_each_mut(rt, passes, 1, &map);
}

/// Each caller works in a thread of its own: the first maps and unmaps a page elsewhere, and the others fault.
fn fault_together<N: SpaceName + Send + Sync, R: Threads + Wait + Sync>(
    rt: &R,
    space: &Space<N>,
    passes: &mut [Pass],
    load: &Load,
    totals: &Totals,
)
    requires { ArePasses N.name passes.old }
{
    let work = |place: usize, pass: &mut Pass|
        requires { IsPassOf N.name pass.now }
    {
        if place == 0 {
            call_elsewhere(rt, space, pass, load.calls);
        } else {
            totals.add(fault_all(space, pass, load, place as u64));
        }
    };
    let threads = passes.len().max(1);
    thread::for_each_mut(rt, passes, threads, &work);
}

/// Maps so many areas of one page each, two pages apart.
fn map_as<N: SpaceName, R: Wait>(rt: &R, space: &Space<N>, pass: &mut Pass, areas: u64)
    requires { IsPassOf N.name pass.old }
    ensures pass { IsPassOf N.name pass.new }
    ensures caller { caller pass.new ≡ caller pass.old }
{
    for place in 0..areas {
        let page = place.saturating_mul(2).saturating_add(FIRST);
        call(rt, space, pass, &mapping(page.saturating_mul(4096)));
    }
}

/// Makes a call, where the pass has an operation left.
fn call<N: SpaceName, R: Wait>(rt: &R, space: &Space<N>, pass: &mut Pass, call: &Call)
    requires { IsPassOf N.name pass.old }
    ensures pass { IsPassOf N.name pass.new }
    ensures caller { caller pass.new ≡ caller pass.old }
{
    if pass.left() > 0 {
        space.call(rt, pass, call);
    }
}

/// Maps and unmaps a page elsewhere, so many times.
fn call_elsewhere<N: SpaceName, R: Wait>(rt: &R, space: &Space<N>, pass: &mut Pass, calls: u64)
    requires { IsPassOf N.name pass.old }
{
    let unmapping = Call::Munmap {
        addr: ELSEWHERE,
        len: 4096,
    };
    for _ in 0..calls {
        call(rt, space, pass, &mapping(ELSEWHERE));
        call(rt, space, pass, &unmapping);
    }
}

/// Makes the faults of a thread, at areas in no order.
fn fault_all<N: SpaceName>(space: &Space<N>, pass: &mut Pass, load: &Load, thread: u64) -> Counts
    requires { IsPassOf N.name pass.old }
{
    let first = load.first_area(thread);
    let mut draws = Draws::new(thread);
    let mut counts = Counts {
        answered: 0,
        missed: 0,
    };
    for _ in 0..load.count {
        let area = first.saturating_add(draws.below(load.areas.max(1)));
        let page = Page(area.saturating_mul(2).saturating_add(FIRST));
        match space.view().fault_fast(pass, page, Access::Read) {
            Fast::Answer { .. } => counts.answered = counts.answered.saturating_add(1),
            Fast::Miss(_) => counts.missed = counts.missed.saturating_add(1),
        }
    }
    counts
}

impl Totals {
    /// Adds what the faults of a thread came to.
    fn add(&self, counts: Counts) {
        self.answered.fetch_add(counts.answered, Ordering::SeqCst);
        self.missed.fetch_add(counts.missed, Ordering::SeqCst);
    }

    /// All of them.
    fn counts(&self) -> Counts {
        Counts {
            answered: self.answered.load(Ordering::SeqCst),
            missed: self.missed.load(Ordering::SeqCst),
        }
    }
}
