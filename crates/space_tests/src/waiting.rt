//! A writer that waits for a reader inside a tree.

ghost use Rattle.node_slots.specs.Seats as trees;

use crate::asking::{mapping, unmapping};
use crate::bench::{Bench, Caller, Walker};
use crate::settings::{READ, config};
use mm_types::{Call, NoMemory};
use std::process::Abort;
use std::sync::Wait;
use std::sync::atomic::{AtomicU64, Ordering};
use std::test::Fail;
use std::thread;
use std::thread::{Threads, join};

/// How many areas the space has at most.
const AREAS: u32 = 9;

/// How many calls are made. While a reader is inside, there are slots for the first 40 of those that need slots, and rows for some 70
/// of those that need rows.
const CALLS: u64 = 100;

/// How often a reader sees that no call was made, before it takes the writer to wait for it.
const LOOKS: u32 = 1_000_000;

/// The page that is mapped.
const ADDR: u64 = 0x2_0000;

/// The page above it.
const ABOVE: u64 = 0x2_1000;

/// What the calls need again, which a reader inside keeps from them.
#[derive(Clone, Copy)]
enum Needs {
    /// A slot for each area that comes.
    Slots,
    /// Rows of the tree alone: an area that stays where it is gets a page more, and loses it.
    Rows,
}

/// Maps a page, or unmaps it: the only one, or the one above it once that is mapped.
fn call_of(needs: Needs, number: u64) -> Call {
    match needs {
        Needs::Slots if number % 2 == 0 => mapping(ADDR, READ),
        Needs::Slots => unmapping(ADDR),
        Needs::Rows if number == 0 => mapping(ADDR, READ),
        Needs::Rows if number % 2 == 1 => mapping(ABOVE, READ),
        Needs::Rows => unmapping(ABOVE),
    }
}

/// Makes the calls, and counts them.
fn call_all<R: Wait>(rt: &R, needs: Needs, caller: Caller, made: &AtomicU64) {
    let mut caller = caller;
    for number in 0..CALLS {
        if caller.call(rt, &call_of(needs, number)).is_some() {
            made.fetch_add(1, Ordering::SeqCst);
        }
    }
}

/// Stays inside the tree that it finds until no call has been made for long.
fn stay_inside(walker: Walker, made: &AtomicU64)
    requires { trees.IsClosed walker.seat }
{
    let mut walker = walker;
    walker.enter();
    let mut last = 0;
    let mut looks = 0;
    for _ in 0..u64::MAX {
        let now = made.load(Ordering::SeqCst);
        if now != last {
            last = now;
            looks = 0;
        }
        looks += 1;
        if looks >= LOOKS {
            break;
        }
        thread::yield_now();
    }
    walker.leave();
}

/// Both at once.
fn run<R: Threads + Wait + Sync>(
    rt: &R,
    needs: Needs,
    caller: Caller,
    walker: Walker,
    made: &AtomicU64,
)
    requires { trees.IsClosed walker.seat }
{
    join(
        rt,
        || -> ()
            requires { trees.IsClosed walker.seat }
        { stay_inside(walker, made) },
        || call_all(rt, needs, caller, made),
    );
}

/// All calls are made beside a reader that stays inside until one of them waits for it.
fn call_beside_a_reader<R: Threads + Wait + Sync + AllocGlobal + Abort>(
    rt: &R,
    needs: Needs,
) -> Result<(), NoMemory> {
    let settings = config(rt.alloc(), AREAS);
    assert!(rt; settings.valid());
    let Some(bench) = Bench::open(rt.alloc(), settings)? else {
        panic!(rt; "there is no reader")
    };
    let made = AtomicU64::new(0);
    let (caller, walker) = bench.part();
    run(rt, needs, caller, walker, &made);
    assert_eq!(rt; made.load(Ordering::SeqCst), CALLS);
    Ok(())
}

/// A reader stays inside over 40 publishes, until the writer has no slot left and waits for it. Once it leaves, all calls are made.
#[test]
fn a_writer_waits_for_a_reader_inside(rt: HostRuntime) -> Result<(), Fail> {
    call_beside_a_reader(&rt, Needs::Slots)?;
    Ok(())
}

/// The same where it has slots, and too few rows are left for the nodes of another tree.
#[test]
fn a_writer_waits_for_the_rows_of_a_reader_inside(rt: HostRuntime) -> Result<(), Fail> {
    call_beside_a_reader(&rt, Needs::Rows)?;
    Ok(())
}
