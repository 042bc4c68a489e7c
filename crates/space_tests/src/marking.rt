//! A call that takes two areas away while one of them is held: it marks the other, and waits.
ghost use Rattle.std.specs.Prelude.{◌≡◌};
ghost use Rattle.mm_space.specs.Names.{IsPassOf};

use crate::asking::{call, mapping, three};
use crate::operations::ready;
use crate::settings::{READ, READ_WRITE};
use fault_path::{Fast, Held, Miss, Pass};
use mm_space::{Ready, Space, SpaceName};
use mm_types::{Access, Call, Page, Record};
use std::marker::Brand;
use std::process::Abort;
use std::sync::Wait;
use std::sync::atomic::{AtomicU64, Ordering};
use std::test::Fail;
use std::thread;
use std::thread::{Threads, join};

/// The page of the area that is held, and its address.
const HELD: Page = Page(0x20);

const ADDR: u64 = 0x2_0000;

/// The page of the area above it.
const ABOVE: Page = Page(0x21);

/// What is seen while the call waits.
#[derive(Drop)]
struct Waiting {
    /// The lock sequence of the area that is marked.
    seq: Option<u64>,
    /// How many entries the holder has seen, and how many calls have come back.
    version: u64,
    made: u64,
    area: Record,
}

/// The call that unmaps both pages, which is then counted.
fn unmap_both<N: SpaceName, R: Wait>(rt: &R, space: &Space<N>, pass: Pass, made: &AtomicU64)
    requires { IsPassOf N.name pass }
{
    let mut pass = pass;
    if pass.left() > 0 {
        let unmapping = Call::Munmap {
            addr: ADDR,
            len: 8192,
        };
        space.call(rt, &mut pass, &unmapping);
        made.fetch_add(1, Ordering::SeqCst);
    }
}

/// Faults at the page above until its area is marked, and gives the other back then.
fn see_mark<N: SpaceName>(space: &Space<N>, held: Held<'_>, pass: Pass, made: &AtomicU64) -> Waiting
    requires { IsPassOf N.name pass }
{
    let seq = mark_of(space, pass);
    let mut held = held;
    let seen = Waiting {
        seq,
        version: held.look(),
        made: made.load(Ordering::SeqCst),
        area: held.record(),
    };
    held.unlock();
    seen
}

/// The lock sequence of the area at the page above, once it is marked.
fn mark_of<N: SpaceName>(space: &Space<N>, pass: Pass) -> Option<u64>
    requires { IsPassOf N.name pass }
{
    let mut pass = pass;
    for _ in 0..u64::MAX {
        let fast = space.view().fault_fast(&mut pass, ABOVE, Access::Read);
        if let Fast::Miss(Miss::Marked { seq }) = fast {
            return Some(seq);
        }
        thread::yield_now();
    }
    None
}

/// One caller maps two pages, and holds the first. Another unmaps both: it marks the second, and waits for the first.
fn hold_the_first<N: SpaceName + Send + Sync, R: Threads + Wait + Abort + Sync>(
    rt: &R,
    ready: Ready,
)
    requires { ready ≡ N.name }
{
    let (space, passes) = Space::<N>::open(ready);
    let Some((mut one, two, last)) = three(passes) else {
        panic!(rt; "there are no passes")
    };
    call(rt, &space, &mut one, &mapping(ADDR, READ_WRITE));
    call(rt, &space, &mut one, &mapping(ADDR + 0x1000, READ));
    let Ok(held) = space.view().read_lock(one, HELD) else {
        panic!(rt; "the area is not held")
    };
    let area = held.record();
    let made = AtomicU64::new(0);
    let (seen, ()) = join(
        rt,
        || -> Waiting
            requires { IsPassOf N.name last }
        { see_mark(&space, held, last, &made) },
        || -> ()
            requires { IsPassOf N.name two }
        { unmap_both(rt, &space, two, &made) },
    );
    assert_eq!(rt; (seen.seq, seen.version, seen.made), (Some(7), 2, 0));
    assert_eq!(rt; seen.area, area);
    assert_eq!(rt; made.load(Ordering::SeqCst), 1);
}

#[test]
fn a_call_marks_an_area_and_waits_for_a_held_one(rt: HostRuntime) -> Result<(), Fail> {
    let ready = ready(&rt, rt.alloc(), [2, 1, 1])?;
    hold_the_first::<Brand, HostRuntime>(&rt, ready);
    Ok(())
}
