//! Callers of one space, one after another: what each operation takes, and an area that is held.
ghost use Rattle.std.specs.Prelude.{◌≡◌};

use crate::asking::{call, fault, mapping, three, unmapping};
use crate::settings::{READ_WRITE, config};
use fault_path::Miss;
use mm_space::{Path, Ready, Space, SpaceName};
use mm_types::{Access, NoMemory, Page, Reply, Seen, Verdict};
use std::alloc::Global;
use std::marker::Brand;
use std::process::Abort;
use std::sync::Wait;
use std::test::Fail;

/// The page that is mapped, and its address.
const PAGE: Page = Page(0x20);

const ADDR: u64 = 0x2_0000;

/// A space of three callers with so many operations.
pub(crate) fn ready<R: Abort>(
    rt: &R,
    alloc: Global,
    operations: [u64; 3],
) -> Result<Ready, NoMemory> {
    let config = config(alloc, 10);
    assert!(rt; config.valid());
    let [first, second, third] = operations;
    assert!(rt; first < 100 && second < 100 && third < 100);
    Ready::make(alloc, config, &[first, second, third])
}

/// The version of a read.
fn version_of(read: &Seen) -> u64 {
    match read {
        Seen::Fault { version, .. } | Seen::Maps { version, .. } => *version,
    }
}

#[test]
fn each_operation_is_taken(rt: HostRuntime) -> Result<(), Fail> {
    let alloc = rt.alloc();
    let ready = ready(&rt, alloc, [3, 0, 0])?;
    use_all::<Brand, HostRuntime>(&rt, alloc, ready)?;
    Ok(())
}

/// A call, a list and a fault.
fn use_all<N: SpaceName, R: Wait + Abort>(
    rt: &R,
    alloc: Global,
    ready: Ready,
) -> Result<(), NoMemory>
    requires { ready ≡ N.name }
{
    let (space, passes) = Space::<N>::open(ready);
    let Some((mut pass, _, _)) = three(passes) else {
        panic!(rt; "there are no passes")
    };
    let called = call(rt, &space, &mut pass, &mapping(ADDR, READ_WRITE));
    assert_eq!(rt; called.reply, Reply::Addr(ADDR));
    assert_eq!(rt; called.version, 1);
    assert!(rt; pass.left() > 0);
    let version = space.maps(rt, alloc, &mut pass)?;
    assert_eq!(rt; version, 1);
    let faulted = fault(rt, &space, &mut pass, PAGE, Access::Write);
    assert!(rt; matches!(faulted.verdict, Verdict::Served { .. }));
    assert_eq!(rt; (faulted.path, faulted.version), (Path::Fast, 1));
    assert_eq!(rt; (pass.left(), pass.looks(), pass.log().len()), (0, 3, 2));
    for read in pass.log() {
        assert_eq!(rt; version_of(read), 1);
    }
    Ok(())
}

#[test]
fn a_held_area_stays_while_another_caller_maps(rt: HostRuntime) -> Result<(), Fail> {
    let ready = ready(&rt, rt.alloc(), [2, 2, 0])?;
    hold_one::<Brand, HostRuntime>(&rt, ready);
    Ok(())
}

/// One caller maps a page and holds it, while another maps elsewhere. Once it is given back the other unmaps it, and a fault there
/// misses.
fn hold_one<N: SpaceName, R: Wait + Abort>(rt: &R, ready: Ready)
    requires { ready ≡ N.name }
{
    let (space, passes) = Space::<N>::open(ready);
    let Some((mut one, mut other, _)) = three(passes) else {
        panic!(rt; "there are no passes")
    };
    call(rt, &space, &mut one, &mapping(ADDR, READ_WRITE));
    let Ok(mut held) = space.view().read_lock(one, PAGE) else {
        panic!(rt; "the area is not held")
    };
    let area = held.record();
    assert_eq!(rt; held.version(), 1);
    call(rt, &space, &mut other, &mapping(0x8_0000, READ_WRITE));
    assert_eq!(rt; held.look(), 2);
    assert_eq!(rt; held.record(), area);
    let mut one = held.unlock();
    call(rt, &space, &mut other, &unmapping(ADDR));
    let faulted = fault(rt, &space, &mut one, PAGE, Access::Read);
    assert_eq!(rt; faulted.verdict, Verdict::MapErr);
    assert_eq!(rt; faulted.path, Path::Slow(Miss::NoArea { tree: 3 }));
    assert_eq!(rt; faulted.version, 3);
    assert_eq!(rt; one.walks(), 2);
}
