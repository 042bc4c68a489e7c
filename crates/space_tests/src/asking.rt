//! What one caller asks of a space, once it is seen at run time that its pass has an operation left.
ghost use Rattle.std.specs.Prelude.{◌≡◌, IfSome, slice_get, Some};
ghost use Rattle.mm_space.specs.Names.{IsPassOf};

use fault_path::Pass;
use mm_space::{Called, Faulted, Space, SpaceName};
use mm_types::{Access, Call, MAP_ANONYMOUS, MAP_FIXED, MAP_PRIVATE, MmapArgs, Page, Prot};
use std::process::Abort;
use std::sync::Wait;

/// A mapping of one page of private anonymous memory at a fixed address.
pub(crate) fn mapping(addr: u64, prot: Prot) -> Call {
    Call::Mmap(MmapArgs {
        addr,
        len: 4096,
        prot,
        flags: MAP_PRIVATE | MAP_ANONYMOUS | MAP_FIXED,
        fd: -1,
        offset: 0,
    })
}

/// The call that unmaps it.
pub(crate) fn unmapping(addr: u64) -> Call {
    Call::Munmap { addr, len: 4096 }
}

/// A call.
pub(crate) fn call<N: SpaceName, R: Wait + Abort>(
    rt: &R,
    space: &Space<N>,
    pass: &mut Pass,
    call: &Call,
) -> Called
    requires { IsPassOf N.name pass.old }
    ensures { IsPassOf N.name pass.new }
{
    assert!(rt; pass.left() > 0);
    space.call(rt, pass, call)
}

/// A fault.
pub(crate) fn fault<N: SpaceName, R: Wait + Abort>(
    rt: &R,
    space: &Space<N>,
    pass: &mut Pass,
    page: Page,
    access: Access,
) -> Faulted
    requires { IsPassOf N.name pass.old }
    ensures { IsPassOf N.name pass.new }
{
    assert!(rt; pass.left() > 0);
    space.fault(rt, pass, page, access)
}

/// The first three passes of some.
pub(crate) fn three(passes: Vec<Pass>) -> Option<(Pass, Pass, Pass)>
    ensures { IfSome result (λ all. (slice_get passes.items 0 ≡ Some all.0) × (slice_get passes.items 1 ≡ Some all.1) × (slice_get passes.items 2 ≡ Some all.2)) }
{
    let mut passes = passes;
    if passes.len() < 3 {
        return None;
    }
    let third = passes.remove(2);
    let second = passes.remove(1);
    let first = passes.remove(0);
    Some((first, second, third))
}
