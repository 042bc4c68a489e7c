//! A stack that grows, worked by hand: the history of its trace is accepted, and refused where a growth is taken for a read.

use crate::by_hand::{READ, WRITE, area, called, faulted, item, mmap};
use crate::judging::{Told, bad_of, parsed};
use history::{Content, History, Item};
use mm_types::{Access, AreaList, Call, MAP_GROWSDOWN, NoMemory, Page, Record, Reply, Verdict};
use std::alloc::Global;
use std::process::Abort;
use std::test::Fail;

/// A stack of two pages, a mapping three pages below it, and five faults.
const STACK: &[u8] = b"vmatrace 1
0 mmap 0x100000 8192 PROT_READ|PROT_WRITE MAP_PRIVATE|MAP_ANONYMOUS|MAP_FIXED|MAP_GROWSDOWN -1 0
0 mmap 0xfc000 4096 PROT_READ MAP_PRIVATE|MAP_ANONYMOUS|MAP_FIXED -1 0
0 fault 0xff000 w
0 fault 0xfe000 x
0 fault 0xfe000 w
0 fault 0xfd000 w
0 fault 0x101000 r
";

/// A fork behind it, and a line of the child, which is none of the parent's.
const FORK: &[u8] = b"0 fork 1\n1 fault 0xfe000 w\n";

/// The stack, which begins at a page.
fn stack_from(lo: u64) -> Record {
    area(lo, 0x102, WRITE, true)
}

/// A call of mmap(2) that has the address that it asks for.
fn mapped(version: u64, call: Call, addr: u64) -> Item {
    called(0, version, call, Reply::Addr(addr))
}

/// The write to a page by which the stack grows to it.
fn touch(page: u64) -> Call {
    Call::Touch {
        page: Page(page),
        access: Access::Write,
    }
}

/// What it answers.
fn growth(page: u64) -> Reply {
    Reply::Grown {
        area: stack_from(page),
        index: 0,
    }
}

/// A fault by which the stack grows to the page.
fn grown(version: u64, page: u64) -> Item {
    called(0, version, touch(page), growth(page))
}

/// The list of both areas at the end.
fn last_list(alloc: Global) -> Result<Content, NoMemory> {
    let mut areas = Vec::new(alloc);
    areas.push(area(0xfc, 0xfd, READ, false))?;
    areas.push(stack_from(0xfe))?;
    Ok(Content::List(AreaList::of(areas)))
}

/// The history, whose first fault is this item, and which tells the list that a child is given, where one is forked.
fn history(alloc: Global, first: Item, forks: bool) -> Result<History, NoMemory> {
    let served = Verdict::Served {
        area: stack_from(0xfe),
        index: 0,
    };
    let stack = mmap(0x10_0000, 8192, WRITE, MAP_GROWSDOWN);
    let mut items = Vec::new(alloc);
    items.push(mapped(1, stack, 0x10_0000))?;
    items.push(mapped(2, mmap(0xf_c000, 4096, READ, 0), 0xf_c000))?;
    items.push(first)?;
    items.push(faulted(0, 3, 0xfe, Access::Exec, Verdict::AccErr))?;
    items.push(grown(4, 0xfe))?;
    items.push(faulted(0, 4, 0xfd, Access::Write, Verdict::MapErr))?;
    items.push(faulted(0, 4, 0x101, Access::Read, served))?;
    if forks {
        items.push(item(0, 4, last_list(alloc)?))?;
    }
    Ok(History::of(items))
}

/// Has the history judged, as it is and with a growth taken for a read.
fn judge(rt: &impl Abort, alloc: Global, text: &[u8], forks: bool) -> Result<(), Fail> {
    let trace = parsed(alloc, text)?;
    let right = history(alloc, grown(3, 0xff), forks)?;
    assert_eq!(rt; bad_of(alloc, &trace, &right)?, None);

    let read = faulted(0, 2, 0xff, Access::Write, Verdict::MapErr);
    let wrong = history(alloc, read, forks)?;
    let wanted = (
        3,
        Told::Call(touch(0xff), growth(0xff)),
        Told::Fault(Verdict::MapErr),
    );
    assert_eq!(rt; bad_of(alloc, &trace, &wrong)?, Some(wanted));
    Ok(())
}

#[test]
fn a_stack_that_grows_is_judged(rt: HostRuntime) -> Result<(), Fail> {
    judge(&rt, rt.alloc(), STACK, false)
}

#[test]
fn a_stack_of_a_parent_that_grows_is_judged(rt: HostRuntime) -> Result<(), Fail> {
    let mut text = Vec::from_slice(rt.alloc(), STACK)?;
    text.extend_from_slice(FORK)?;
    judge(&rt, rt.alloc(), text.as_slice(), true)
}
