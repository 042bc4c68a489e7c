//! Histories that are no right ones: each is refused at the place that is wrong, with what was expected there and what was found.

use crate::by_hand::{WRITE, area, called, faulted, item};
use crate::judging::{Bad, Told, bad_of, parsed};
use history::{Content, History, Item};
use mm_types::{
    Access, AreaList, Call, MAP_ANONYMOUS, MAP_PRIVATE, MmapArgs, Record, Reply, Verdict,
};
use std::alloc::Global;
use std::test::Fail;

/// The lower of two threads maps a page and reads the list; the other has a fault there and unmaps it.
const TRACE: &[u8] = b"vmatrace 1\n\
      4 mmap 0 4096 PROT_READ|PROT_WRITE MAP_PRIVATE|MAP_ANONYMOUS -1 0\n\
      9 fault 0x7ffff7ffe000 r\n\
      4 maps\n\
      9 munmap 0x7ffff7ffe000 4096\n";

/// Where the page is mapped.
const START: u64 = 0x7fff_f7ff_e000;

/// The call that maps it.
fn mapping() -> Call {
    Call::Mmap(MmapArgs {
        addr: 0,
        len: 4096,
        prot: WRITE,
        flags: MAP_PRIVATE | MAP_ANONYMOUS,
        fd: -1,
        offset: 0,
    })
}

/// The call that unmaps it.
fn unmapping() -> Call {
    Call::Munmap {
        addr: START,
        len: 4096,
    }
}

/// The area of the page.
fn mapped_page() -> Record {
    let page = START / 4096;
    area(page, page + 1, WRITE, false)
}

/// A verdict of that area.
fn served() -> Verdict {
    Verdict::Served {
        area: mapped_page(),
        index: 0,
    }
}

/// A fault at the page, with its verdict.
fn answered_fault(verdict: Verdict) -> Item {
    faulted(1, 1, START / 4096, Access::Read, verdict)
}

/// A legal history of the trace.
fn legal_history(alloc: Global) -> Result<Vec<Item>, Fail> {
    let list = AreaList::of(vec![in alloc; mapped_page()]?);
    let mut items = Vec::new(alloc);
    items.push(called(0, 1, mapping(), Reply::Addr(START)))?;
    items.push(item(0, 1, Content::List(list)))?;
    items.push(answered_fault(served()))?;
    items.push(called(1, 2, unmapping(), Reply::Zero))?;
    Ok(items)
}

/// What is bad of a history of the trace.
fn bad_entry(alloc: Global, items: Vec<Item>) -> Result<Option<Bad>, Fail> {
    let trace = parsed(alloc, TRACE)?;
    bad_of(alloc, &trace, &History::of(items))
}

#[test]
fn wrong_items_are_named(rt: HostRuntime) -> Result<(), Fail> {
    let items = legal_history(rt.alloc())?;
    assert_eq!(rt; bad_entry(rt.alloc(), items)?, None);

    let mut items = legal_history(rt.alloc())?;
    assert_eq!(rt; items.len(), 4);
    items[2] = answered_fault(Verdict::MapErr);
    let wanted = (3, Told::Fault(served()), Told::Fault(Verdict::MapErr));
    assert_eq!(rt; bad_entry(rt.alloc(), items)?, Some(wanted));

    let mut items = legal_history(rt.alloc())?;
    items.truncate(3);
    let wanted = (4, Told::Call(unmapping(), Reply::Zero), Told::Nothing);
    assert_eq!(rt; bad_entry(rt.alloc(), items)?, Some(wanted));
    Ok(())
}

#[test]
fn other_orders_are_refused(rt: HostRuntime) -> Result<(), Fail> {
    let mut items = legal_history(rt.alloc())?;
    assert_eq!(rt; items.len(), 4);
    items.swap(0, 3);
    let wanted = (1, Told::Nothing, Told::Call(unmapping(), Reply::Zero));
    assert_eq!(rt; bad_entry(rt.alloc(), items)?, Some(wanted));

    let mut items = legal_history(rt.alloc())?;
    assert_eq!(rt; items.len(), 4);
    items.swap(1, 2);
    let wanted = (3, Told::Nothing, Told::List);
    assert_eq!(rt; bad_entry(rt.alloc(), items)?, Some(wanted));
    Ok(())
}
