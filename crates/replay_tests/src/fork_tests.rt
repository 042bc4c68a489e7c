//! Traces that fork: the run of the parent is one of its own lines, and a history of a child is judged from what it inherits.

use crate::by_hand::{READ, WRITE, area, mmap};
use crate::judging::{Told, bad_of, bad_of_child, gathered, history_of_child, inherited, parsed};
use history::History;
use io_edge::PlainGate;
use mm_types::{Access, Call, Entry, Page, Reply, Seen, Verdict};
use std::process::Abort;
use std::test::Fail;
use vma_drive::run_threads;

/// A parent that maps a page, forks and unmaps it, while the child has it still.
const FORKED: &[u8] = b"vmatrace 1\n\
      0 mmap 0x100000 4096 PROT_READ|PROT_WRITE MAP_PRIVATE|MAP_ANONYMOUS|MAP_FIXED -1 0\n\
      0 fork 7\n\
      0 munmap 0x100000 4096\n\
      7 fault 0x100000 w\n\
      7 mprotect 0x100000 4096 PROT_READ\n\
      0 fault 0x100000 r\n";

/// Its child.
const CHILD: u32 = 7;

/// The address of the page.
const ADDRESS: u64 = 0x10_0000;

/// Two children, of which the one with the higher number is forked first and has its lines first.
const TWO_CHILDREN: &[u8] = b"vmatrace 1\n\
      0 fork 9\n\
      0 mmap 0x100000 8192 PROT_READ|PROT_WRITE MAP_PRIVATE|MAP_ANONYMOUS|MAP_FIXED -1 0\n\
      9 mmap 0x100000 4096 PROT_READ MAP_PRIVATE|MAP_ANONYMOUS|MAP_FIXED -1 0\n\
      0 fork 3\n\
      9 maps\n\
      3 munmap 0x100000 4096\n\
      3 fault 0x100000 w\n\
      0 munmap 0x101000 4096\n\
      3 fault 0x101000 w\n";

/// A child without lines.
const NO_LINES: &[u8] = b"vmatrace 1\n\
      4 mmap 0x100000 4096 PROT_READ MAP_PRIVATE|MAP_ANONYMOUS|MAP_FIXED -1 0\n\
      4 fork 1\n\
      4 munmap 0x100000 4096\n";

/// A stack that grew before the fork, and grows on in the child alone.
const GROWN: &[u8] = b"vmatrace 1\n\
      0 mmap 0x100000 4096 PROT_READ|PROT_WRITE MAP_PRIVATE|MAP_ANONYMOUS|MAP_FIXED|MAP_GROWSDOWN -1 0\n\
      0 fault 0xff000 w\n\
      0 fork 2\n\
      2 fault 0xfe000 w\n\
      2 fault 0xff000 r\n\
      0 maps\n";

#[test]
fn a_run_of_a_trace_that_forks_is_accepted_as_its_parents(rt: HostRuntime) -> Result<(), Fail> {
    let alloc = rt.alloc();
    let traces: [&[u8]; 4] = [FORKED, TWO_CHILDREN, NO_LINES, GROWN];
    for text in traces {
        let trace = parsed(alloc, text)?;
        let run = run_threads(&rt, alloc, &trace, &PlainGate)?;
        let history = gathered(&rt, alloc, &run)?;
        assert_eq!(rt; bad_of(alloc, &trace, &history)?, None);
    }
    Ok(())
}

/// The call of the parent before the fork, and its reply.
fn mapped() -> Entry {
    Entry {
        caller: 0,
        call: mmap(ADDRESS, 4096, WRITE, 0),
        reply: Reply::Addr(ADDRESS),
    }
}

/// The call of the child, which takes the right to write, and its reply.
fn protected() -> Entry {
    Entry {
        caller: 0,
        call: Call::Mprotect {
            addr: ADDRESS,
            len: 4096,
            prot: READ,
        },
        reply: Reply::Zero,
    }
}

/// The verdict of the page that the parent mapped.
fn served() -> Verdict {
    Verdict::Served {
        area: area(0x100, 0x101, WRITE, false),
        index: 0,
    }
}

/// The history of the child, of which its call was made and its fault was read.
fn history_of(rt: &(impl Abort + AllocGlobal), before: &[Entry]) -> Result<History, Fail> {
    let alloc = rt.alloc();
    let mut journal = Vec::from_slice(alloc, before)?;
    journal.push(protected())?;
    let read = Seen::Fault {
        version: 1,
        page: Page(0x100),
        access: Access::Write,
        verdict: served(),
    };
    let log = vec![in alloc; read]?;
    let logs = vec![in alloc; log]?;
    Ok(history_of_child(rt, alloc, 1, journal.as_slice(), logs.as_slice())?)
}

#[test]
fn a_child_is_judged_from_what_it_inherits(rt: HostRuntime) -> Result<(), Fail> {
    let alloc = rt.alloc();
    let trace = parsed(alloc, FORKED)?;
    let before = inherited(&rt, alloc, &[mapped()], 1)?;
    let history = history_of(&rt, before.as_slice())?;
    let bad = bad_of_child(&rt, alloc, &trace, CHILD, before.as_slice(), &history)?;
    assert_eq!(rt; bad, None);

    let bad = bad_of_child(&rt, alloc, &trace, CHILD, &[], &history)?;
    let wanted = (1, Told::Fault(Verdict::MapErr), Told::Fault(served()));
    assert_eq!(rt; bad, Some(wanted));
    Ok(())
}
