//! Two callers share an address space, each in a thread of its own: an example of mm_space as a library, of which docs/LIBRARY.md
//! tells. It prints what each caller did and the maps text of the areas that are left, the same however the threads run.
#![tactic(auto)]

mod callers;

use callers::{FIRST, SECOND, entries_of, run};
use maps_print::print_list;
use mm_types::{
    Call, Config, Files, MAP_ANONYMOUS, MAP_FIXED, MAP_PRIVATE, MmapArgs, PAGE_SIZE, Page, Prot,
};
use std::io;
use std::io::Write;
use std::process::ExitCode;
use std::sync::Wait;
use std::thread::Threads;

const READ: Prot = Prot {
    read: true,
    write: false,
    exec: false,
};

/// Three pages of private anonymous memory from this page on, of which the second may only be read then, and the third is unmapped.
fn script(page: Page) -> [Call; 3] {
    let addr = page.0.wrapping_mul(PAGE_SIZE);
    [
        Call::Mmap(MmapArgs {
            addr,
            len: 3 * PAGE_SIZE,
            prot: Prot {
                write: true,
                ..READ
            },
            flags: MAP_PRIVATE | MAP_ANONYMOUS | MAP_FIXED,
            fd: -1,
            offset: 0,
        }),
        Call::Mprotect {
            addr: addr.wrapping_add(PAGE_SIZE),
            len: PAGE_SIZE,
            prot: READ,
        },
        Call::Munmap {
            addr: addr.wrapping_add(2 * PAGE_SIZE),
            len: PAGE_SIZE,
        },
    ]
}

/// Runs both callers and prints what is left. None where memory runs out or a write fails.
fn show<R: Threads + Wait + Sync + Print + AllocGlobal>(rt: &R) -> Option<()> {
    let alloc = rt.alloc();
    let config = Config::with_files(Files::of(Vec::new(alloc)));
    if !config.valid() {
        return None;
    }
    let files = config.files.copy(alloc).ok()?;
    let closed = run(rt, alloc, config, &script(FIRST), &script(SECOND)).ok()?;
    for caller in 0..2 {
        let entries = entries_of(closed.journal(), caller);
        let reads = closed.logs().get(caller as usize)?.len();
        println!(rt; "caller {caller}: {entries} entries, {reads} reads").ok()?;
    }
    let text = print_list(alloc, closed.list(), &files).ok()?;
    io::writer(rt).write_all(text.as_slice()).ok()
}

fn main(rt: HostRuntime) -> ExitCode {
    match show(&rt) {
        Some(()) => ExitCode::from(0),
        None => ExitCode::from(1),
    }
}
