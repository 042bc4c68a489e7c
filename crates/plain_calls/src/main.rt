//! Calls on an address space without threads: an example of plain_space as a library, of which docs/LIBRARY.md tells. It prints the answer
//! of each call and the maps text of the areas that are left.
#![tactic(auto)]

mod calls;

use calls::make_all;
use maps_print::print_list;
use mm_types::{
    Call, Config, Files, MAP_ANONYMOUS, MAP_FIXED, MAP_PRIVATE, MmapArgs, PAGE_SIZE, Prot, Reply,
};
use plain_space::PlainSpace;
use std::io;
use std::io::Write;
use std::process::ExitCode;

const READ: Prot = Prot {
    read: true,
    write: false,
    exec: false,
};

/// Where the calls map.
const START: u64 = 0x10_0000;

/// Three pages of private anonymous memory, of which the second may only be read then, and the third is unmapped.
fn script() -> [Call; 3] {
    [
        Call::Mmap(MmapArgs {
            addr: START,
            len: 3 * PAGE_SIZE,
            prot: Prot {
                write: true,
                ..READ
            },
            flags: MAP_PRIVATE | MAP_ANONYMOUS | MAP_FIXED,
            fd: -1,
            offset: 0,
        }),
        Call::Mprotect {
            addr: START + PAGE_SIZE,
            len: PAGE_SIZE,
            prot: READ,
        },
        Call::Munmap {
            addr: START + 2 * PAGE_SIZE,
            len: PAGE_SIZE,
        },
    ]
}

/// How many of the answers are errors.
fn refused(replies: &[Reply]) -> usize {
    replies
        .iter()
        .filter(|reply| matches!(reply, Reply::Refused(_)))
        .count()
}

/// Makes the calls and prints what they left. None where memory runs out or a write fails.
#[tactic(auto, unfolding(area_rules::specs::Steps::opening))]
fn show<R: Print + AllocGlobal>(rt: &R) -> Option<()> {
    let alloc = rt.alloc();
    let config = Config::with_files(Files::of(Vec::new(alloc)));
    if !config.valid() {
        return None;
    }
    let mut space = PlainSpace::new(alloc, &config).ok()?;
    let replies = make_all(alloc, &mut space, &script()).ok()?;
    let errors = refused(replies.as_slice());
    println!(rt; "{} calls, {errors} refused", replies.len()).ok()?;
    let list = space.copy_list(alloc).ok()?;
    let text = print_list(alloc, &list, &config.files).ok()?;
    io::writer(rt).write_all(text.as_slice()).ok()
}

fn main(rt: HostRuntime) -> ExitCode {
    match show(&rt) {
        Some(()) => ExitCode::from(0),
        None => ExitCode::from(1),
    }
}
