//! Faults of many threads in one address space, to be timed from outside: `vma_bench COUNT THREADS AREAS` maps AREAS pages that
//! stand two apart, makes COUNT faults at them without the lock in each of THREADS threads, and writes how many were answered and
//! how many missed. `vma_bench COUNT THREADS AREAS CALLS` has another thread map and unmap a page elsewhere meanwhile, so many times.
//! With the word `own` at the end each thread faults at AREAS areas of its own. There are 1 to 62 threads and 1 to 65,000 areas in
//! all, and at most 8,000,000 calls. Other words are refused by a line on standard error, and the exit status is 2 then; where memory runs out it
//! is 2 as well, and the line may be missing. No contract says anything of what it writes.
#![tactic(auto)]

mod faults;

use faults::{Counts, Load, Reach, measure};
use std::alloc::Global;
use std::process::ExitCode;
use std::rt::Env;
use std::sync::Wait;
use std::thread::Threads;
use std::{env, io};
use text_lexer::decimal_of;

/// What is told where the words are others.
const USAGE: &str = "usage: vma_bench COUNT THREADS AREAS [CALLS] [own]";

/// The words after the program's name.
fn words<R: Env + AllocGlobal>(rt: &R) -> io::Result<Vec<String>> {
    let words = env::args(rt)?.skip(1).collect(rt.alloc())?;
    Ok(words)
}

/// The number at a place of the words.
fn number(words: &[String], place: usize) -> Option<u64> {
    decimal_of(words.get(place)?.as_str())
}

/// The word at the end for areas of each thread's own.
const OWN: &str = "own";

/// What the words ask for. None where they are no numbers, or out of their limits, or more than are asked for.
fn load_of(words: &[String]) -> Option<Load> {
    let (reach, numbers) = match words.split_last() {
        Some((last, before)) if last.as_str() == OWN => (Reach::Own, before),
        _ => (Reach::Shared, words),
    };
    let calls = match numbers.len() {
        3 => 0,
        4 => number(numbers, 3)?,
        _ => return None,
    };
    Load::new(
        number(numbers, 0)?,
        number(numbers, 1)?,
        number(numbers, 2)?,
        calls,
        reach,
    )
}

/// The load that the program's words ask for.
fn asked<R: Env + AllocGlobal>(rt: &R) -> Option<Load> {
    load_of(words(rt).ok()?.as_slice())
}

fn run<R: Threads + Wait + Sync + Env + Eprint + AllocGlobal>(
    rt: &R,
    alloc: Global,
) -> Option<Counts> {
    let Some(load) = asked(rt) else {
        let _ = eprintln!(rt; "{}", USAGE);
        return None;
    };
    measure(rt, alloc, &load)
}

fn main(rt: HostRuntime) -> ExitCode {
    match run(&rt, rt.alloc()) {
        Some(counts) => {
            let _ = println!(rt; "answered {} missed {}", counts.answered, counts.missed);
            ExitCode::from(0)
        }
        None => ExitCode::from(2),
    }
}
