//! Replays a trace: `vma_main serial` and `vma_main threads` read it from standard input and write every reply and the final
//! list of areas to standard output. `serial` runs its lines in their order, and `threads` those of each thread of the trace in a
//! thread of its own. `vma_main steps` reads a script from standard input and writes what each of its steps results in, and the state
//! after it. `vma_main query ADDRESS` and `vma_main retrace` read a maps text, and write one of its lines, or a trace that makes it.
//! `vma_main check` reads a trace and a text, and writes whether the text is an output of the trace. `vma_main generate COUNT SEED`
//! runs a generated trace of COUNT operations, at most 400,000, and writes a summary of what it did; it reads nothing. Where that
//! fails, a line on standard error says why, if there is memory for it, and the exit status is 2 to 6.
#![tactic(auto)]

use io_edge::{PlainGate, StdSink, StdSource};
use std::alloc::Global;
use std::process::ExitCode;
use std::rt::Env;
use std::sync::Wait;
use std::thread::Threads;
use std::{env, io};
use vma_replay::{Status, replay, status_line, status_number};

/// The words after the program's name.
fn words<R: Env + AllocGlobal>(rt: &R) -> io::Result<Vec<String>> {
    let words = env::args(rt)?.skip(1).collect(rt.alloc())?;
    Ok(words)
}

fn run<R: Threads + Wait + Sync + Env + Input + Print + AllocGlobal>(rt: &R) -> Status {
    match words(rt) {
        Ok(words) => {
            replay(
                rt,
                rt.alloc(),
                words.as_slice(),
                &mut StdSource::new(rt.reader()),
                &mut StdSink::new(io::writer(rt)),
                &PlainGate,
            )
            .status
        }
        Err(error) if error.kind() == io::ErrorKind::OutOfMemory => Status::NoMemory,
        // A word that is no text is none of the accepted ones.
        Err(_) => Status::Words,
    }
}

fn report<R: Eprint + AllocGlobal>(rt: &R, status: &Status) {
    if matches!(status, Status::Done) {
        return;
    }
    if let Ok(line) = status_line(rt.alloc(), status) {
        let _ = eprintln!(rt; "{}", line.as_str());
    }
}

fn main(rt: HostRuntime) -> ExitCode {
    let status = run(&rt);
    report(&rt, &status);
    ExitCode::from(status_number(&status))
}
