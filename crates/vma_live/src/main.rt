//! Answers the lines of a trace one by one: `vma_live` reads lines from standard input and writes the answer to each to standard output
//! before it reads on. Where a session does not end at the end of its input, a line on standard error says why, and the exit status is 3
//! to 6. Words after the program's name are refused with status 2.
#![tactic(auto)]

use io_edge::{StdSink, StdSource};
use live_session::{Status, converse, status_line, status_number};
use std::process::ExitCode;
use std::rt::Env;
use std::{env, io};

/// The exit status for words after the program's name.
const WORDS: u8 = 2;

/// Whether words stand after the program's name.
fn has_words<R: Env + AllocGlobal>(rt: &R) -> io::Result<bool> {
    Ok(env::args(rt)?.count() > 1)
}

fn run<R: Input + Print + AllocGlobal>(rt: &R) -> Status {
    converse(
        rt.alloc(),
        &mut StdSource::new(rt.reader()),
        &mut StdSink::new(io::writer(rt)),
    )
}

fn report<R: Eprint>(rt: &R, status: Status) {
    if status != Status::Done {
        let _ = eprintln!(rt; "{}", status_line(status));
    }
}

fn main(rt: HostRuntime) -> ExitCode {
    let status = match has_words(&rt) {
        Ok(false) => run(&rt),
        Err(error) if error.kind() == io::ErrorKind::OutOfMemory => Status::NoMemory,
        // A word that is no text is a word too.
        Ok(true) | Err(_) => {
            let _ = eprintln!(rt; "words");
            return ExitCode::from(WORDS);
        }
    };
    report(&rt, status);
    ExitCode::from(status_number(status))
}
