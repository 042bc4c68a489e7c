//! Runs the worked rows: inputs with what the program has to make of them.
//!
//! A row is an input (a trace, a script, a maps text, or a trace with an output to be judged) and the command lines that it is run with.
//! `stdin` in the folder of this crate has the rows, and `stdout` the exit status and the output of each of their runs, which were worked
//! out by hand before the program ran. The full check runs this program on the one file and compares what it writes with the other.
//!
//! Find a row by a word of its name, and read it with its answers:
//!
//! ```sh
//! grep -n '^row .*munmap' crates/rows/stdin
//! show() { awk -v row="row $1" '/^row /{p = $0 == row} p' crates/rows/stdin crates/rows/stdout; }
//! show 'munmap splits a mapping'
//! ```
//!
//! A new row goes into `stdin` and its answers into `stdout`. `rt try < stdin | diff stdout -` in the folder of this crate shows in a minute
//! where program and answers differ.
//!
//! Each input is read from memory and each output is written to memory, both in pieces of at most 64 bytes, so that a read or a write in
//! the middle can fail. The text goes by lines. One that is empty or begins with `#` is passed over.
//!
//! | line | does |
//! |---|---|
//! | `row NAME` | begins a row, which has no input yet |
//! | `\| TEXT` | adds the text and a newline to the row's input |
//! | `+ TEXT` | adds the text alone, in which `\xHH` stands for the byte with this number, in two hexadecimal digits |
//! | `COUNT \| TEXT`, `COUNT + TEXT` | the same so many times |
//! | `run: WORDS` | runs the input with these words, separated by spaces; `''` stands for an empty word |
//! | `with \| TEXT`, `with + TEXT` | repeats the last run once, with this text behind the input |
//!
//! Before the colon of a run may stand `, read N fails` and `, write N fails`, each for a call that fails, counted from 0, and
//! `, first N bytes`, where the input ends early. A run writes its own line, a line `status N` with what the program would write to standard
//! error, and the output by lines of the same form: `| TEXT` is a line of it, and `+ TEXT` what is behind the last newline.
//!
//! The exit status is 2 where a line has another form, 1 where memory or standard output fails, and else 0.
#![tactic(auto)]

mod fault;
mod line;
mod row;
mod run;
mod text;

use fault::BadLine;
use std::io;
use std::io::BufWriter;
use std::process::ExitCode;
use std::sync::Wait;
use std::thread::Threads;
use text::run_rows;

/// Runs the rows of standard input.
fn run_all<R: Threads + Wait + Sync + Input + Print + AllocGlobal>(rt: &R) -> Result<(), BadLine> {
    let text = io::read_to_string(rt.alloc(), rt.reader()).map_err(BadLine::before)?;
    let mut out = BufWriter::new(rt.alloc(), io::writer(rt)).map_err(BadLine::before)?;
    run_rows(rt, text.as_str(), &mut out)
}

fn main(rt: HostRuntime) -> ExitCode {
    match run_all(&rt) {
        Ok(()) => ExitCode::from(0),
        Err(bad) => {
            let _ = eprintln!(rt; "rows: {bad}");
            ExitCode::from(bad.status())
        }
    }
}
