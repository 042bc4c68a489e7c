//! One run: from an input in memory to a status and an output in memory.

use crate::fault::Fault;
use crate::line::Run;
use io_edge::{MemSink, MemSource, PlainGate};
use std::alloc::Global;
use std::io;
use std::io::Write;
use std::sync::Wait;
use std::thread::Threads;
use vma_replay::{Status, replay, status_line, status_number};

/// Replays an input, and writes the status and the output.
pub fn run_input<R: Threads + Wait + Sync, W: Write>(
    rt: &R,
    alloc: Global,
    input: &[u8],
    run: &Run,
    out: &mut W,
) -> Result<(), Fault> {
    let held = match run.first {
        Some(count) => &input[..count.min(input.len())],
        None => input,
    };
    let reads = Vec::from_slice(alloc, run.failing_reads.as_slice())?;
    let writes = Vec::from_slice(alloc, run.failing_writes.as_slice())?;
    let mut source = MemSource::new(Vec::from_slice(alloc, held)?, reads);
    let mut sink = MemSink::new(alloc, writes);
    let words = run.words.as_slice();
    let replayed = replay(rt, alloc, words, &mut source, &mut sink, &PlainGate);
    show_status(alloc, &replayed.status, out)?;
    show_output(sink.bytes(), out)?;
    Ok(())
}

/// Writes the number of a status, and its line where it has one.
fn show_status<W: Write>(alloc: Global, status: &Status, out: &mut W) -> io::Result<()> {
    let number = status_number(status);
    let Ok(line) = status_line(alloc, status) else {
        return Err(io::Error::from(io::ErrorKind::OutOfMemory));
    };
    match line.as_str() {
        "" => writeln!(out, "status {number}"),
        said => writeln!(out, "status {number} {said}"),
    }
}

/// Writes an output by lines: `| ` before each, and `+ ` before what is behind the last newline.
fn show_output<W: Write>(bytes: &[u8], out: &mut W) -> io::Result<()> {
    for line in bytes.split_inclusive(|byte| *byte == b'\n') {
        match line {
            [whole @ .., b'\n'] => {
                out.write_all(b"| ")?;
                out.write_all(whole)?;
            }
            _ => {
                out.write_all(b"+ ")?;
                out.write_all(line)?;
            }
        }
        out.write_all(b"\n")?;
    }
    Ok(())
}
