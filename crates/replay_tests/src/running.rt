//! Whole runs by `replay`, over sources and sinks in memory.

use io_edge::{Gate, SureSink, SureSource};
use std::alloc::{AllocError, Global};
use std::process::Abort;
use std::sync::Wait;
use std::test::Fail;
use std::thread::Threads;
use vma_replay::{Replayed, Runs, Status, replay};

/// The words of the command line.
pub(crate) fn words(alloc: Global, texts: &[&str]) -> Result<Vec<String>, AllocError> {
    let mut words = Vec::new(alloc);
    for text in texts {
        words.push(String::from_str(alloc, text)?)?;
    }
    Ok(words)
}

/// The closed runs and the output of a trace, which is run to its end in a mode.
pub(crate) fn run_trace<R: Threads + Wait + Sync + Abort, G: Gate>(
    rt: &R,
    alloc: Global,
    mode: &str,
    trace: &[u8],
    gate: &G,
) -> Result<(Runs, SureSink), Fail> {
    let words = words(alloc, &[mode])?;
    let mut source = SureSource::new(Vec::from_slice(alloc, trace)?);
    let mut sink = SureSink::new(alloc);
    let Replayed { status, runs } = replay(rt, alloc, &words, &mut source, &mut sink, gate);
    assert_eq!(rt; status, Status::Done);
    Ok((runs, sink))
}
