//! Runs of generated traces.
ghost use Rattle.trace_reader.specs.Values.{IsTraceValue};

use crate::judging::{gathered, judged, parsed};
use crate::running::{run_trace, words};
use gen_load::load;
use history::{History, check, label};
use io_edge::{PlainGate, SureSink, SureSource};
use mm_space::Closed;
use std::alloc::Global;
use std::process::Abort;
use std::sync::Wait;
use std::test::Fail;
use std::thread::Threads;
use text_lexer::decimal_of;
use trace_reader::Trace;
use vma_replay::{Mode, Status, replay};

/// How many operations the generated trace has that is run whole, and its seed.
const OPERATIONS: u32 = 2000;

const SEED: u64 = 1;

/// The history that a closed run of a mode stands for.
fn history_of(
    rt: &impl Abort,
    alloc: Global,
    mode: Mode,
    trace: &Trace,
    run: &Closed,
) -> Result<History, Fail>
    requires { IsTraceValue trace.now }
{
    match (mode, run.logs()) {
        (Mode::Threads, _) => gathered(rt, alloc, run),
        (Mode::Serial, [log]) => Ok(label(alloc, trace, run.journal(), log.as_slice())?),
        (Mode::Serial, _) => panic!(rt; "not one log"),
    }
}

/// Runs a generated trace in a mode, which has a name, and has the history of the run judged, and its output.
fn judge<R: Threads + Wait + Sync + Abort>(
    rt: &R,
    alloc: Global,
    mode: Mode,
    name: &str,
) -> Result<(), Fail> {
    let text = load(alloc, OPERATIONS, SEED)?;
    let trace = parsed(alloc, text.as_slice())?;
    let (runs, output) = run_trace(rt, alloc, name, text.as_slice(), &PlainGate)?;
    let [run] = runs.items() else {
        panic!(rt; "not one run")
    };
    let history = history_of(rt, alloc, mode, &trace, run)?;
    assert!(rt; check(alloc, &trace, &history).is_ok());
    let judgement = judged(alloc, text.as_slice(), output.bytes())?;
    assert_eq!(rt; judgement.as_slice(), b"legal\n".as_slice());
    Ok(())
}

#[test]
fn histories_of_both_modes_are_judged_legal(rt: HostRuntime) -> Result<(), Fail> {
    judge(&rt, rt.alloc(), Mode::Serial, "serial")?;
    judge(&rt, rt.alloc(), Mode::Threads, "threads")
}

/// The number that a line of a summary has behind this name.
fn number_behind(summary: &[u8], name: &str) -> Option<u64> {
    for line in std::str::from_utf8(summary).ok()?.split('\n') {
        let mut words = line.split(' ');
        if words.next() == Some(name) {
            return decimal_of(words.next()?);
        }
    }
    None
}

/// What a run of the generated trace gives.
fn generated<R: Threads + Wait + Sync + Abort>(rt: &R, alloc: Global) -> Result<SureSink, Fail> {
    let words = words(alloc, &["generate", "2000", "1"])?;
    let mut source = SureSource::new(Vec::new(alloc));
    let mut sink = SureSink::new(alloc);
    let replayed = replay(rt, alloc, &words, &mut source, &mut sink, &PlainGate);
    assert_eq!(rt; replayed.status, Status::Done);
    Ok(sink)
}

#[test]
fn two_runs_of_a_generated_trace_are_equal(rt: HostRuntime) -> Result<(), Fail> {
    let first = generated(&rt, rt.alloc())?;
    let second = generated(&rt, rt.alloc())?;
    assert_eq!(rt; first.bytes(), second.bytes());
    let text = first.bytes();
    let (Some(calls), Some(faults)) = (number_behind(text, "calls"), number_behind(text, "faults"))
    else {
        return Err("no such numbers".into());
    };
    assert_eq!(rt; calls.checked_add(faults), Some(2000));
    assert_eq!(rt; number_behind(text, "version"), Some(calls));
    Ok(())
}
