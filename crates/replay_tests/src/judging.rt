//! Traces that are read, and how the closed runs, the histories and the outputs of their replays are judged.
ghost use Rattle.std.specs.Prelude.{◌≡◌, ◌≤◌, ◌↔◌, All, IfOk, IsTrue};
ghost use Rattle.area_rules.specs.Journals.{version_of};
ghost use Rattle.trace_reader.specs.Values.{IsTraceValue};

use history::{Answer, CheckError, History, MOST_THREADS, check, gather};
use mm_fork::{check_child, child_history, has_child, inherit};
use mm_space::Closed;
use mm_types::{Call, Entry, NoMemory, Reply, Seen, Verdict};
use output::checked;
use std::alloc::Global;
use std::process::Abort;
use std::test::Fail;
use trace_reader::{MOST_LINES, Trace, read};
use vma_replay::Fork;

/// What an item answers, or what was expected of it; of a list not which.
#[derive(Clone, Copy, Debug, PartialEq, Eq)]
pub(crate) enum Told {
    Call(Call, Reply),
    Fault(Verdict),
    List,
    Nothing,
}

/// The place of a bad item, counted from 1, with what was expected there and what was found.
pub(crate) type Bad = (u64, Told, Told);

/// The trace that bytes are.
pub(crate) fn parsed(alloc: Global, bytes: &[u8]) -> Result<Trace, Fail>
    ensures { IfOk result IsTraceValue }
{
    match read(alloc, bytes) {
        Ok(trace) => Ok(trace),
        Err(_) => Err("no trace".into()),
    }
}

/// What is judged of a text, as an output of a trace.
pub(crate) fn judged(alloc: Global, trace: &[u8], text: &[u8]) -> Result<Vec<u8>, Fail> {
    let mut input = Vec::from_slice(alloc, trace)?;
    input.extend_from_slice(b"==\n")?;
    input.extend_from_slice(text)?;
    match checked(alloc, input.as_slice()) {
        Ok(judgement) => Ok(judgement),
        Err(_) => Err("neither a trace nor a text".into()),
    }
}

/// The history that a closed run in threads stands for.
pub(crate) fn gathered(rt: &impl Abort, alloc: Global, run: &Closed) -> Result<History, Fail> {
    let logs = run.logs();
    assert!(rt; logs.len() <= MOST_THREADS);
    Ok(gather(alloc, run.journal(), logs)?)
}

/// What is told of an answer.
fn told_by(answer: &Answer) -> Told {
    match answer {
        Answer::Call(call, reply) => Told::Call(*call, *reply),
        Answer::Fault(verdict) => Told::Fault(*verdict),
        Answer::List(_) => Told::List,
        Answer::Nothing => Told::Nothing,
    }
}

/// What is bad of a history that was judged.
fn bad_in(judged: Result<(), CheckError>) -> Result<Option<Bad>, Fail> {
    match judged {
        Ok(()) => Ok(None),
        Err(CheckError::Bad(bad)) => Ok(Some((
            bad.place,
            told_by(&bad.expected),
            told_by(&bad.found),
        ))),
        Err(CheckError::NoMemory) => Err("no memory".into()),
    }
}

/// What is bad of a history of the parent of a trace.
pub(crate) fn bad_of(alloc: Global, trace: &Trace, history: &History) -> Result<Option<Bad>, Fail>
    requires { IsTraceValue trace.now }
{
    bad_in(check(alloc, trace, history))
}

/// What is bad of a history of a child of a trace, which began with these entries.
pub(crate) fn bad_of_child(
    rt: &impl Abort,
    alloc: Global,
    trace: &Trace,
    child: u32,
    before: &[Entry],
    history: &History,
) -> Result<Option<Bad>, Fail>
    requires { IsTraceValue trace.now }
{
    assert!(rt; has_child(trace, child));
    assert!(rt; before.len() <= MOST_LINES);
    bad_in(check_child(alloc, trace, child, before, history))
}

/// What a child inherits that was forked after so many entries.
pub(crate) fn inherited(
    rt: &impl Abort,
    alloc: Global,
    journal: &[Entry],
    version: u64,
) -> Result<Vec<Entry>, NoMemory> {
    assert!(rt; version <= journal.len() as u64);
    assert!(rt;
        journal
            .iter()
            .all(|entry| entry.caller < MOST_THREADS as u32)
    );
    inherit(alloc, journal, version)
}

/// The version of a read.
fn version_of(read: &Seen) -> u64
    ensures { result ≡ version_of read.now }
{
    match read {
        Seen::Fault { version, .. } | Seen::Maps { version, .. } => *version,
    }
}

/// Whether no read of a log is of a lower version.
fn is_later(version: u64, log: &[Seen]) -> bool
    ensures { IsTrue result ↔ All (λ read. version ≤ version_of read) log.now }
{
    log.iter().all(|read| version <= version_of(read))
}

/// The history of a child that began with so many entries, by its journal and its logs.
pub(crate) fn history_of_child(
    rt: &impl Abort,
    alloc: Global,
    version: u64,
    journal: &[Entry],
    logs: &[Vec<Seen>],
) -> Result<History, NoMemory> {
    assert!(rt; logs.len() <= MOST_THREADS);
    assert!(rt; logs.iter().all(|log| is_later(version, log.as_slice())));
    assert!(rt; version <= journal.len() as u64);
    child_history(alloc, version, journal, logs)
}

/// What is bad of the run of a child, by the journal of its parent.
pub(crate) fn bad_of_run(
    rt: &impl Abort,
    alloc: Global,
    trace: &Trace,
    journal: &[Entry],
    fork: &Fork,
    run: &Closed,
) -> Result<Option<Bad>, Fail>
    requires { IsTraceValue trace.now }
{
    let before = inherited(rt, alloc, journal, fork.version)?;
    let history = history_of_child(rt, alloc, fork.version, run.journal(), run.logs())?;
    bad_of_child(rt, alloc, trace, fork.child, before.as_slice(), &history)
}
