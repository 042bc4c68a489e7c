//! Small random traces of two to 64 threads, which grow and seal areas, move the break, name lines and fork. Their operations come in many
//! orders, and the history of each space is judged. Where no line forks, `check` judges the text too, as it is and with a wrong line.

use crate::judging::{bad_of_run, gathered, judged, parsed};
use crate::running::run_trace;
use gen_load::Draws;
use history::check;
use io_edge::Gate;
use mm_types::{Call, Entry, NoMemory};
use std::alloc::Global;
use std::fmt::Write;
use std::process::Abort;
use std::sync::Wait;
use std::sync::atomic::{AtomicU64, Ordering};
use std::test::Fail;
use std::thread;
use std::thread::Threads;
use text_lexer::decimal_of;
use trace_reader::{Op, TraceLine};
use vma_replay::{Fork, Runs};

/// How many small traces are run.
const TRACES: u64 = 2_000;

/// How many operations a small trace has.
const OPERATIONS: u64 = 30;

/// The number of the first of them.
const FIRST_LINE: u64 = 4;

/// How many children a small trace has at most.
const MOST_CHILDREN: u64 = 3;

/// How a page is mapped of an area that grows, and how another is.
const GROWS: &str = "PROT_READ|PROT_WRITE MAP_PRIVATE|MAP_ANONYMOUS|MAP_FIXED|MAP_GROWSDOWN -1 0";

const PLAIN: &str = "PROT_READ MAP_PRIVATE|MAP_ANONYMOUS|MAP_FIXED -1 0";

/// A gate that gives up its turn from no times to seven before an operation, so that other threads come between.
#[derive(Drop)]
struct Yielding {
    operations: AtomicU64,
}

impl Gate for Yielding {
    fn before<R: Threads + Wait + Sync>(&self, _rt: &R, line: u64) {
        let operation = self.operations.fetch_add(1, Ordering::SeqCst);
        for _ in 0..line.wrapping_mul(operation) % 8 {
            thread::yield_now();
        }
    }

    fn after<R: Threads + Wait + Sync>(&self, _rt: &R, _line: u64) {}
}

/// A call of the parent that may be named: its line and its thread.
#[derive(Clone, Copy, Debug, PartialEq, Eq)]
struct Told {
    line: u64,
    thread: u64,
}

/// A small trace while it is written.
#[derive(Drop)]
struct Draft {
    text: String,
    draws: Draws,
    /// How many threads the parent has at most, by number from 0.
    threads: u64,
    /// How many children may be forked.
    most_children: u64,
    /// How many were, by number behind these threads.
    children: u64,
    /// Where an area that grows was mapped last.
    stack: u64,
    calls: Vec<Told>,
}

impl Draft {
    fn new(alloc: Global, seed: u64) -> Result<Draft, NoMemory> {
        let mut draws = Draws::new(seed);
        let others = (1u64 << (1 + draws.below(6))).saturating_sub(1);
        let threads = draws.below(others.max(1)).saturating_add(2);
        let most_children = draws.below(MOST_CHILDREN + 1);
        Ok(Draft {
            text: String::from_str(alloc, "vmatrace 1\nlimit areas 12\nheap 0x200000\n")?,
            draws,
            threads,
            most_children,
            children: 0,
            stack: 0x10_0000,
            calls: Vec::new(alloc),
        })
    }

    /// Appends the line of this number.
    fn push_line(&mut self, line: u64) -> Result<(), NoMemory> {
        if self.children > 0 && self.draws.below(3) == 0 {
            let child = self.draws.below(self.children.max(1));
            let thread = self.threads.saturating_add(child);
            let _is_call = self.push_operation(thread)?;
        } else {
            let thread = self.draws.below(self.threads.max(1));
            if self.may_fork() && self.draws.below(10) == 0 {
                self.push_fork(thread)?;
            } else if self.push_operation(thread)? {
                self.push_name(thread)?;
                self.calls.push(Told { line, thread })?;
            } else {
                self.push_name(thread)?;
            }
        }
        self.text.push_str("\n")?;
        Ok(())
    }

    fn may_fork(&self) -> bool {
        self.children < self.most_children && self.threads.saturating_add(self.children) < 64
    }

    fn push_fork(&mut self, thread: u64) -> Result<(), NoMemory> {
        let child = self.threads.saturating_add(self.children);
        self.children = self.children.saturating_add(1);
        write!(self.text, "{thread} fork {child}").map_err(|_| NoMemory)
    }

    /// Appends an operation of a thread, over 24 pages, and answers whether it is a call.
    fn push_operation(&mut self, thread: u64) -> Result<bool, NoMemory> {
        let address = 0x10_0000 + 4096 * self.draws.below(24);
        let length = 4096 * (1 + self.draws.below(4));
        let kind = self.draws.below(14);
        if kind < 3 {
            self.stack = address;
        }
        let heap = 0x20_0000 + length;
        let below = self.stack.saturating_sub(4096 * (1 + self.draws.below(2)));
        let text = &mut self.text;
        let written = match kind {
            0 | 1 | 2 => write!(text, "{thread} mmap 0x{address:x} {length} {GROWS}"),
            3 => write!(text, "{thread} mmap 0x{address:x} {length} {PLAIN}"),
            4 => write!(
                text,
                "{thread} mmap 0 {length} PROT_READ MAP_PRIVATE|MAP_ANONYMOUS -1 0"
            ),
            5 => write!(text, "{thread} munmap 0x{address:x} {length}"),
            6 => write!(text, "{thread} mprotect 0x{address:x} {length} PROT_READ"),
            7 => write!(
                text,
                "{thread} mremap 0x{address:x} 4096 {length} MREMAP_MAYMOVE"
            ),
            8 => write!(text, "{thread} brk 0x{heap:x}"),
            9 => write!(text, "{thread} mseal 0x{address:x} 4096 0"),
            10 => write!(text, "{thread} maps"),
            11 => write!(text, "{thread} fault 0x{address:x} w"),
            _ => write!(text, "{thread} fault 0x{below:x} w"),
        };
        written.map_err(|_| NoMemory)?;
        Ok(kind < 10)
    }

    /// Has the line of a thread name a call above it of another thread, now and then.
    fn push_name(&mut self, thread: u64) -> Result<(), NoMemory> {
        let draw = self.draws.below(64) as usize;
        if let Some(call) = self.calls.get(draw)
            && call.thread != thread
        {
            write!(self.text, " after={}", call.line).map_err(|_| NoMemory)?;
        }
        Ok(())
    }
}

/// The text of a trace that follows from a seed, with a small limit of areas.
fn small_trace(alloc: Global, seed: u64) -> Result<String, NoMemory> {
    let mut draft = Draft::new(alloc, seed)?;
    for line in FIRST_LINE..FIRST_LINE + OPERATIONS {
        draft.push_line(line)?;
    }
    Ok(draft.text)
}

/// Runs a small trace in threads, and has the history of each space judged, and its text where no line forks.
fn judge<R: Threads + Wait + Sync + Abort>(
    rt: &R,
    alloc: Global,
    seed: u64,
    gate: &Yielding,
) -> Result<Runs, Fail> {
    let text = small_trace(alloc, seed)?;
    let trace = parsed(alloc, text.as_str().as_bytes())?;
    let (runs, output) = run_trace(rt, alloc, "threads", text.as_str().as_bytes(), gate)?;
    let Some((parent, children)) = runs.items().split_first() else {
        panic!(rt; "no run of seed {seed}")
    };
    let history = gathered(rt, alloc, parent)?;
    let judged = check(alloc, &trace, &history);
    assert!(rt; judged.is_ok(), "the parent of seed {seed}");
    let forks = forks_told(alloc, output.bytes())?;
    assert_eq!(rt; forks.len(), count_forks(trace.lines.items()));
    assert_eq!(rt; forks.len(), children.len());
    for (fork, run) in forks.iter().zip(children) {
        let bad = bad_of_run(rt, alloc, &trace, parent.journal(), fork, run)?;
        assert_eq!(rt; bad, None, "the child of {fork:?} of seed {seed}");
    }
    if forks.is_empty() {
        judge_text(rt, alloc, text.as_str(), output.bytes(), seed)?;
    }
    Ok(runs)
}

/// How many lines fork.
fn count_forks(lines: &[TraceLine]) -> usize {
    lines
        .iter()
        .filter(|line| matches!(line.op, Op::Fork { .. }))
        .count()
}

/// The forks that an output tells, in its order.
fn forks_told(alloc: Global, output: &[u8]) -> Result<Vec<Fork>, NoMemory> {
    let mut forks = Vec::new(alloc);
    for line in output.split(|byte| *byte == b'\n') {
        if let Some(fork) = fork_told(line) {
            forks.push(fork)?;
        }
    }
    Ok(forks)
}

/// The fork that a line of an output tells, as `child 7 of L3 v1`, if it tells one.
fn fork_told(line: &[u8]) -> Option<Fork> {
    let mut words = std::str::from_utf8(line).ok()?.split(' ');
    if words.next() != Some("child") {
        return None;
    }
    let child = decimal_of(words.next()?)?;
    let line = words.nth(1)?.strip_prefix('L')?;
    let version = words.next()?.strip_prefix('v')?;
    Some(Fork {
        child: u32::try_from(child).ok()?,
        line: decimal_of(line)?,
        version: decimal_of(version)?,
    })
}

/// Has the text of a run judged, and the same with one line that ends with another byte than any right line.
fn judge_text(
    rt: &impl Abort,
    alloc: Global,
    trace: &str,
    text: &[u8],
    seed: u64,
) -> Result<(), Fail> {
    let legal = judged(alloc, trace.as_bytes(), text)?;
    assert_eq!(rt; legal.as_slice(), b"legal\n".as_slice(), "seed {seed}");
    let count = text.iter().filter(|byte| **byte == b'\n').count();
    let line = seed as usize % count.max(1);
    let wrong = with_wrong_line(alloc, text, line)?;
    let bad = judged(alloc, trace.as_bytes(), wrong.as_slice())?;
    let wanted = format!(in alloc; "bad {}\n", line.saturating_add(1))?;
    assert_eq!(rt; bad.as_slice(), wanted.as_str().as_bytes(), "seed {seed}");
    Ok(())
}

/// A text with a byte more at the end of one of its lines, counted from 0.
fn with_wrong_line(alloc: Global, text: &[u8], line: usize) -> Result<Vec<u8>, Fail> {
    let mut wrong = Vec::new(alloc);
    for (place, part) in text.split(|byte| *byte == b'\n').enumerate() {
        if place > 0 {
            wrong.push(b'\n')?;
        }
        wrong.extend_from_slice(part)?;
        if place == line {
            wrong.push(b'X')?;
        }
    }
    Ok(wrong)
}

/// How many faults of a journal grew an area.
fn count_grown(journal: &[Entry]) -> usize {
    journal
        .iter()
        .filter(|entry| matches!(entry.call, Call::Touch { .. }))
        .count()
}

#[test]
fn histories_of_small_runs_are_judged_legal(rt: HostRuntime) -> Result<(), Fail> {
    let gate = Yielding {
        operations: AtomicU64::new(0),
    };
    let (mut grown, mut forks) = (0usize, 0usize);
    for seed in 0..TRACES {
        let runs = judge(&rt, rt.alloc(), seed, &gate)?;
        forks = forks.saturating_add(runs.items().len().saturating_sub(1));
        for run in runs.items() {
            grown = grown.saturating_add(count_grown(run.journal()));
        }
    }
    assert!(rt; grown > 0 && forks > 0);
    Ok(())
}
