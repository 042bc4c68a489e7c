//! Runs in the mode `threads`: outputs of which the schedule picks one, workers that run at once, and what a gate is told.

use crate::running::run_trace;
use io_edge::{Gate, PlainGate, SureSink};
use std::alloc::Global;
use std::process::Abort;
use std::sync::Wait;
use std::sync::atomic::{AtomicU64, Ordering};
use std::test::Fail;
use std::thread;
use std::thread::Threads;

/// What a mode gives for a trace, which it runs to its end with one closed run.
fn output<R: Threads + Wait + Sync + Abort, G: Gate>(
    rt: &R,
    alloc: Global,
    mode: &str,
    trace: &[u8],
    gate: &G,
) -> Result<SureSink, Fail> {
    output_of_runs(rt, alloc, mode, trace, gate, 1)
}

/// The same with so many closed runs.
fn output_of_runs<R: Threads + Wait + Sync + Abort, G: Gate>(
    rt: &R,
    alloc: Global,
    mode: &str,
    trace: &[u8],
    gate: &G,
    runs: usize,
) -> Result<SureSink, Fail> {
    let (closed, sink) = run_trace(rt, alloc, mode, trace, gate)?;
    assert_eq!(rt; closed.items().len(), runs);
    Ok(sink)
}

#[test]
fn a_fault_beside_a_mapping_has_two_answers(rt: HostRuntime) -> Result<(), Fail> {
    let trace =
        b"vmatrace 1\n0 mmap 0x100000 4096 PROT_READ|PROT_WRITE MAP_PRIVATE|MAP_ANONYMOUS|MAP_FIXED -1 0\n\
        0 fault 0x100000 w\n1 fault 0x100000 r\n";
    let before: &[u8] =
        b"L4 t1 v0 = SIGSEGV SEGV_MAPERR\nL2 t0 v1 = 0x100000\nL3 t0 v1 = served 00100000-00101000 rw-p page 0\nmaps 1\n\
        00100000-00101000 rw-p 00000000 00:00 0 \n";
    let after: &[u8] = b"L2 t0 v1 = 0x100000\nL3 t0 v1 = served 00100000-00101000 rw-p page 0\n\
        L4 t1 v1 = served 00100000-00101000 rw-p page 0\nmaps 1\n00100000-00101000 rw-p 00000000 00:00 0 \n";
    let sink = output(&rt, rt.alloc(), "threads", trace, &PlainGate)?;
    assert!(rt; sink.bytes() == before || sink.bytes() == after);
    Ok(())
}

/// A trace in which thread 0 maps and unmaps a page so many times, with a fault after each, and threads 1 to 3 fault there.
fn mapping_trace(alloc: Global, times: usize) -> Result<Vec<u8>, Fail> {
    let mut trace = Vec::from_slice(alloc, b"vmatrace 1\n")?;
    for _ in 0..times {
        trace.extend_from_slice(
            b"0 mmap 0x100000 4096 PROT_READ|PROT_WRITE MAP_PRIVATE|MAP_ANONYMOUS|MAP_FIXED -1 0\n0 fault 0x100000 w\n\
            0 munmap 0x100000 4096\n0 fault 0x100000 w\n1 fault 0x100000 r\n2 fault 0x100000 r\n3 fault 0x100000 r\n",
        )?;
    }
    Ok(trace)
}

/// What a line of thread 0 in that trace ends with, by its number among the lines of that thread.
fn ending(number: usize) -> &'static [u8] {
    match number % 4 {
        0 => b" = 0x100000",
        1 => b" = served 00100000-00101000 rw-p page 0",
        2 => b" = 0",
        _ => b" = SIGSEGV SEGV_MAPERR",
    }
}

#[test]
fn each_thread_sees_its_own_calls(rt: HostRuntime) -> Result<(), Fail> {
    let trace = mapping_trace(rt.alloc(), 1000)?;
    let sink = output(&rt, rt.alloc(), "threads", trace.as_slice(), &PlainGate)?;
    let (mut own, mut others) = (0usize, 0usize);
    for line in sink.bytes().split(|byte| *byte == b'\n') {
        let mut words = line.split(|byte| *byte == b' ');
        let _number = words.next();
        match words.next() {
            Some(b"t0") => {
                assert!(rt; line.ends_with(ending(own)));
                own = own.saturating_add(1);
            }
            Some(b"t1" | b"t2" | b"t3") => others = others.saturating_add(1),
            _ => {}
        }
    }
    assert_eq!(rt; (own, others), (4000, 3000));
    Ok(())
}

/// How many turns a line waits for another at most.
const TURNS: u64 = 20_000_000;

/// Whether a count comes to so much within those turns.
fn reaches(count: &AtomicU64, least: u64) -> bool {
    for _ in 0..TURNS {
        if count.load(Ordering::SeqCst) >= least {
            return true;
        }
        thread::yield_now();
    }
    false
}

/// How many threads a trace has at most.
const THREADS: u64 = 64;

/// How many children a trace has at most.
const CHILDREN: u64 = 8;

/// A gate that holds each line from one on until so many are before their operation, and counts those that it did not hold in vain.
#[derive(Drop)]
struct Meeting {
    first: u64,
    wanted: u64,
    come: AtomicU64,
    released: AtomicU64,
}

impl Meeting {
    fn new(first: u64, wanted: u64) -> Meeting {
        Meeting {
            first,
            wanted,
            come: AtomicU64::new(0),
            released: AtomicU64::new(0),
        }
    }
}

impl Gate for Meeting {
    fn before<R: Threads + Wait + Sync>(&self, _rt: &R, line: u64) {
        if line < self.first {
            return;
        }
        self.come.fetch_add(1, Ordering::SeqCst);
        if reaches(&self.come, self.wanted) {
            self.released.fetch_add(1, Ordering::SeqCst);
        } else {
            // The others wait no longer.
            self.come.fetch_add(self.wanted, Ordering::SeqCst);
        }
    }

    fn after<R: Threads + Wait + Sync>(&self, _rt: &R, _line: u64) {}
}

#[test]
fn workers_run_at_once(rt: HostRuntime) -> Result<(), Fail> {
    let mut trace = Vec::from_slice(rt.alloc(), b"vmatrace 1\n")?;
    for thread in 0..THREADS {
        let line = format!(in rt.alloc(); "{thread} munmap 0x100000 4096\n")?;
        trace.extend_from_slice(line.as_str().as_bytes())?;
    }
    let gate = Meeting::new(2, THREADS);
    let _sink = output(&rt, rt.alloc(), "threads", trace.as_slice(), &gate)?;
    assert_eq!(rt; gate.come.load(Ordering::SeqCst), THREADS);
    assert_eq!(rt; gate.released.load(Ordering::SeqCst), THREADS);
    Ok(())
}

/// Two threads that map a page each.
const TWO_MAPPINGS: &[u8] = b"vmatrace 1\n\
      0 mmap 0 4096 PROT_READ MAP_PRIVATE|MAP_ANONYMOUS -1 0\n\
      1 mmap 0 4096 PROT_READ MAP_PRIVATE|MAP_ANONYMOUS -1 0\n";

#[test]
fn two_mappings_are_made_at_once(rt: HostRuntime) -> Result<(), Fail> {
    let gate = Meeting::new(2, 2);
    let _sink = output(&rt, rt.alloc(), "threads", TWO_MAPPINGS, &gate)?;
    assert_eq!(rt; gate.come.load(Ordering::SeqCst), 2);
    assert_eq!(rt; gate.released.load(Ordering::SeqCst), 2);
    Ok(())
}

/// The forks are lines 2 to 9, and each child has one line behind them.
#[test]
fn children_run_at_once(rt: HostRuntime) -> Result<(), Fail> {
    let mut trace = Vec::from_slice(rt.alloc(), b"vmatrace 1\n")?;
    for child in 1..=CHILDREN {
        let line = format!(in rt.alloc(); "0 fork {child}\n")?;
        trace.extend_from_slice(line.as_str().as_bytes())?;
    }
    for child in 1..=CHILDREN {
        let line = format!(in rt.alloc(); "{child} munmap 0x100000 4096\n")?;
        trace.extend_from_slice(line.as_str().as_bytes())?;
    }
    let gate = Meeting::new(CHILDREN + 2, CHILDREN);
    let runs = CHILDREN as usize + 1;
    let _sink = output_of_runs(&rt, rt.alloc(), "threads", trace.as_slice(), &gate, runs)?;
    assert_eq!(rt; gate.come.load(Ordering::SeqCst), CHILDREN);
    assert_eq!(rt; gate.released.load(Ordering::SeqCst), CHILDREN);
    Ok(())
}

/// A trace whose lines a `Sequence` orders.
const ORDERED: &[u8] = b"vmatrace 1\n\
      0 munmap 0x100000 4096\n\
      0 fault 0x100000 r\n\
      1 mmap 0x100000 4096 PROT_READ MAP_PRIVATE|MAP_ANONYMOUS|MAP_FIXED -1 0\n\
      0 fault 0x100000 r\n";

/// What is given for it, where the operation of each line stands between the two calls of the gate for it.
const ORDERED_OUTPUT: &[u8] = b"L2 t0 v1 = 0\n\
      L3 t0 v1 = SIGSEGV SEGV_MAPERR\n\
      L4 t1 v2 = 0x100000\n\
      L5 t0 v2 = served 00100000-00101000 r--p page 0\n\
      maps 1\n\
      00100000-00101000 r--p 00000000 00:00 0 \n";

/// A gate that holds line 4 before its operation, and meanwhile has lines 2 and 3 made, and that holds it again after its operation, and
/// meanwhile has line 5 made. It counts what it held in vain.
#[derive(Drop)]
struct Sequence {
    steps: AtomicU64,
    in_vain: AtomicU64,
}

impl Sequence {
    /// Tells that the steps came to so many.
    fn tell(&self, steps: u64) {
        self.steps.fetch_max(steps, Ordering::SeqCst);
    }

    /// Waits for so many steps.
    fn hold(&self, steps: u64) {
        if !reaches(&self.steps, steps) {
            self.in_vain.fetch_add(1, Ordering::SeqCst);
        }
    }
}

impl Gate for Sequence {
    fn before<R: Threads + Wait + Sync>(&self, _rt: &R, line: u64) {
        match line {
            4 => {
                self.tell(1);
                self.hold(2);
            }
            5 => self.hold(3),
            _ => {}
        }
    }

    fn after<R: Threads + Wait + Sync>(&self, _rt: &R, line: u64) {
        match line {
            2 => self.hold(1),
            3 => self.tell(2),
            4 => {
                self.tell(3);
                self.hold(4);
            }
            5 => self.tell(4),
            _ => {}
        }
    }
}

#[test]
fn an_operation_stands_between_the_calls_of_the_gate(rt: HostRuntime) -> Result<(), Fail> {
    let gate = Sequence {
        steps: AtomicU64::new(0),
        in_vain: AtomicU64::new(0),
    };
    let sink = output(&rt, rt.alloc(), "threads", ORDERED, &gate)?;
    assert_eq!(rt; gate.in_vain.load(Ordering::SeqCst), 0);
    assert_eq!(rt; sink.bytes(), ORDERED_OUTPUT);
    Ok(())
}

/// A gate that notes when each line was told before and after its operation, by its number: 0 where it was not.
#[derive(Drop)]
struct Noting {
    time: AtomicU64,
    before: Vec<AtomicU64>,
    after: Vec<AtomicU64>,
    /// How often a line was told once more, or one past all lines.
    wrong: AtomicU64,
}

impl Noting {
    fn new(alloc: Global, lines: u64) -> Result<Noting, Fail> {
        let (mut before, mut after) = (Vec::new(alloc), Vec::new(alloc));
        for _ in 0..=lines {
            before.push(AtomicU64::new(0))?;
            after.push(AtomicU64::new(0))?;
        }
        Ok(Noting {
            time: AtomicU64::new(1),
            before,
            after,
            wrong: AtomicU64::new(0),
        })
    }

    fn note(&self, times: &[AtomicU64], line: u64) {
        let now = self.time.fetch_add(1, Ordering::SeqCst);
        let last = times
            .get(line as usize)
            .map(|time| time.swap(now, Ordering::SeqCst));
        if last != Some(0) {
            self.wrong.fetch_add(1, Ordering::SeqCst);
        }
    }

    /// When a line was told before and after its operation.
    fn times_of(&self, line: u64) -> (u64, u64) {
        let time_in = |times: &[AtomicU64]| {
            times
                .get(line as usize)
                .map_or(0, |time| time.load(Ordering::SeqCst))
        };
        (time_in(&self.before), time_in(&self.after))
    }
}

impl Gate for Noting {
    fn before<R: Threads + Wait + Sync>(&self, _rt: &R, line: u64) {
        self.note(&self.before, line);
    }

    fn after<R: Threads + Wait + Sync>(&self, _rt: &R, line: u64) {
        self.note(&self.after, line);
    }
}

/// How many rounds the trace of a `Noting` has.
const ROUNDS: u64 = 20;

/// The number of its first line, of the first of two lines that fork, and of the last of four lines of the two children.
const FIRST_LINE: u64 = 3;

const FIRST_FORK: u64 = FIRST_LINE + 5 * ROUNDS;

const LAST_LINE: u64 = FIRST_FORK + 5;

/// A trace of rounds of five lines: four of threads 0 to 3, and in the middle a comment. The last line of a round names the first, and the
/// first names the last of the round before. Behind them stand the first two lines of one more round, which fork, and two lines of each child.
fn noted_trace(alloc: Global) -> Result<Vec<u8>, Fail> {
    let mut trace = Vec::from_slice(alloc, b"vmatrace 1\nlimit areas 9\n")?;
    for round in 0..ROUNDS {
        let first = FIRST_LINE + 5 * round;
        let name = match round {
            0 => String::new(alloc),
            _ => format!(in alloc; " after={}", first - 1)?,
        };
        let text = format!(in alloc;
            "0 munmap 0x100000 4096{name}\n1 fault 0x100000 r\n# This is no line of a thread.\n\
            2 brk 0\n3 mseal 0x100000 4096 0 after={first}\n"
        )?;
        trace.extend_from_slice(text.as_str().as_bytes())?;
    }
    let forks = format!(in alloc; "0 fork 8 after={}\n1 fork 7\n", FIRST_FORK - 1)?;
    trace.extend_from_slice(forks.as_str().as_bytes())?;
    trace.extend_from_slice(b"7 brk 0\n8 fault 0x100000 r\n7 fault 0x100000 r\n8 maps\n")?;
    Ok(trace)
}

#[test]
fn each_line_is_told_before_and_after(rt: HostRuntime) -> Result<(), Fail> {
    let trace = noted_trace(rt.alloc())?;
    let gate = Noting::new(rt.alloc(), LAST_LINE)?;
    let _sink = output_of_runs(&rt, rt.alloc(), "threads", trace.as_slice(), &gate, 3)?;
    assert_eq!(rt; gate.wrong.load(Ordering::SeqCst), 0);
    let mut reached = [0; 5];
    for line in 0..FIRST_FORK + 2 {
        let (before, after) = gate.times_of(line);
        let place = (line % 5) as usize;
        // A line of thread 0 has the place 3, a comment 0, and one of thread 3 the place 2.
        if line < FIRST_LINE || place == 0 {
            assert_eq!(rt; (before, after), (0, 0), "line {line}");
        } else {
            let named = match place {
                3 => reached[2],
                2 => reached[3],
                _ => 0,
            };
            assert!(rt;
                reached[place] < before && named < before && before < after,
                "line {line}"
            );
            reached[place] = after;
        }
    }
    // The children run once the parent is closed.
    let closed = reached.iter().fold(0, |latest, time| latest.max(*time));
    for lines in [
        [FIRST_FORK + 2, FIRST_FORK + 4],
        [FIRST_FORK + 3, FIRST_FORK + 5],
    ] {
        let mut reached = closed;
        for line in lines {
            let (before, after) = gate.times_of(line);
            assert!(rt; reached < before && before < after, "line {line}");
            reached = after;
        }
    }
    // In the mode `serial` no line is told.
    let gate = Noting::new(rt.alloc(), LAST_LINE)?;
    let _sink = output_of_runs(&rt, rt.alloc(), "serial", trace.as_slice(), &gate, 3)?;
    assert_eq!(rt; gate.time.load(Ordering::SeqCst), 1);
    Ok(())
}
