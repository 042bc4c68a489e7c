//! The callers of a trace.
ghost use Rattle.std.specs.Prelude.{◌≡◌, ◌<◌, ◌≤◌, All, List, length};
ghost use Rattle.trace_reader.specs.declared.trace.TraceLine.{TraceLine};
ghost use Rattle.history.specs.Histories.{caller_of, lines_of};
ghost use Rattle.history.specs.SpaceLines.{AreSpaceLines};
ghost use Rattle.history.specs.Threads.{counts_below, busy_below, AreCallers};

use crate::space_lines::SpaceLines;
use std::marker::Model;

/// How many threads a trace can have: their numbers are below it.
pub const MOST_THREADS: usize = 64;

/// The callers of a trace, which are its threads by ascending number, seen by contracts as the list of how many lines each of the 64
/// threads has.
#[derive(Debug, Drop)]
pub struct Callers {
    counts: [u64; MOST_THREADS],
    /// The caller that each thread is.
    callers: [u32; MOST_THREADS],
}

impl Model for Callers {
    ghost use Rattle.std.specs.Prelude.{ℕ, List};

    ghost Value = { List ℕ };

    ghost view = { λ c. c.counts };

    ghost use Rattle.history.specs.Threads.{AreCallers};

    ghost invariant = { λ c. AreCallers c.counts c.callers };
}

impl Callers {
    /// The callers of these lines, found in one pass over them.
    pub fn of(lines: &SpaceLines<'_>) -> Callers
        ensures counted { result ≡ counts_below MOST_THREADS lines.now }
        ensures kept { AreSpaceLines lines.now }
    {
        let lines = lines.items();
        let mut counts = [0; MOST_THREADS];
        for line in lines {
            counts[line.thread as usize] += 1;
        }
        let callers = callers_by_thread(&counts);
        Callers { counts, callers }
    }

    /// How many callers there are: the threads that have a line.
    pub fn count(&self) -> usize
        ensures count { (lines : List TraceLine) → self.now ≡ counts_below MOST_THREADS lines → result ≡ caller_of lines MOST_THREADS }
        ensures few { result ≤ MOST_THREADS }
    {
        busy_below(&self.counts, MOST_THREADS)
    }

    /// The caller that a thread is: how many lower threads have a line.
    pub fn caller(&self, thread: u32) -> u32
        requires { thread < MOST_THREADS }
        ensures caller { (lines : List TraceLine) → self.now ≡ counts_below MOST_THREADS lines → result ≡ caller_of lines thread }
        ensures few { result ≤ thread }
    {
        self.callers[thread as usize]
    }

    /// How many lines a caller has; none, past the last caller.
    pub fn lines(&self, caller: usize) -> u64
        ensures { (lines : List TraceLine) → All (λ line. line.thread < MOST_THREADS) lines
            → self.now ≡ counts_below MOST_THREADS lines → result ≡ length (lines_of lines caller) }
    {
        lines_at(&self.counts, caller)
    }
}

/// How many of the threads below this one have a line.
fn busy_below(counts: &[u64; MOST_THREADS], thread: usize) -> usize
    requires { thread ≤ MOST_THREADS }
    ensures count { result ≡ busy_below thread counts.now }
    ensures few { result ≤ thread }
{
    counts[..thread].iter().filter(|count| **count > 0).count()
}

/// The caller that each thread is.
fn callers_by_thread(counts: &[u64; MOST_THREADS]) -> [u32; MOST_THREADS]
    ensures { AreCallers counts.now result }
{
    let mut callers = [0; MOST_THREADS];
    for thread in 0..MOST_THREADS {
        callers[thread] = busy_below(counts, thread) as u32;
    }
    callers
}

/// How many lines a caller has: of the counts that are not 0, the one with so many before it; 0 where there are not so many.
fn lines_at(counts: &[u64], caller: usize) -> u64
    ensures { (lines : List TraceLine) → All (λ line. line.thread < MOST_THREADS) lines
        → counts.now ≡ counts_below MOST_THREADS lines → result ≡ length (lines_of lines caller) }
{
    let mut before = 0;
    for count in counts {
        if *count > 0 {
            if before == caller {
                return *count;
            }
            before += 1;
        }
    }
    0
}
