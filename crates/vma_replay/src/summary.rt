//! What a run did, in numbers.
ghost use Rattle.std.specs.Prelude.{◌≡◌, IfOk, count_by, length};
ghost use Rattle.history.specs.Runs.{content_of};
ghost use Rattle.area_rules.specs.Tables.{is_refusal};
ghost use Rattle.vma_replay.specs.Summaries.{is_fault, is_served, text_of_summary};
ghost use Rattle.vma_replay.specs.Internal.Tallies.{tally_of};

use mm_space::Closed;
use mm_types::{Entry, NoMemory, Reply, Seen, Verdict};
use std::alloc::Global;
use std::io::Write;

/// What a run did, in numbers.
#[derive(Clone, Copy, Debug, PartialEq, Eq)]
pub struct Summary {
    /// Calls, which are the entries of the journal.
    pub calls: usize,
    /// Calls whose reply is an error.
    pub refused: usize,
    /// Page faults.
    pub faults: usize,
    /// Page faults that an area served.
    pub served: usize,
    /// The version at the end, which counts the calls.
    pub version: usize,
    /// Areas in the final list.
    pub areas: usize,
}

impl Summary {
    /// The summary of a closed run by one caller.
    pub(crate) fn of(run: &Closed) -> Summary
        requires { length run.now.logs ≡ 1 }
        ensures { result ≡ tally_of run.now }
    {
        let journal = run.journal();
        let log = run.logs()[0].as_slice();
        Summary {
            calls: journal.len(),
            refused: count_refused(journal),
            faults: count_faults(log),
            served: count_served(log),
            version: journal.len(),
            areas: run.list().items().len(),
        }
    }

    /// Its text: six lines, each with a name and a number.
    #[tactic(auto, unfolding(crate::specs::Summaries::text_of_summary))]
    pub(crate) fn text(&self, alloc: Global) -> Result<Vec<u8>, NoMemory>
        ensures { IfOk result (λ text. text.items ≡ text_of_summary self.now) }
    {
        let Summary {
            calls,
            refused,
            faults,
            served,
            version,
            areas,
        } = *self;
        let mut text = Vec::new(alloc);
        write!(
            text,
            "calls {calls}\nrefused {refused}\nfaults {faults}\nserved {served}\nversion {version}\nareas {areas}\n"
        )
        .map_err(|_| NoMemory)?;
        Ok(text)
    }
}

/// How many calls of a journal were refused.
fn count_refused(journal: &[Entry]) -> usize
    ensures { result ≡ count_by (λ entry. is_refusal entry.reply) journal.now }
{
    journal
        .iter()
        .filter(|entry| matches!(entry.reply, Reply::Refused(_)))
        .count()
}

/// How many reads of a log are page faults.
fn count_faults(log: &[Seen]) -> usize
    ensures { result ≡ count_by (λ read. is_fault (content_of read)) log.now }
{
    log.iter()
        .filter(|read| matches!(read, Seen::Fault { .. }))
        .count()
}

/// How many reads of a log are page faults that an area served.
fn count_served(log: &[Seen]) -> usize
    ensures { result ≡ count_by (λ read. is_served (content_of read)) log.now }
{
    log.iter().filter(|read| is_served(read)).count()
}

/// Whether a read is a page fault that an area served.
fn is_served(read: &Seen) -> bool
    ensures { result ≡ is_served (content_of read.now) }
{
    match read {
        Seen::Fault { verdict, .. } => matches!(verdict, Verdict::Served { .. }),
        Seen::Maps { .. } => false,
    }
}
