//! What a child space begins with.
ghost use Rattle.std.specs.Prelude.{◌≡◌, ◌<◌, ◌≤◌, All, IfOk, length, map};
ghost use Rattle.history.specs.declared.callers.TheConstants.{MOST_THREADS};
ghost use Rattle.mm_fork.specs.Children.{as_inherited, inherited};

use history::MOST_THREADS;
use mm_types::{Entry, NoMemory};
use std::alloc::Global;

/// The entries that a child begins with that was forked at a version of a journal: the first so many, with callers from 64 on, which are
/// none of the child's. Fails only where memory runs out.
pub fn inherit(alloc: Global, journal: &[Entry], version: u64) -> Result<Vec<Entry>, NoMemory>
    requires within { version ≤ length journal.now }
    requires callers { All (λ entry. entry.caller < MOST_THREADS) journal.now }
    ensures { IfOk result (λ entries. entries.items ≡ inherited journal.now version) }
{
    entries_inherited(alloc, &journal[..version as usize])
}

/// Entries of a parent, as its child has them.
fn entries_inherited(alloc: Global, entries: &[Entry]) -> Result<Vec<Entry>, NoMemory>
    requires { All (λ entry. entry.caller < MOST_THREADS) entries.now }
    ensures { IfOk result (λ inherited. inherited.items ≡ map as_inherited entries.now) }
{
    let mut inherited = Vec::with_capacity(alloc, entries.len())?;
    for entry in entries {
        inherited.push(as_inherited(entry))?;
    }
    Ok(inherited)
}

/// An entry of a parent, as its child has it.
fn as_inherited(entry: &Entry) -> Entry
    requires { entry.now.caller < MOST_THREADS }
    ensures { result ≡ as_inherited entry.now }
{
    Entry {
        caller: entry.caller + MOST_THREADS as u32,
        call: entry.call,
        reply: entry.reply,
    }
}
