//! The history of a trace that one caller ran, as the history of the callers of its lines.
ghost use Rattle.std.specs.Prelude.{◌≡◌, ◌<◌, ◌≤◌, ◌^◌, ◌++◌, [], All, AllPairs, IfOk, IsOk, OnOk, true};
ghost use Rattle.history.specs.Histories.{goes_first, gather};
ghost use Rattle.history.specs.Runs.{time_key};
ghost use Rattle.history.specs.Labels.{labelled, label_of};
ghost use Rattle.history.specs.Parents.{parent_lines};
ghost use Rattle.trace_reader.specs.Values.{IsTraceValue};

use crate::callers::Callers;
use crate::gathering::gather_one;
use crate::items::{History, Item};
use crate::ordering::{are_in_order, put_in_order};
use crate::space_lines::SpaceLines;
use mm_types::{Entry, NoMemory, Seen};
use std::alloc::Global;
use trace_reader::Trace;

/// The history of a journal and one log, where each item has the caller of the parent's line that stands with it, in time linear in
/// the lines, but for reads between two calls that are not in the order of callers. Fails only where memory runs out.
pub fn label(
    alloc: Global,
    trace: &Trace,
    journal: &[Entry],
    log: &[Seen],
) -> Result<History, NoMemory>
    requires { IsTraceValue trace.now }
    ensures { IfOk result (λ history. history ≡ label_of (parent_lines trace.now.lines) journal.now log.now) }
{
    let lines = SpaceLines::parent_of(alloc, trace)?;
    label_space(alloc, &lines, journal, log)
}

/// The same, by the lines of a space.
pub fn label_space(
    alloc: Global,
    lines: &SpaceLines<'_>,
    journal: &[Entry],
    log: &[Seen],
) -> Result<History, NoMemory>
    ensures { IfOk result (λ history. history ≡ label_of lines.now journal.now log.now) }
{
    let mut items = gather_one(alloc, journal, log)?;
    give_callers(&mut items, lines);
    let items = in_order(alloc, items)?;
    Ok(History::of(items))
}

/// Gives each item the caller of the line that stands with it, and drops items that have no line.
fn give_callers(items: &mut Vec<Item>, lines: &SpaceLines<'_>)
    ensures given { items.new.items ≡ labelled lines.now lines.now items.old.items }
    ensures small { All (λ item. item.caller < 2 ^ 32) items.new.items }
{
    let callers = Callers::of(lines);
    let lines = lines.items();
    let count = lines.len().min(items.len());
    for place in 0..count {
        items[place].caller = callers.caller(lines[place].thread);
    }
    items.truncate(count);
}

/// Items that are in order but for the callers of reads, in the order of a history. The reads between two calls are put in order alone; where
/// all are in order, no memory is taken.
fn in_order(alloc: Global, items: Vec<Item>) -> Result<Vec<Item>, NoMemory>
    requires time { AllPairs (λ a b. time_key a ≤ time_key b) items.items }
    requires callers { All (λ item. item.caller < 2 ^ 32) items.items }
    ensures order { IfOk result (λ sorted. sorted.items ≡ gather items.items) }
    ensures at_once { AllPairs (λ a b. goes_first a b ≡ true) items.items → IsOk result }
{
    if are_in_order(items.as_slice()) {
        return Ok(items);
    }
    let mut done = Vec::with_capacity(alloc, items.len())?;
    let mut reads = Vec::new(alloc);
    for item in items {
        if item.is_call() {
            push_reads(&mut done, &mut reads)?;
            done.push(item)?;
        } else {
            reads.push(item)?;
        }
    }
    push_reads(&mut done, &mut reads)?;
    Ok(done)
}

/// Appends reads in the order of a history, and forgets them.
fn push_reads(done: &mut Vec<Item>, reads: &mut Vec<Item>) -> Result<(), NoMemory>
    requires { All (λ item. item.caller < 2 ^ 32) reads.old.items }
    ensures done { OnOk result (done.new.items ≡ done.old.items ++ gather reads.old.items) }
    ensures reads { OnOk result (reads.new.items ≡ []) }
{
    put_in_order(reads)?;
    done.append(reads)?;
    Ok(())
}
