//! The history of a journal and of the logs of its callers.
ghost use Rattle.std.specs.Prelude.{◌≡◌, ◌↔◌, ◌+◌, ◌<◌, ◌^◌, ◌++◌, ◌∷◌, [], IfOk, OnOk, IsTrue, AllPairs, length, map, true};
ghost use Rattle.area_rules.specs.Journals.{version_of};
ghost use Rattle.history.specs.Histories.{goes_first, gather};
ghost use Rattle.history.specs.Runs.{entry_items, read_item, log_items, logs_items, history_of};

use crate::items::{Content, History, Item};
use crate::ordering::put_in_order;
use mm_types::{AreaList, Entry, NoMemory, Seen};
use std::alloc::Global;

/// The history of a journal and of the logs of the callers from 0 on, in time linear in both where the reads of the logs, one log after the
/// other, are in the order of a history. Fails only where memory runs out.
pub fn gather(alloc: Global, journal: &[Entry], logs: &[Vec<Seen>]) -> Result<History, NoMemory>
    requires { length logs.now < 2 ^ 32 }
    ensures { IfOk result (λ history. history ≡ history_of journal.now (map (λ log. log.items) logs.now)) }
{
    let mut reads = read_logs(alloc, logs)?;
    put_in_order(&mut reads)?;
    let items = merged(alloc, journal, reads)?;
    Ok(History::of(items))
}

/// The items of the history of a journal and one log. Reads that are in order are copied once; others are put in order first.
pub(crate) fn gather_one(
    alloc: Global,
    journal: &[Entry],
    log: &[Seen],
) -> Result<Vec<Item>, NoMemory>
    ensures { IfOk result (λ items. items.items ≡ history_of journal.now (log.now ∷ [])) }
{
    if is_in_order(log) {
        return merged_log(alloc, journal, log);
    }
    let mut reads = Vec::new(alloc);
    push_log(alloc, &mut reads, 0, log)?;
    put_in_order(&mut reads)?;
    let items = merged(alloc, journal, reads)?;
    Ok(items)
}

/// Whether the reads of one log are in the order of a history: their versions do not fall.
pub(crate) fn is_in_order(log: &[Seen]) -> bool
    ensures { IsTrue result ↔ AllPairs (λ a b. goes_first a b ≡ true) (log_items 0 log.now) }
{
    let mut last = 0;
    for read in log {
        let now = version_of(read);
        if now < last {
            return false;
        }
        last = now;
    }
    true
}

/// The version of a read.
pub(crate) fn version_of(read: &Seen) -> u64
    ensures { result ≡ version_of read.now }
{
    match read {
        Seen::Fault { version, .. } | Seen::Maps { version, .. } => *version,
    }
}

/// The items of a journal and of one log whose reads are in order, in the order of a history.
fn merged_log(alloc: Global, journal: &[Entry], log: &[Seen]) -> Result<Vec<Item>, NoMemory>
    requires { AllPairs (λ a b. goes_first a b ≡ true) (log_items 0 log.now) }
    ensures { IfOk result (λ items. items.items ≡ history_of journal.now (log.now ∷ [])) }
{
    let mut items = Vec::with_capacity(alloc, journal.len().saturating_add(log.len()))?;
    let mut next = 0;
    for read in log {
        let upto = (version_of(read) as usize).min(journal.len());
        push_entries(&mut items, next as u64, &journal[next..upto])?;
        next = upto;
        items.push(item_of(alloc, 0, read)?)?;
    }
    push_entries(&mut items, next as u64, &journal[next..])?;
    Ok(items)
}

/// The items of logs, one log after the other.
fn read_logs(alloc: Global, logs: &[Vec<Seen>]) -> Result<Vec<Item>, NoMemory>
    requires { length logs.now < 2 ^ 32 }
    ensures { IfOk result (λ items. items.items ≡ logs_items 0 (map (λ log. log.items) logs.now)) }
{
    let mut items = Vec::new(alloc);
    for (caller, log) in logs.iter().enumerate() {
        push_log(alloc, &mut items, caller as u32, log.as_slice())?;
    }
    Ok(items)
}

/// Appends the items of a caller's log.
fn push_log(alloc: Global, items: &mut Vec<Item>, caller: u32, log: &[Seen]) -> Result<(), NoMemory>
    ensures { OnOk result (items.new.items ≡ items.old.items ++ log_items caller log.now) }
{
    items.reserve(log.len())?;
    for read in log {
        items.push(item_of(alloc, caller, read)?)?;
    }
    Ok(())
}

/// The item of a caller's read, with a copy of the list that was read.
fn item_of(alloc: Global, caller: u32, read: &Seen) -> Result<Item, NoMemory>
    ensures { IfOk result (λ item. item ≡ read_item caller read.now) }
{
    match read {
        Seen::Fault {
            version,
            page,
            access,
            verdict,
        } => Ok(Item {
            caller,
            version: *version,
            content: Content::Fault {
                page: *page,
                access: *access,
                verdict: *verdict,
            },
        }),
        Seen::Maps { version, list } => {
            let areas = list.items().to_vec(alloc)?;
            Ok(Item {
                caller,
                version: *version,
                content: Content::List(AreaList::of(areas)),
            })
        }
    }
}

/// The items of a journal and of reads that are in order, in the order of a history: before each read the entries up to its version.
fn merged(alloc: Global, journal: &[Entry], reads: Vec<Item>) -> Result<Vec<Item>, NoMemory>
    requires { AllPairs (λ a b. goes_first a b ≡ true) reads.items }
    ensures { IfOk result (λ items. items.items ≡ gather (entry_items 0 journal.now ++ reads.items)) }
{
    let mut items = Vec::with_capacity(alloc, journal.len().saturating_add(reads.len()))?;
    let mut next = 0;
    for read in reads {
        let upto = (read.version as usize).min(journal.len());
        push_entries(&mut items, next as u64, &journal[next..upto])?;
        next = upto;
        items.push(read)?;
    }
    push_entries(&mut items, next as u64, &journal[next..])?;
    Ok(items)
}

/// Appends the items of entries that go on from a version.
fn push_entries(items: &mut Vec<Item>, version: u64, entries: &[Entry]) -> Result<(), NoMemory>
    requires { version + length entries.now < 2 ^ 64 }
    ensures { OnOk result (items.new.items ≡ items.old.items ++ entry_items version entries.now) }
{
    for (place, entry) in entries.iter().enumerate() {
        items.push(Item {
            caller: entry.caller,
            version: version + place as u64 + 1,
            content: Content::Called(entry.call, entry.reply),
        })?;
    }
    Ok(())
}
