//! The history of a child.
ghost use Rattle.std.specs.Prelude.{◌≡◌, ◌<◌, ◌≤◌, ◌^◌, All, IfOk, length, map};
ghost use Rattle.area_rules.specs.Journals.{version_of};
ghost use Rattle.mm_fork.specs.Behind.{unshifted, log_behind};
ghost use Rattle.mm_fork.specs.Children.{child_history_of};

use history::{History, gather};
use mm_types::{AreaList, Entry, NoMemory, Seen};
use std::alloc::Global;

/// The history of a child that was forked at a version, by its journal, which begins with the entries that it inherited, and the logs of
/// its callers: what was done behind those entries, with versions counted from there. Fails only where memory runs out.
pub fn child_history(
    alloc: Global,
    version: u64,
    journal: &[Entry],
    logs: &[Vec<Seen>],
) -> Result<History, NoMemory>
    requires few { length logs.now < 2 ^ 32 }
    requires within { version ≤ length journal.now }
    requires later { All (λ log. All (λ read. version ≤ version_of read) log.items) logs.now }
    ensures { IfOk result (λ history. history ≡ child_history_of version journal.now (map (λ log. log.items) logs.now)) }
{
    let logs = logs_behind(alloc, version, logs)?;
    gather(alloc, &journal[version as usize..], logs.as_slice())
}

/// Logs whose versions count from behind so many entries.
fn logs_behind(alloc: Global, version: u64, logs: &[Vec<Seen>]) -> Result<Vec<Vec<Seen>>, NoMemory>
    requires { All (λ log. All (λ read. version ≤ version_of read) log.items) logs.now }
    ensures { IfOk result (λ behind. map (λ log. log.items) behind.items ≡ map (log_behind version) (map (λ log. log.items) logs.now)) }
{
    let mut behind = Vec::with_capacity(alloc, logs.len())?;
    for log in logs {
        behind.push(log_behind(alloc, version, log.as_slice())?)?;
    }
    Ok(behind)
}

/// A log whose versions count from behind so many entries.
fn log_behind(alloc: Global, version: u64, log: &[Seen]) -> Result<Vec<Seen>, NoMemory>
    requires { All (λ read. version ≤ version_of read) log.now }
    ensures { IfOk result (λ behind. behind.items ≡ log_behind version log.now) }
{
    let mut behind = Vec::with_capacity(alloc, log.len())?;
    for read in log {
        behind.push(read_behind(alloc, version, read)?)?;
    }
    Ok(behind)
}

/// A read whose version counts from behind so many entries, with a copy of the list that was read.
fn read_behind(alloc: Global, start: u64, read: &Seen) -> Result<Seen, NoMemory>
    requires { start ≤ version_of read.now }
    ensures { IfOk result (λ behind. behind ≡ unshifted start read.now) }
{
    match read {
        Seen::Fault {
            version,
            page,
            access,
            verdict,
        } => Ok(Seen::Fault {
            version: *version - start,
            page: *page,
            access: *access,
            verdict: *verdict,
        }),
        Seen::Maps { version, list } => {
            let areas = list.items().to_vec(alloc)?;
            Ok(Seen::Maps {
                version: *version - start,
                list: AreaList::of(areas),
            })
        }
    }
}
