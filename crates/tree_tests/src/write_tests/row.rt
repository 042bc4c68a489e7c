//! Seventeen areas of one page, and none.
use super::bench::Bench;
use super::layout::{Entry, check_tree};
use mm_types::{NoMemory, Page, Slot, Span};
use std::alloc::Global;

/// How many areas there are. The first has page 16, and each other the page two after the one before.
const AREAS: u32 = 17;

/// How many pages a process has: 2^47 bytes, less the last page of them.
const LIMIT: u64 = 0x7_ffff_ffff;

/// The page of an area.
pub(super) fn span_of(number: u32) -> Span {
    let lo = 16 + 2 * u64::from(number);
    Span { lo, hi: lo + 1 }
}

/// The areas with the gap before each, and the gap up to the limit.
fn wanted_entries(alloc: Global) -> Result<Vec<Entry>, NoMemory> {
    let mut entries = Vec::new(alloc);
    let mut start = 0;
    for number in 0..AREAS {
        let span = span_of(number);
        entries.push(Entry {
            start,
            end: span.lo,
            slot: None,
        })?;
        entries.push(Entry {
            start: span.lo,
            end: span.hi,
            slot: Some(Slot(number)),
        })?;
        start = span.hi;
    }
    entries.push(Entry {
        start,
        end: LIMIT,
        slot: None,
    })?;
    Ok(entries)
}

/// Areas that do not touch have a gap before each, and two leaves have them. A gap in the place of all of them takes in the gaps
/// on both sides, and one leaf is left.
#[test]
fn areas_apart_and_none(rt: HostRuntime) -> Result<(), NoMemory> {
    let mut bench = Bench::open(rt.alloc(), Page(LIMIT))?;
    for number in 0..AREAS {
        assert!(rt; bench.store(span_of(number), Some(Slot(number))));
    }
    let entries = check_tree(&rt, rt.alloc(), &bench)?;
    let wanted = wanted_entries(rt.alloc())?;
    assert_eq!(rt; (entries.len(), bench.tree().height), (35, 2));
    assert_eq!(rt; entries.as_slice(), wanted.as_slice());
    assert!(rt; bench.store(Span { lo: 16, hi: 49 }, None));
    let entries = check_tree(&rt, rt.alloc(), &bench)?;
    let gap = Entry {
        start: 0,
        end: LIMIT,
        slot: None,
    };
    assert_eq!(rt; entries.as_slice(), [gap].as_slice());
    assert_eq!(rt; bench.tree().height, 1);
    Ok(())
}
