//! How many words of rows a store changes, which no clause tells: a node's next version is to go to a row that holds nearly its words.

use super::bench::{Bench, ROWS};
use super::row::span_of;
use mm_types::{NoMemory, Page, Row, Slot, Span};
use std::process::Abort;

/// How many areas the tree has: enough for three levels.
const AREAS: u32 = 300;

/// How often an area is taken out and put back.
const TURNS: u32 = 300;

/// Stores into the tree, publishes it, and frees the rows that it left.
fn step<R: Abort>(rt: &R, bench: &mut Bench, span: Span, slot: Option<Slot>) {
    assert!(rt; bench.store_and_publish(span, slot));
    bench.scan();
}

/// How many words of rows are not those that were seen last. These are seen now.
fn changes(bench: &Bench, seen: &mut Vec<[u64; 32]>) -> usize {
    let mut count: usize = 0;
    for row in 0..ROWS {
        if let (Some(before), Some(words)) = (seen.get_mut(row as usize), bench.words(Row(row))) {
            count = count.saturating_add(differences(before, &words));
            *before = words;
        }
    }
    count
}

/// How many words of two rows differ.
fn differences(one: &[u64; 32], other: &[u64; 32]) -> usize {
    let mut count: usize = 0;
    for place in 0..32 {
        if one[place] != other[place] {
            count = count.saturating_add(1);
        }
    }
    count
}

/// An area that is taken out or put back changes 40 words, or fewer, in three levels.
#[test]
fn a_store_changes_few_words(rt: HostRuntime) -> Result<(), NoMemory> {
    let mut bench = Bench::open(rt.alloc(), Page(10_000))?;
    let mut seen = vec![in rt.alloc(); [0; 32]; ROWS as usize]?;
    for area in 0..AREAS {
        step(&rt, &mut bench, span_of(area), Some(Slot(area)));
    }
    changes(&bench, &mut seen);
    let mut changed: usize = 0;
    for turn in 0..TURNS {
        let area = turn * 7919 % AREAS;
        for slot in [None, Some(Slot(area))] {
            step(&rt, &mut bench, span_of(area), slot);
            changed = changed.saturating_add(changes(&bench, &mut seen));
        }
    }
    assert_eq!(rt; bench.tree().height, 3);
    let most = TURNS as usize * 2 * 40;
    assert!(rt; changed <= most, "{changed} words");
    Ok(())
}
