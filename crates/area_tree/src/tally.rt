//! Scans of the pins of readers, each of which is noted.
ghost use Rattle.std.specs.Prelude.{◌≡◌, ◌≤◌, ◌++◌, ◌∷◌, [], length};
ghost use Rattle.node_slots.specs.Seats.{WritesNodeTable, free_of, pins_of, AreOut};
ghost use Rattle.area_tree.specs.Rows.{Scans, IsScanned, AreHeld, NoneWaits};

use node_slots::{NodeTable, NodeWriter};
use std::marker::Model;
use std::mem;
use std::snapshot::Snapshot;

/// What was noted of scans: each note remembers those before.
#[derive(Drop)]
enum Notes {
    Nothing,
    Found(Snapshot<Notes>, usize),
}

/// How many rows were free before each scan, or what else was counted that it was for, in order. Contracts see the numbers, and it has no
/// bytes at run time. Only `scan_once` notes one.
#[derive(Drop)]
pub(crate) struct Tally {
    notes: Snapshot<Notes>,
}

impl Model for Tally {
    ghost use Rattle.std.specs.Prelude.{ℕ, List};
    ghost use Rattle.area_tree.specs.Tallies.{noted_counts};

    ghost Value = { List ℕ };

    ghost view = { λ tally. noted_counts tally.notes.value };
}

impl Tally {
    /// No scan.
    pub(crate) fn new() -> Tally
        ensures { result ≡ [] }
    {
        Tally {
            notes: Snapshot::of(&Notes::Nothing),
        }
    }

    /// Notes what was counted before a scan.
    fn note(&mut self, count: usize)
        ensures { self.new ≡ self.old ++ count ∷ [] }
    {
        let before = mem::replace(&mut self.notes, Snapshot::of(&Notes::Nothing));
        self.notes = Snapshot::of(&Notes::Found(before, count));
    }
}

/// Looks at the pin of each reader once. Each row is free then that no reader may read any more; once it finds every reader closed,
/// no row waits. What was counted before is noted.
pub(crate) fn scan_once(nodes: &NodeTable, writer: &mut NodeWriter, tally: &mut Tally, count: usize)
    requires table { WritesNodeTable writer.old nodes.now }
    ensures table { WritesNodeTable writer.new nodes.now }
    ensures scans { Scans writer.old writer.new }
    ensures scanned { IsScanned writer.old writer.new }
    ensures noted { tally.new ≡ tally.old ++ count ∷ [] }
    ensures more { length (free_of writer.old) ≤ length (free_of writer.new) }
    ensures held { AreHeld writer.new }
    ensures gone { AreOut (pins_of writer.new) → NoneWaits writer.new }
{
    tally.note(count);
    nodes.scan(writer);
}
