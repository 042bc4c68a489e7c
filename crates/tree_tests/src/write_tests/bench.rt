//! A tree in a table of its own, with the table's writer.
ghost use Rattle.std.specs.Prelude.{◌≡◌, ◌<◌, ◌≤◌, ◌+◌, ◌*◌, true, length};
ghost use Rattle.maple_node.specs.Words.{slot_word};
ghost use Rattle.node_slots.specs.Seats.{WritesNodeTable, free_of};

use maple_write::{publish_tree, store};
use mm_types::{NoMemory, Page, Row, Slot, Span};
use node_slots::{MayCount, NodeTable, NodeWriter, Tree};
use std::alloc::Global;
use std::marker::Model;

/// How many rows the table has. A tree of 1,500 pages has fewer than 400.
pub(super) const ROWS: u32 = 4096;

/// The number of slots.
const SLOTS: u32 = 4096;

/// How many trees are published at most.
const TREES: u64 = 1000;

/// A tree that the writer builds in a table.
#[derive(Drop)]
pub(super) struct Bench {
    nodes: NodeTable,
    writer: NodeWriter,
    tree: Tree,
    /// The number of the present tree.
    published: u64,
    /// With it a count of the rows that are read is begun, which nobody looks at here.
    may: MayCount,
}

impl Model for Bench {
    ghost use Rattle.node_slots.specs.declared.tree.Tree.{Tree};

    ghost Value = { Tree };

    ghost use Rattle.tree_tests.specs.Benches.{IsBench};

    ghost view = { λ bench. bench.tree };

    ghost invariant = { λ bench. IsBench bench.nodes bench.writer bench.tree bench.published };
}

impl Bench {
    /// Tree 0, whose pages are to end at a limit.
    pub(super) fn open(alloc: Global, limit: Page) -> Result<Bench, NoMemory>
        requires { 0 < limit.0 }
    {
        let (nodes, mut writer, _seats) = NodeTable::new(alloc, ROWS, SLOTS, 1)?;
        let may = writer.may_count();
        Ok(Bench {
            nodes,
            writer,
            tree: Tree::new(limit),
            published: 0,
            may,
        })
    }

    /// The root's row, the height and the limit of the tree that is built.
    pub(super) fn tree(&self) -> Tree
        ensures { result ≡ self.now }
    {
        self.tree
    }

    /// Stores into the tree. False where nothing may change: where the span is empty, the span or the slot is none that a store
    /// takes, or too few rows are free.
    pub(super) fn store(&mut self, span: Span, slot: Option<Slot>) -> bool {
        if !is_ready(&self.nodes, &self.writer, &self.tree, span, slot) {
            return false;
        }
        store(
            &self.nodes,
            &mut self.writer,
            self.may,
            &mut self.tree,
            span,
            slot,
        );
        span.lo < span.hi
    }

    /// Stores into the tree and publishes it. False, with nothing stored, where a store would change nothing, or the tree may be
    /// too high after it, or enough trees were published.
    pub(super) fn store_and_publish(&mut self, span: Span, slot: Option<Slot>) -> bool {
        let ready = is_ready(&self.nodes, &self.writer, &self.tree, span, slot);
        let changes = ready && span.lo < span.hi;
        if !changes || self.tree.height > 8 || self.published >= TREES {
            return false;
        }
        store(
            &self.nodes,
            &mut self.writer,
            self.may,
            &mut self.tree,
            span,
            slot,
        );
        publish_tree(&self.nodes, &mut self.writer, &self.tree);
        self.published += 1;
        true
    }

    /// Frees the rows that were left and that no reader may read any more.
    pub(super) fn scan(&mut self) {
        self.nodes.scan(&mut self.writer);
    }

    /// The words of a row, or none where the table has no such row.
    pub(super) fn words(&self, row: Row) -> Option<[u64; 32]> {
        if row.0 >= ROWS {
            return None;
        }
        let words = self.nodes.written(&self.writer, row, &mut self.may.begin());
        Some(*words)
    }
}

/// Whether a store may be made: enough rows are free, the span ends at the limit or below it, and the slot is one of the table's.
fn is_ready(
    nodes: &NodeTable,
    writer: &NodeWriter,
    tree: &Tree,
    span: Span,
    slot: Option<Slot>,
) -> bool
    requires { WritesNodeTable writer.now nodes.now }
    ensures free { result ≡ true → 4 * tree.now.height + 4 ≤ length (free_of writer.now) }
    ensures span { result ≡ true → span.hi ≤ tree.now.limit.0 }
    ensures slot { result ≡ true → slot_word slot ≤ 4096 }
{
    let free = u64::from(nodes.free_rows(writer));
    let enough = u64::from(tree.height) * 4 + 4 <= free;
    enough && span.hi <= tree.limit.0 && slot.is_none_or(|slot| slot.0 < SLOTS)
}
