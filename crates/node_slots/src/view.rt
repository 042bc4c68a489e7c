use grace_core::Clearing;
use maple_node::Root;
use std::collections::LinkedList;
use std::marker::Model;

/// How large a table is.
#[derive(Clone, Copy, Debug, PartialEq, Eq)]
pub struct Size {
    /// How many rows it has, from 1 to 2^20.
    pub rows: u32,
    /// The number of slots: its trees pair only slots below it.
    pub slots: u32,
    /// How many readers it has, from 1 to 64.
    pub readers: u32,
}

/// What a seat is for.
pub enum NodeSeatKind {
    /// It reads trees.
    Reads,
    /// It publishes trees.
    Writes,
    /// It was joined into another.
    Spent,
}

/// A tree as its publish showed it: its root, and the words that all rows had then.
pub struct ShownTree {
    pub root: Root,
    pub words: LinkedList<LinkedList<u64>>,
}

/// A tree as the grace protocol has it.
pub struct SeenTree {
    number: u64,
    rows: LinkedList<u64>,
    words: LinkedList<LinkedList<u64>>,
}

impl Model for SeenTree {
    ghost use Rattle.grace_core.specs.Core.{GraceTreeView};

    ghost Value = { GraceTreeView };

    ghost view = { λ tree. record { number = tree.number; rows = tree.rows; words = tree.words } };
}

/// What the writer knows of the grace protocol.
pub struct SeenWriterState {
    width: u64,
    tree: SeenTree,
    words: LinkedList<LinkedList<u64>>,
    since: LinkedList<u64>,
    clearings: LinkedList<Clearing>,
    passed: u64,
}

impl Model for SeenWriterState {
    ghost use Rattle.grace_core.specs.Core.{WriterState};

    ghost Value = { WriterState };

    ghost view = { λ writer_state. record {
      width = writer_state.width;
      tree = writer_state.tree;
      words = writer_state.words;
      since = writer_state.since;
      clearings = writer_state.clearings;
      passed = writer_state.passed;
    } };
}

/// What the writer knows of the table, which nobody else changes.
pub struct Known {
    /// The root of the present tree.
    pub root: Root,
    pub writer_state: SeenWriterState,
    /// How many readers were made.
    pub made: u32,
}

/// What a seat knows. No value of it is made: it stands in contracts alone.
pub struct NodeView {
    pub size: Size,
    pub kind: NodeSeatKind,
    /// Which reader it is.
    pub reader: u32,
    pub pin: u64,
    /// The tree whose root it loaded last since it opened.
    pub snapshot: Option<ShownTree>,
    /// The tree whose root it loaded last, also after it closed.
    pub last: Option<ShownTree>,
    /// How many roots it loaded.
    pub walks: u64,
    /// How many words of rows it loaded.
    pub words: u64,
    /// How many seats were joined into it.
    pub joins: u64,
    pub known: Known,
    /// How many pins the writer loaded.
    pub scans: u64,
}
