ghost use Rattle.std.specs.Prelude.{◌≡◌, ◌↔◌, IsTrue, IsSomeAnd};
ghost use Rattle.history.specs.Histories.{is_call, read_as, asks_for, op_asked};

use crate::same::same_call;
use mm_types::{Access, AreaList, Call, Page, Reply, Verdict};
use std::marker::Model;
use trace_reader::{Op, TraceLine};

/// What happened: a call with its reply, a fault with its verdict, or a read of the list of areas.
#[derive(Debug, Drop)]
pub enum Content {
    Called(Call, Reply),
    Fault {
        page: Page,
        access: Access,
        verdict: Verdict,
    },
    List(AreaList),
}

/// One item of a history: who did it, its version, and what happened.
#[derive(Debug, Drop)]
pub struct Item {
    pub caller: u32,
    pub version: u64,
    pub content: Content,
}

impl Item {
    /// Whether it is a call, and so an entry of the journal.
    pub fn is_call(&self) -> bool
        ensures { result ≡ is_call self.now.content }
    {
        match self.content {
            Content::Called(_, _) => true,
            Content::Fault { .. } | Content::List(_) => false,
        }
    }

    /// Whether there is a line, and it asks for this.
    pub(crate) fn answers(&self, line: Option<TraceLine>) -> bool
        ensures { IsTrue result ↔ IsSomeAnd line (λ line. read_as line.op ≡ op_asked self.now.content) }
    {
        match line {
            Some(line) => self.content.is_asked(&line.op),
            None => false,
        }
    }
}

impl Content {
    /// Whether an operation asks for this.
    fn is_asked(&self, op: &Op) -> bool
        ensures { IsTrue result ↔ (read_as op.now ≡ op_asked self.now) }
    {
        match self {
            Content::Called(call, _) => asks_for(op, call),
            Content::Fault { page, access, .. } => is_fault(op, *page, *access),
            Content::List(_) => matches!(op, Op::Maps | Op::Fork { .. }),
        }
    }
}

/// Whether an operation asks for a call: a touch of a page is asked for by a fault.
#[tactic(auto, unfolding(crate::specs::Histories::asks_for))]
fn asks_for(op: &Op, call: &Call) -> bool
    ensures { IsTrue result ↔ (read_as op.now ≡ asks_for call.now) }
{
    match (op, call) {
        (_, Call::Touch { page, access }) => is_fault(op, *page, *access),
        (Op::Call(wanted), _) => same_call(wanted, call),
        _ => false,
    }
}

/// Whether an operation is this fault.
fn is_fault(op: &Op, page: Page, access: Access) -> bool
    ensures { IsTrue result ↔ (read_as op.now ≡ Op.Fault page access) }
{
    match op {
        Op::Fault {
            page: wanted,
            access: made,
        } => *wanted == page && *made == access,
        Op::Call(_) | Op::Maps | Op::Fork { .. } => false,
    }
}

/// A history, seen by contracts as a list of items.
#[derive(Debug, Drop)]
pub struct History {
    items: Vec<Item>,
}

impl Model for History {
    ghost use Rattle.std.specs.Prelude.{List};
    ghost use Rattle.history.specs.declared.items.Item.{Item};

    ghost Value = { List Item };

    ghost view = { λ h. h.items.items };
}

impl History {
    /// Owns the items, in this order.
    pub fn of(items: Vec<Item>) -> History
        ensures { result ≡ items.items }
    {
        History { items }
    }

    /// Shows the items.
    pub fn items(&self) -> &[Item]
        ensures { result.now ≡ self.now }
    {
        self.items.as_slice()
    }
}
