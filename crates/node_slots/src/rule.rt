ghost use Rattle.node_slots.specs.Rule.{ShowsGrace};
ghost use Rattle.node_slots.specs.Plays.{opened, loaded, word_read, closed, fill_tells, shown_now, pin_found};
ghost use Rattle.node_slots.specs.Views.{opened_node_view, spent_node_view, after_node_reader, new_node_reader, node_joined_at};

use crate::view::{NodeView, Size};
use atomic_table::{Join, Play, Split, TableRule};

/// The rule of the table.
pub(crate) struct GraceRule;

impl TableRule<(), NodeView, Size> for GraceRule {
    ghost holds = { ShowsGrace };

    ghost first = { λ size. opened_node_view size 0 };
}

/// A reader opens.
pub(crate) struct Opened;

impl Play<(), NodeView> for Opened {
    ghost then = { opened };
}

/// A root is loaded.
pub(crate) struct Loaded;

impl Play<(), NodeView> for Loaded {
    ghost then = { loaded };
}

/// A word of a row is loaded.
pub(crate) struct WordRead;

impl Play<(), NodeView> for WordRead {
    ghost then = { word_read };
}

/// A reader closes.
pub(crate) struct ReaderClosed;

impl Play<(), NodeView> for ReaderClosed {
    ghost then = { closed };
}

/// A word of a row is stored.
pub(crate) struct Stored;

impl Play<(), NodeView> for Stored {
    ghost then = { fill_tells };
}

/// A tree is published.
pub(crate) struct Published;

impl Play<(), NodeView> for Published {
    ghost then = { shown_now };
}

/// A pin is loaded.
pub(crate) struct Scanned;

impl Play<(), NodeView> for Scanned {
    ghost then = { pin_found };
}

/// The writer makes a reader.
pub(crate) struct NewReader;

impl Split<NodeView> for NewReader {
    ghost left = { after_node_reader };

    ghost right = { new_node_reader };
}

/// A reader is joined into another.
pub(crate) struct Joined;

impl Join<NodeView> for Joined {
    ghost both = { λ view _. node_joined_at view };

    ghost spent = { spent_node_view };
}
