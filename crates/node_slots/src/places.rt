//! Where the words of a table stand: the root word is the first, and it and the pins are a cache line apart.
ghost use Rattle.std.specs.Prelude.{◌≡◌, ◌<◌};
ghost use Rattle.node_slots.specs.Places.{pin_place, row_place, word_place};

use maple_node::NODE_WORDS;
use mm_types::Row;

/// The words of a cache line, which has 64 bytes.
const LINE: usize = 8;

/// The place of a reader's pin.
pub(crate) fn pin_place(reader: u32) -> usize
    ensures { result ≡ pin_place reader }
{
    (reader as usize + 1) * LINE
}

/// The place of a row's first word, in a table of so many readers: the rows stand after the last pin.
fn row_place(readers: u32, row: u32) -> usize
    ensures { result ≡ row_place readers row }
{
    pin_place(readers) + row as usize * NODE_WORDS
}

/// The place of a word of a row.
pub(crate) fn word_place(readers: u32, row: Row, place: usize) -> usize
    requires { place < 32 }
    ensures { result ≡ word_place readers row.0 place }
{
    row_place(readers, row.0) + place
}

/// How many words a table of so many rows and readers has.
pub(crate) fn word_count(rows: u32, readers: u32) -> usize
    ensures { result ≡ row_place readers rows }
{
    row_place(readers, rows)
}
