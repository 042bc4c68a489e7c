ghost use Rattle.std.specs.Prelude.{◌≡◌};

use mm_types::Row;
use std::marker::Model;

/// A list of rows, seen by contracts as one.
#[derive(Debug, Drop)]
pub struct Rows {
    items: Vec<Row>,
}

impl Model for Rows {
    ghost use Rattle.std.specs.Prelude.{List};
    ghost use Rattle.mm_types.specs.declared.slot.Row.{Row};

    ghost Value = { List Row };

    ghost view = { λ rows. rows.items.items };
}

impl Rows {
    /// Owns the rows, in this order.
    pub fn of(items: Vec<Row>) -> Rows
        ensures { result ≡ items.items }
    {
        Rows { items }
    }

    /// Shows the rows.
    pub fn items(&self) -> &[Row]
        ensures { result.now ≡ self.now }
    {
        self.items.as_slice()
    }

    /// Gives the rows.
    pub(crate) fn into_vec(self) -> Vec<Row>
        ensures { result.items ≡ self }
    {
        self.items
    }
}
