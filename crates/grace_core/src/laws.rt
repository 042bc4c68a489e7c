//! Laws of the definitions. Each is the contract of a function that does nothing.

ghost use Rattle.std.specs.Prelude.{ℕ};
ghost use Rattle.grace_core.specs.Core.{WriterState};
ghost use Rattle.grace_core.specs.Uses.{UsesChange, UsesBegin};
ghost use Rattle.grace_core.specs.Laws.{PinsTurn, RowsStand, StandsOnce, SnapshotsStay, RowsBecomeFree, FreeRowsStay, ClearingsRise};

/// A pin is odd exactly while its reader is open: each open and close makes it another one, odd where it was even and even
/// where it was odd.
pub fn pins_turn()
    ensures { PinsTurn }
{}

/// A row is of the present tree, free or waiting, and only one of these.
pub fn rows_stand_once()
    ensures one { RowsStand }
    ensures only { (writer_state : WriterState) (row : ℕ) → StandsOnce writer_state row }
{}

/// At first row 0 is of the present tree, and each other row is free. A publish makes the rows that it lists those of the present
/// tree, and a row of the tree before that it doesn't list waits since it. At a publish, a scan or a join a row that waits becomes free
/// once every reader is cleared up to its tree or a later one. Nothing else changes what a row is used for.
pub fn uses_of_rows()
    ensures begin { UsesBegin }
    ensures change { UsesChange }
{}

/// No row is free, and so none is filled, that a reader's snapshot has.
pub fn snapshots_stay()
    ensures { SnapshotsStay }
{}

/// A row that waits is free once every reader is cleared up to the tree that left it out, and stays free until a publish
/// lists it.
pub fn rows_become_free()
    ensures freed { RowsBecomeFree }
    ensures stay { FreeRowsStay }
{}

/// The tree up to which a reader is cleared never falls.
pub fn clearings_rise()
    ensures { ClearingsRise }
{}
