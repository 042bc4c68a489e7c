//! An area that is held: it stays as it is until it is unlocked.
ghost use Rattle.std.specs.Prelude.{◌≡◌, ◌+◌, length};
ghost use Rattle.fault_path.specs.Passes.{seen_by, looks_of};
ghost use Rattle.fault_path.specs.Faults.{IsMember};
ghost use Rattle.fault_path.specs.Holding.{StaysAlike};

use crate::pass::{Pass, Rest, Unlocked};
use mm_types::Record;
use std::marker::Model;
use vma_lock::{ReaderSeat, VmaTable};

/// An area that a caller holds by its slot, with the caller's pass. No call changes the area until `unlock` gives the pass back; a
/// call that would waits for it, for ever if the area is dropped instead. While it is held, its caller has no pass to make calls
/// with.
#[derive(Drop)]
pub struct Held<'a> {
    pub(crate) table: &'a VmaTable,
    pub(crate) area: Record,
    pub(crate) reader: ReaderSeat,
    pub(crate) unlocked: Unlocked,
    pub(crate) rest: Rest,
}

impl<'a> Model for Held<'a> {
    ghost use Rattle.std.specs.Prelude.{vec_capacity};
    ghost use Rattle.vma_lock.specs.Seats.{vma_table_id};
    ghost use Rattle.fault_path.specs.Passes.{pass_of};
    ghost use Rattle.fault_path.specs.Holding.{HeldView, IsAreaHeld};

    ghost Value = { HeldView };

    ghost view = { λ h. record { area = h.area; pass = pass_of h.reader h.unlocked h.rest } };

    ghost invariant = { λ h. IsAreaHeld (vma_table_id h.table.now) (record { area = h.area; pass = pass_of h.reader h.unlocked h.rest }) (vec_capacity h.rest.log) };
}

impl<'a> Held<'a> {
    /// The area, the same until it is unlocked.
    pub fn record(&self) -> Record
        ensures { result ≡ self.now.area }
    {
        self.area
    }

    /// How many entries of the journal the pass has seen. The area is one of the list after them.
    pub fn version(&self) -> u64
        ensures version { result ≡ length (seen_by self.now.pass) }
        ensures member { IsMember self.now.area self.now.pass }
    {
        self.reader.version()
    }

    /// Looks at the sequence again, and answers how many entries the pass has then seen. The same area is one of the list after
    /// them, whatever calls were made meanwhile.
    pub fn look(&mut self) -> u64
        ensures version { result ≡ length (seen_by self.new.pass) }
        ensures area { self.new.area ≡ self.old.area }
        ensures member { IsMember self.new.area self.new.pass }
        ensures alike { StaysAlike self.old.pass self.new.pass }
        ensures same { self.new.pass ≡ record self.old.pass { reader = self.new.pass.reader } }
        ensures looks { looks_of self.new.pass ≡ looks_of self.old.pass + 1 }
    {
        self.table.look(&mut self.reader);
        self.reader.version()
    }

    /// Gives the slot back, and hands the pass back with its log and what is left as they were.
    pub fn unlock(self) -> Pass
        ensures alike { StaysAlike self.entry.pass result }
        ensures same { result ≡ record self.entry.pass { reader = result.reader } }
        ensures seen { seen_by result ≡ seen_by self.entry.pass }
        ensures looks { looks_of result ≡ looks_of self.entry.pass }
    {
        let Held {
            table,
            area: _,
            mut reader,
            unlocked,
            rest,
        } = self;
        table.sub(&mut reader);
        Pass {
            reader,
            unlocked,
            rest,
        }
    }
}
