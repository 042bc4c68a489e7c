//! What each slot shows, by slot.
ghost use Rattle.std.specs.Prelude.{◌≡◌, ◌<◌, List, length, replicate, slice_set, IfOk};
ghost use Rattle.mm_types.specs.declared.area.Record.{Record};
ghost use Rattle.area_tree.specs.AreaTrees.{area_in, no_area};

use crate::shown::NO_AREA;
use mm_types::{NoMemory, Record};
use std::alloc::Global;
use std::marker::Model;

/// What each slot of a table shows, or showed last. Contracts see a record for each slot. All memory is taken when they are made,
/// but it is written only up to the highest slot that showed an area, so that a table of which few slots are used costs little.
#[derive(Drop)]
pub(crate) struct Records {
    /// Those up to the highest slot that showed an area.
    shown: Vec<Record>,
    /// How many slots there are: contracts read it.
    slots: u32,
}

impl Model for Records {
    ghost use Rattle.std.specs.Prelude.{List};
    ghost use Rattle.mm_types.specs.declared.area.Record.{Record};

    ghost Value = { List Record };

    ghost use Rattle.area_tree.specs.Internal.Records.{records_of, AreKept};

    ghost view = { records_of };

    ghost invariant = { AreKept };
}

impl Records {
    /// Records of so many slots, none of which showed an area.
    pub(crate) fn new(alloc: Global, slots: u32) -> Result<Records, NoMemory>
        ensures { IfOk result (λ records. records ≡ replicate slots no_area) }
    {
        Ok(Records {
            shown: Vec::with_capacity(alloc, slots as usize)?,
            slots,
        })
    }

    /// What a slot shows.
    pub(crate) fn area_in(&self, slot: u32) -> Record
        ensures { result ≡ area_in self.now slot }
    {
        match self.shown.get(slot as usize) {
            Some(area) => *area,
            None => NO_AREA,
        }
    }

    /// A slot shows an area. The records up to its own are written first.
    pub(crate) fn show(&mut self, slot: u32, area: Record)
        requires { slot < length self.old }
        ensures { self.new ≡ slice_set self.old slot area }
    {
        let place = slot as usize;
        while self.shown.len() <= place {
            self.shown.push_reserved(NO_AREA);
        }
        self.shown[place] = area;
    }
}
