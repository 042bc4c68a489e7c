//! The free slots of a table, and those that left.
ghost use Rattle.std.specs.Prelude.{◌≡◌, ◌↔◌, ◌++◌, ◌∷◌, ◌≤◌, [], true, false, reverse, length, drop, slice_index_or, IfOk, IfSome, IfNone, IsNone, ◌<◌};
ghost use Rattle.std.specs.List.{range_with_len};
ghost use Rattle.std.specs.List.Sorted.{IsPartitionPoint};
ghost use Rattle.area_slots.specs.declared.leaving.Leaving.{Leaving};
ghost use Rattle.area_slots.specs.Slots.{IsSlotTaken, retired_by, gone_by, gone_after, slots_left};

use crate::leaving::Leaving;
use mm_types::{NoMemory, Slot};
use std::alloc::Global;
use std::collections::VecDeque;
use std::marker::Model;

/// The slots of a table, each of which is free, taken, or left with a tree. All memory is taken when the set is made.
#[derive(Debug, Drop)]
pub struct AreaSlots {
    free: Vec<u32>,
    /// Those that left, by rising trees.
    left: VecDeque<Leaving>,
    count: u32,
}

impl Model for AreaSlots {
    ghost use Rattle.area_slots.specs.Slots.{SlotSet};

    ghost Value = { SlotSet };

    ghost use Rattle.area_slots.specs.Kept.{set_of, AreSlots};

    ghost view = { set_of };

    ghost invariant = { AreSlots };
}

impl AreaSlots {
    /// A set of so many slots, all of them free. The lowest is taken first, so what is kept of slots need be made only up to the highest
    /// one that was used.
    pub fn new(alloc: Global, slots: u32) -> Result<AreaSlots, NoMemory>
        ensures { IfOk result (λ set. set ≡ record { free = reverse (range_with_len 0 slots); left = []; count = slots }) }
    {
        let mut free = Vec::with_capacity(alloc, slots as usize)?;
        for pushed in 0..slots {
            free.push_reserved(slots - 1 - pushed);
        }
        Ok(AreaSlots {
            free,
            left: VecDeque::with_capacity(alloc, slots as usize)?,
            count: slots,
        })
    }

    /// Takes a free slot, the one that was free last. There is none where no slot is free.
    pub fn take(&mut self) -> Option<Slot>
        ensures none { IsNone result ↔ (self.old.free ≡ []) }
        ensures slot { IfSome result (λ slot. self.old ≡ record self.new { free = self.new.free ++ slot.0 ∷ [] }) }
        ensures taken { IfSome result (λ slot. IsSlotTaken self.new slot.0) }
    {
        let slot = self.free.pop()?;
        Some(Slot(slot))
    }

    /// How many slots are free.
    pub fn count_free(&self) -> usize
        ensures { result ≡ length self.now.free }
    {
        self.free.len()
    }

    /// A slot that was taken leaves with a tree: it stands after all that left by this tree.
    pub fn retire(&mut self, slot: Slot, tree: u64)
        requires { IsSlotTaken self.old slot.0 }
        ensures { self.new ≡ record self.old {
          left = gone_by tree self.old.left ++ record { slot = slot.0; tree = tree } ∷ gone_after tree self.old.left;
        } }
    {
        let place = self.place_of(tree);
        let _fits = self.left.insert(place, Leaving { slot: slot.0, tree });
    }

    /// How many slots left by a tree. Where it is not below the last of them, no other is looked at.
    fn place_of(&self, tree: u64) -> usize
        ensures within { result ≤ length self.now.left }
        ensures point { IsPartitionPoint (λ leaving. retired_by tree leaving ≡ true) (λ leaving. retired_by tree leaving ≡ false) self.now.left result }
    {
        match self.left.back() {
            Some(last) if last.tree > tree => self.left.partition_point(|other| other.tree <= tree),
            _ => self.left.len(),
        }
    }

    /// Frees the slots that left at or before a tree.
    pub fn seen(&mut self, tree: u64)
        ensures { self.new ≡ record self.old {
          free = self.old.free ++ slots_left (gone_by tree self.old.left);
          left = gone_after tree self.old.left;
        } }
    {
        while let Some(leaving) = self.first_gone(tree) {
            let _first = self.left.pop_front();
            self.free.push_reserved(leaving.slot);
        }
    }

    /// The first that left, if it left by a tree.
    fn first_gone(&self, tree: u64) -> Option<Leaving>
        ensures first { IfSome result (λ leaving. (leaving.tree ≤ tree) × (self.now.left ≡ leaving ∷ drop 1 self.now.left)) }
        ensures none { IfNone result ((d : Leaving) → 0 < length self.now.left → tree < (slice_index_or self.now.left 0 d).tree) }
    {
        match self.left.front() {
            Some(first) if first.tree <= tree => Some(*first),
            _ => None,
        }
    }
}
