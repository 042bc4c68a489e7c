//! The memory of an address space without locks.
ghost use Rattle.std.specs.Prelude.{◌≡◌, IfOk};

use crate::chunks::AreaChunks;
use mm_types::{Config, NoMemory};
use split_merge::Plan;
use std::alloc::Global;
use std::marker::Model;

/// The memory of all calls of a space. A space that ends leaves it to one that begins. Contracts see how many areas it is for.
#[derive(Drop)]
pub struct Room {
    pub(crate) areas: AreaChunks,
    /// Empty.
    pub(crate) plan: Plan,
}

impl Model for Room {
    ghost use Rattle.std.specs.Prelude.{ℕ};
    ghost use Rattle.split_merge.specs.Plans.{IsFreshPlan};

    ghost Value = { ℕ };

    ghost view = { λ room. room.areas.most };

    ghost invariant = { λ room. IsFreshPlan room.areas.most room.plan };
}

impl Room {
    /// The memory of a space with this configuration. `NoMemory` where it cannot be had.
    pub fn new(alloc: Global, config: &Config) -> Result<Room, NoMemory>
        ensures { IfOk result (λ room. room ≡ config.now.areas) }
    {
        Ok(Room {
            areas: AreaChunks::with_room(alloc, config)?,
            plan: Plan::with_room(alloc, config.areas)?,
        })
    }
}
