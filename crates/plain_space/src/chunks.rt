//! A list of areas in chunks.
ghost use Rattle.std.specs.Prelude.{◌≡◌, ◌||◌, false, [], IfOk, All};
ghost use Rattle.area_rules.specs.Placement.{bounds_of};
ghost use Rattle.split_merge.specs.Plans.{applied, IsPlanOf, IsPlannedFor};
ghost use Rattle.plain_space.specs.Stored.{brings_sealed};

use crate::changing::{brings_sealed, carry_out};
use crate::finding::{first_from, last_before};
use crate::placing::{place_high, place_low};
use crate::store::{Store, gather};
use area_rules::{Bounds, bounds_of};
use mm_types::{AreaList, Config, NoMemory, Page, Record};
use split_merge::{Areas, Plan};
use std::alloc::Global;
use std::marker::Model;

/// A list of areas in chunks with room for as many as are allowed, so that no change takes memory. Contracts see it as the
/// list and the numbers of its configuration, for which the list is sound.
#[derive(Debug, Drop)]
pub struct AreaChunks {
    store: Store,
    bounds: Bounds,
    most: u32,
    count: u64,
    /// Whether an area was ever sealed.
    sealed: bool,
}

impl Model for AreaChunks {
    ghost use Rattle.plain_space.specs.Internal.Chunks.{areas_in_chunks};
    ghost use Rattle.plain_space.specs.Stored.{Stored, IsWellStored};

    ghost Value = { Stored };

    ghost view = { λ a. record { list = areas_in_chunks a.store.chunks.items; bounds = a.bounds; most = a.most; sealed = a.sealed } };

    ghost invariant = { λ a. IsWellStored a.bounds a.most a.count a.sealed a.store };
}

impl AreaChunks {
    /// An empty list with the numbers of a configuration, and room for the areas that are allowed. All memory of later calls
    /// is taken here.
    #[tactic(auto, unfolding(area_rules::specs::Placement::bounds_of))]
    pub fn with_room(alloc: Global, config: &Config) -> Result<AreaChunks, NoMemory>
        ensures { IfOk result (λ areas. areas
            ≡ record { list = []; bounds = bounds_of config.now; most = config.now.areas; sealed = false }) }
    {
        Ok(AreaChunks {
            store: Store::with_room(alloc, config.areas)?,
            bounds: bounds_of(config),
            most: config.areas,
            count: 0,
            sealed: false,
        })
    }

    /// Forgets all areas, and goes by the numbers of another configuration, which allows as many. It takes no memory.
    #[tactic(auto, unfolding(area_rules::specs::Placement::bounds_of))]
    pub fn restart(&mut self, config: &Config)
        requires { config.now.areas ≡ self.old.most }
        ensures { self.new ≡ record { list = []; bounds = bounds_of config.now; most = config.now.areas; sealed = false } }
    {
        self.store.clear();
        self.bounds = bounds_of(config);
        self.count = 0;
        self.sealed = false;
    }

    /// A copy of the list. `NoMemory` where there is none for it.
    pub fn copy_list(&self, alloc: Global) -> Result<AreaList, NoMemory>
        ensures value { IfOk result (λ list. list ≡ self.now.list) }
        ensures kept { IsPlannedFor self.now.bounds self.now.most self.now.list }
    {
        let mut list = Vec::with_capacity(alloc, self.count as usize)?;
        gather(&mut list, self.store.chunks.as_slice());
        Ok(AreaList::of(list))
    }

    /// Changes the list by a plan, within its room. Each change costs the chunk that it is in, and now and then that all
    /// areas are shared out anew.
    pub fn apply(&mut self, plan: &Plan)
        requires plan { IsPlanOf self.old.list plan.now.changes }
        requires kept { IsPlannedFor self.old.bounds self.old.most (applied plan.now.changes self.old.list) }
        ensures { self.new ≡ record self.old {
          list = applied plan.now.changes self.old.list;
          sealed = self.old.sealed || brings_sealed plan.now.changes;
        } }
    {
        let changes = plan.changes();
        self.sealed |= brings_sealed(changes);
        self.count = plan.count_after(self.count);
        carry_out(&mut self.store, changes);
    }
}

impl Areas for AreaChunks {
    ghost list = { λ a. a.list };

    ghost bounds = { λ a. a.bounds };

    ghost most = { λ a. a.most };

    fn count(&self) -> u64 {
        self.count
    }

    fn from(&self, page: Page) -> Option<Record> {
        first_from(self.store.chunks.as_slice(), page.0)
    }

    fn before(&self, page: Page) -> Option<Record> {
        last_before(self.store.chunks.as_slice(), page.0)
    }

    fn place(&self, len: u64) -> Option<Page> {
        place_low(self.bounds, self.store.chunks.as_slice(), len).map(Page)
    }

    fn place_high(&self, len: u64) -> Option<Page> {
        place_high(self.bounds, self.store.chunks.as_slice(), len).map(Page)
    }

    /// Whether an area was ever sealed.
    fn may_be_sealed(&self) -> bool
        ensures ever { result ≡ self.now.sealed }
        ensures unsealed { result ≡ false → All (λ area. area.attr.sealed ≡ false) self.now.list }
    {
        self.sealed
    }
}
