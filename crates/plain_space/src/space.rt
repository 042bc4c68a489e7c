//! An address space without locks.
ghost use Rattle.std.specs.Prelude.{◌≡◌, ◌≤◌, ◌<◌, ◌+◌, ◌-◌, ◌^◌, length, IfOk};
ghost use Rattle.mm_types.specs.Config.{IsValidConfig};
ghost use Rattle.area_list.specs.Areas.{IsSound};
ghost use Rattle.area_rules.specs.Steps.{step, opening};
ghost use Rattle.area_rules.specs.Growing.{grows};
ghost use Rattle.area_rules.specs.Tables.{counters_of};
ghost use Rattle.area_rules.specs.Verdicts.{verdict};
ghost use Rattle.split_merge.specs.Finding.{first_from};

use crate::chunks::AreaChunks;
use crate::room::Room;
use mm_types::{Access, AreaList, Call, Config, Counters, NoMemory, Page, Record, Reply, Verdict};
use split_merge::{Areas, Plan};
use std::alloc::Global;
use std::marker::Model;
use sys_calls::plan_call;
use sys_map::{grows, verdict};

/// An address space without locks, for calls one after another. Contracts see it as the space of the model with its
/// configuration. All memory of its calls is taken when it is made.
#[derive(Drop)]
pub struct PlainSpace<'a> {
    config: &'a Config,
    areas: AreaChunks,
    counters: Counters,
    /// Empty between two calls.
    plan: Plan,
}

impl<'a> Model for PlainSpace<'a> {
    ghost use Rattle.plain_space.specs.Plain.{PlainView};

    ghost Value = { PlainView };

    ghost use Rattle.plain_space.specs.Kept.{plain_of, IsPlain};

    ghost view = { plain_of };

    ghost invariant = { IsPlain };
}

impl<'a> PlainSpace<'a> {
    /// A space of this configuration with no area, an empty heap, and the files numbered. `NoMemory` where the memory of its
    /// calls cannot be had: later calls take none.
    pub fn new(alloc: Global, config: &'a Config) -> Result<PlainSpace<'a>, NoMemory>
        requires { IsValidConfig config.now }
        ensures { IfOk result (λ space. space ≡ record { config = config.now; space = opening config.now }) }
    {
        Ok(PlainSpace::within(Room::new(alloc, config)?, config))
    }

    /// A space of this configuration with no area, an empty heap, and the files numbered, in the memory of another whose
    /// configuration allows exactly as many areas. It takes none.
    pub fn within(room: Room, config: &'a Config) -> PlainSpace<'a>
        requires valid { IsValidConfig config.now }
        requires room { room ≡ config.now.areas }
        ensures { result ≡ record { config = config.now; space = opening config.now } }
    {
        let Room { mut areas, plan } = room;
        areas.restart(config);
        PlainSpace {
            config,
            areas,
            counters: Counters::opening(config),
            plan,
        }
    }

    /// The memory of the space, which ends.
    pub fn into_room(self) -> Room
        ensures { result ≡ self.entry.config.areas }
    {
        Room {
            areas: self.areas,
            plan: self.plan,
        }
    }

    /// Makes a call, and returns what the kernel does. A call costs what its plan costs: a few searches by page, and for each
    /// change the chunk of the list that it is in.
    pub fn call(&mut self, call: &Call) -> Reply
        requires room { self.old.space.objects < 2 ^ 32 - 1 }
        ensures reply { result ≡ (step self.old.config self.old.space call.now).reply }
        ensures space { self.new.space ≡ (step self.old.config self.old.space call.now).space }
        ensures config { self.new.config ≡ self.old.config }
        ensures objects { self.new.space.objects ≤ self.old.space.objects + 1 }
    {
        let called = plan_call(
            self.config,
            self.counters,
            &self.areas,
            call,
            &mut self.plan,
        );
        self.areas.apply(&self.plan);
        self.plan.clear();
        self.counters = called.counters;
        called.reply
    }

    /// The verdict on a fault that grows no area. Two searches by page at most.
    pub fn verdict(&self, page: Page, access: Access) -> Verdict
        ensures { result ≡ verdict self.now.config self.now.space.areas page.0 access }
    {
        verdict(self.config, &self.areas, page, access)
    }

    /// Whether a fault grows an area: the call `Touch` with its page and access does it then. One search by page.
    pub fn grows(&self, page: Page, access: Access) -> bool
        ensures { result ≡ grows self.now.config self.now.space.areas page.0 access }
    {
        grows(self.config, &self.areas, page, access)
    }

    /// The first area that ends above the page. One search by page.
    pub fn area_from(&self, page: Page) -> Option<Record>
        ensures { result ≡ first_from self.now.space.areas page.0 }
    {
        self.areas.from(page)
    }

    /// A copy of the list of areas, which is sound for the configuration. `NoMemory` where there is none for it.
    pub fn copy_list(&self, alloc: Global) -> Result<AreaList, NoMemory>
        ensures list { IfOk result (λ list. list ≡ self.now.space.areas) }
        ensures sound { IsSound self.now.config self.now.space.areas }
    {
        self.areas.copy_list(alloc)
    }

    /// How many areas there are.
    pub fn count(&self) -> u64
        ensures { result ≡ length self.now.space.areas }
    {
        self.areas.count()
    }

    /// What it keeps besides the areas: how many objects are numbered, and the break.
    pub fn counters(&self) -> Counters
        ensures { result ≡ counters_of self.now.space }
    {
        self.counters
    }
}
