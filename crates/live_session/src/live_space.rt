//! An address space of a session, with its configuration and how many calls were made.
ghost use Rattle.std.specs.Prelude.{◌≡◌, ◌≤◌, ◌<◌, ◌+◌, ◌-◌, ◌/◌, ◌^◌, ◌++◌, false, length, None, Some, IfOk, IsOk, IsSomeAnd, OnErr, OnOk, vec_capacity, vec_len};
ghost use Rattle.mm_types.specs.Config.{IsValidConfig};
ghost use Rattle.area_rules.specs.Steps.{opening};
ghost use Rattle.history.specs.Histories.{answer_of, call_made, read_of, space_after, space_by, answer_by, version_by};
ghost use Rattle.live_session.specs.Sessions.{after_operation, areas_text, found_text, operation_text};
ghost use Rattle.live_session.specs.Internal.Lacking.{LacksForList, LacksRoom, found_line, reads_list};

use history::{Content, Item, made_call};
use maps_print::push_trimmed;
use mm_types::{Config, NoMemory, PAGE_SIZE, Page};
use output::{push_count, push_item, push_maps};
use plain_space::{PlainSpace, Room};
use std::alloc::Global;
use std::marker::Model;
use trace_reader::{Op, TraceLine};

/// The memory of an address space that ended, and for how many areas it is: it serves the next space of as many.
#[derive(Drop)]
pub(crate) struct Spare {
    room: Room,
    areas: u32,
}

impl Model for Spare {
    ghost use Rattle.std.specs.Prelude.{◌≡◌, ℕ};

    ghost Value = { ℕ };

    ghost view = { λ spare. spare.areas };

    ghost invariant = { λ spare. spare.room ≡ spare.areas };
}

/// The memory of a space with this configuration: that of the space before it, where it is for as many areas, and else more, with `NoMemory`
/// where it cannot be had.
fn room_for(alloc: Global, config: &Config, spare: Option<Spare>) -> Result<Room, NoMemory>
    ensures areas { IfOk result (λ room. room ≡ config.now.areas) }
    ensures spared { IsSomeAnd spare (λ spare. spare ≡ config.now.areas) → IsOk result }
{
    if let Some(spare) = spare {
        if spare.areas == config.areas {
            return Ok(spare.room);
        }
    }
    Room::new(alloc, config)
}

/// An open address space of a session. Contracts see its configuration, the space of the model, and how many calls were made.
#[derive(Drop)]
pub(crate) struct LiveSpace<'a> {
    config: &'a Config,
    space: PlainSpace<'a>,
    version: u64,
}

impl<'a> Model for LiveSpace<'a> {
    ghost use Rattle.std.specs.Prelude.{◌≡◌};
    ghost use Rattle.live_session.specs.Sessions.{Opened};

    ghost Value = { Opened };

    ghost view = { λ live. record { config = live.space.config; space = live.space.space; version = live.version } };

    ghost invariant = { λ live. live.config.now ≡ live.space.config };
}

impl<'a> LiveSpace<'a> {
    /// A space of this configuration without an area, in the memory of the one before it, if that is for as many areas. Else `NoMemory` where
    /// the memory of its calls cannot be had.
    pub(crate) fn open(
        alloc: Global,
        config: &'a Config,
        spare: Option<Spare>,
    ) -> Result<LiveSpace<'a>, NoMemory>
        requires { IsValidConfig config.now }
        ensures opened { IfOk result (λ live. live ≡ record { config = config.now; space = opening config.now; version = 0 }) }
        ensures spared { IsSomeAnd spare (λ spare. spare ≡ config.now.areas) → IsOk result }
    {
        let room = room_for(alloc, config, spare)?;
        Ok(LiveSpace {
            config,
            space: PlainSpace::within(room, config),
            version: 0,
        })
    }

    /// The memory of the space, which ends.
    pub(crate) fn into_spare(self) -> Spare
        ensures { result ≡ self.entry.config.areas }
    {
        Spare {
            areas: self.config.areas,
            room: self.space.into_room(),
        }
    }

    /// How many calls were made.
    pub(crate) fn version(&self) -> u64
        ensures { result ≡ self.now.version }
    {
        self.version
    }

    /// Makes an operation, and appends its answer. Fails only where memory runs out: that is taken for a list, and where the piece has no room.
    pub(crate) fn operate(
        &mut self,
        alloc: Global,
        piece: &mut Vec<u8>,
        line: &TraceLine,
    ) -> Result<(), NoMemory>
        requires objects { self.old.space.objects < 2 ^ 32 - 1 }
        requires version { self.old.version < 2 ^ 64 - 1 }
        ensures text { OnOk result (piece.new.items ≡ piece.old.items ++ operation_text self.old line.now) }
        ensures now { OnOk result (self.new ≡ after_operation self.old line.now.op) }
        ensures at_once { OnErr result (LacksRoom self.old line.now (vec_capacity piece.old) (vec_len piece.old)) }
    {
        let content = self.content(alloc, line.op)?;
        let item = Item {
            caller: 0,
            version: self.version,
            content,
        };
        push_item(piece, &self.config.files, line, &item)
    }

    /// Makes an operation, and answers what it results in. Only a list takes memory.
    fn content(&mut self, alloc: Global, op: Op) -> Result<Content, NoMemory>
        requires objects { self.old.space.objects < 2 ^ 32 - 1 }
        requires version { self.old.version < 2 ^ 64 - 1 }
        ensures content { IfOk result (λ content. content ≡ answer_of self.old.config self.old.space op) }
        ensures now { OnOk result (self.new ≡ after_operation self.old op) }
        ensures at_once { reads_list op ≡ false → IsOk result }
    {
        match made_call(&self.space, op) {
            Some(call) => {
                self.version += 1;
                Ok(Content::Called(call, self.space.call(&call)))
            }
            None => self.read(alloc, op),
        }
    }

    /// What an operation reads that makes no call. Only a list takes memory.
    #[tactic(auto, unfolding(history::specs::Histories::call_made))]
    fn read(&self, alloc: Global, op: Op) -> Result<Content, NoMemory>
        requires { call_made self.now.config self.now.space op ≡ None }
        ensures content { IfOk result (λ content. content ≡ read_of self.now.config self.now.space op) }
        ensures at_once { reads_list op ≡ false → IsOk result }
    {
        match op {
            Op::Fault { page, access } => {
                let verdict = self.space.verdict(page, access);
                Ok(Content::Fault {
                    page,
                    access,
                    verdict,
                })
            }
            Op::Call(_) | Op::Maps | Op::Fork { .. } => {
                Ok(Content::List(self.space.copy_list(alloc)?))
            }
        }
    }

    /// Appends the list of areas. Fails only where memory runs out: that is taken for a copy of the list, if it has an area, and where the piece
    /// has no room.
    pub(crate) fn push_areas(&self, alloc: Global, piece: &mut Vec<u8>) -> Result<(), NoMemory>
        ensures text { OnOk result (piece.new.items ≡ piece.old.items ++ areas_text self.now) }
        ensures room { OnErr result (LacksForList self.now (areas_text self.now) (vec_capacity piece.old) (vec_len piece.old)) }
    {
        if self.space.count() == 0 {
            return push_count(piece, 0);
        }
        let list = self.space.copy_list(alloc)?;
        push_maps(piece, &self.config.files, list.items())
    }

    /// Appends the line of the first area that ends above an address, without the spaces at its end, or `none`. Fails only where memory runs out,
    /// which is taken where the piece has no room for that line with these spaces.
    pub(crate) fn push_found(&self, piece: &mut Vec<u8>, address: u64) -> Result<(), NoMemory>
        ensures text { OnOk result (piece.new.items ≡ piece.old.items ++ found_text self.now address) }
        ensures room { OnErr result (vec_capacity piece.old < vec_len piece.old + length (found_line self.now address)) }
    {
        match self.space.area_from(Page(address / PAGE_SIZE)) {
            Some(area) => push_trimmed(piece, &area, &self.config.files),
            None => Ok(piece.extend_from_slice(b"none\n")?),
        }
    }
}
