//! One chunk of a list.
ghost use Rattle.std.specs.Prelude.{◌≡◌, ◌≤◌, ◌<◌, ◌+◌, [], ◌∷◌, ◌++◌, length, take, nat_le, IfOk, Contains, vec_len, vec_capacity};
ghost use Rattle.area_list.specs.Changes.{insert_area};
ghost use Rattle.split_merge.specs.Plans.{without};
ghost use Rattle.split_merge.specs.Finding.{first_from, last_before};
ghost use Rattle.split_merge.specs.Sorted.{BeginsRise, BeginsAscend};
ghost use Rattle.plain_space.specs.Internal.Chunks.{chunk_low, chunk_high};
ghost use Rattle.plain_space.specs.Internal.Gaps.{IsAscending, HasScannedDown, HasScannedUp};

use crate::binary_search::{area_at, begins_below, ends_by, last_of};
use crate::scanning::{Scan, gap_around, gap_before, scan_down, scan_up, widest_after, widest_gap};
use mm_types::{NoMemory, Record};
use std::alloc::Global;
use std::marker::Model;

/// The most areas of a chunk. Chunks are few and roomy, since memory is taken for all of them beforehand, and room that isn't used isn't touched.
pub(crate) const MOST_IN_CHUNK: usize = 1024;

/// How many areas each chunk but the last has when all areas were shared out anew. Half, so that each has room again.
pub(crate) const HALF: usize = MOST_IN_CHUNK / 2;

/// A chunk with so many areas is divided while another one is spare: what a change costs is to move the areas of its chunk.
const LARGE: usize = 128;

/// Some areas in order, with room for as many as a chunk may have. Contracts see it as their list.
#[derive(Debug, Drop)]
pub(crate) struct Chunk {
    items: Vec<Record>,
    /// The widest gap between one of its areas and the next.
    widest: u64,
}

/// Adds the areas at the end, within the room.
pub(crate) fn append(whole: &mut Vec<Record>, areas: &[Record])
    requires { vec_len whole.old + length areas.now ≤ vec_capacity whole.old }
    ensures items { whole.new.items ≡ whole.old.items ++ areas.now }
    ensures len { vec_len whole.new ≡ vec_len whole.old + length areas.now }
    ensures room { vec_capacity whole.new ≡ vec_capacity whole.old }
{
    for area in areas {
        whole.push_reserved(*area);
    }
}

impl Model for Chunk {
    ghost use Rattle.std.specs.Prelude.{List};
    ghost use Rattle.std.specs.Vec.{vec_capacity};
    ghost use Rattle.mm_types.specs.declared.area.Record.{Record};
    ghost use Rattle.plain_space.specs.Internal.Gaps.{IsWellFilled};

    ghost Value = { List Record };

    ghost view = { λ c. c.items.items };

    ghost invariant = { λ c. IsWellFilled c.items.items (vec_capacity c.items) c.widest };
}

impl Chunk {
    /// A chunk with no area.
    pub(crate) fn with_room(alloc: Global) -> Result<Chunk, NoMemory>
        ensures { IfOk result (λ chunk. chunk ≡ []) }
    {
        Ok(Chunk {
            items: Vec::with_capacity(alloc, MOST_IN_CHUNK)?,
            widest: 0,
        })
    }

    /// Its areas.
    pub(crate) fn areas(&self) -> &[Record]
        ensures { result.now ≡ self.now }
    {
        self.items.as_slice()
    }

    /// Whether it has so many areas that it is to be divided.
    pub(crate) fn is_large(&self) -> bool
        ensures { result ≡ nat_le LARGE (length self.now) }
    {
        LARGE <= self.items.len()
    }

    /// Whether it has as many areas as a chunk may have.
    pub(crate) fn is_full(&self) -> bool
        ensures { result ≡ nat_le MOST_IN_CHUNK (length self.now) }
    {
        MOST_IN_CHUNK <= self.items.len()
    }

    /// Whether it has no area.
    pub(crate) fn is_empty(&self) -> bool
        ensures { result ≡ nat_le (length self.now) 0 }
    {
        self.items.len() == 0
    }

    /// The lowest page of its first area.
    pub(crate) fn low(&self) -> u64
        ensures { result ≡ chunk_low self.now }
    {
        match self.items.as_slice() {
            [first, ..] => first.span.lo,
            [] => 0,
        }
    }

    /// The page at which its last area ends.
    pub(crate) fn high(&self) -> u64
        ensures { result ≡ chunk_high self.now }
    {
        match last_of(self.items.as_slice(), self.items.len()) {
            Some(last) => last.span.hi,
            None => 0,
        }
    }

    /// Makes it hold these areas alone.
    pub(crate) fn fill(&mut self, areas: &[Record])
        requires { length areas.now ≤ MOST_IN_CHUNK }
        ensures { self.new ≡ areas.now }
    {
        self.items.clear();
        append(&mut self.items, areas);
        self.widest = widest_gap(self.items.as_slice());
    }

    /// Forgets all but the first so many areas.
    pub(crate) fn keep_first(&mut self, count: usize)
        ensures { self.new ≡ take count self.old }
    {
        self.items.truncate(count);
        self.widest = widest_gap(self.items.as_slice());
    }

    /// Removes an area.
    pub(crate) fn remove(&mut self, old: &Record)
        requires ascend { BeginsAscend self.old }
        requires member { Contains self.old old.now }
        ensures { self.new ≡ without (old.now ∷ []) self.old }
    {
        let place = begins_below(self.items.as_slice(), old.span.lo);
        let gone = gap_around(self.items.as_slice(), place);
        self.items.remove(place);
        let come = gap_before(self.items.as_slice(), place);
        self.widest = widest_after(self.items.as_slice(), self.widest, gone, come);
    }

    /// Inserts an area by its lowest page.
    pub(crate) fn insert(&mut self, new: Record)
        requires rise { BeginsRise self.old }
        requires room { length self.old < MOST_IN_CHUNK }
        ensures { self.new ≡ insert_area new self.old }
    {
        let place = begins_below(self.items.as_slice(), new.span.lo);
        let gone = gap_before(self.items.as_slice(), place);
        let _fits = self.items.insert(place, new);
        let come = gap_around(self.items.as_slice(), place);
        self.widest = widest_after(self.items.as_slice(), self.widest, gone, come);
    }

    /// The first area that ends above the page.
    pub(crate) fn from(&self, page: u64) -> Option<Record>
        requires { IsAscending self.now }
        ensures { result ≡ first_from self.now page }
    {
        let place = ends_by(self.items.as_slice(), page);
        area_at(self.items.as_slice(), place)
    }

    /// The last area that begins below the page.
    pub(crate) fn before(&self, page: u64) -> Option<Record>
        requires { IsAscending self.now }
        ensures { result ≡ last_before self.now page }
    {
        let place = begins_below(self.items.as_slice(), page);
        last_of(self.items.as_slice(), place)
    }

    /// Looks for room of so many pages below an end. Where no gap is wide enough and the one above the last area is not
    /// either, none of the areas is looked at.
    pub(crate) fn look_down(&self, end: u64, pages: u64) -> Scan
        requires ascend { IsAscending self.now }
        requires some { 0 < length self.now }
        ensures { HasScannedDown self.now end pages result.page result.has_room }
    {
        if self.widest < pages && end.saturating_sub(self.high()) < pages {
            return Scan {
                page: end.min(self.low()),
                has_room: false,
            };
        }
        scan_down(self.items.as_slice(), end, pages)
    }

    /// Looks for room of so many pages from a start on. Where no gap is wide enough and the one below the first area is not
    /// either, none of the areas is looked at.
    pub(crate) fn look_up(&self, start: u64, pages: u64) -> Scan
        requires ascend { IsAscending self.now }
        requires some { 0 < length self.now }
        ensures { HasScannedUp self.now start pages result.page result.has_room }
    {
        if self.widest < pages && self.low().saturating_sub(start) < pages {
            return Scan {
                page: start.max(self.high()),
                has_room: false,
            };
        }
        scan_up(self.items.as_slice(), start, pages)
    }
}
