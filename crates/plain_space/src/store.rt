//! Chunks, and spare ones.
ghost use Rattle.std.specs.Prelude.{◌≡◌, ◌≤◌, ◌<◌, ◌+◌, ◌*◌, [], ◌∷◌, ◌++◌, length, All, Contains, IfOk, vec_len, vec_capacity, set, slice_index_or};
ghost use Rattle.area_list.specs.Changes.{insert_area};
ghost use Rattle.split_merge.specs.Plans.{without};
ghost use Rattle.plain_space.specs.declared.chunk.TheConstants.{MOST_IN_CHUNK, HALF, LARGE};
ghost use Rattle.split_merge.specs.Sorted.{BeginsRise, BeginsAscend};
ghost use Rattle.plain_space.specs.Internal.Chunks.{areas_in_chunks, IsFilled, AreOthersFilled};
ghost use Rattle.plain_space.specs.Stored.{IsRoomy, IsSaneStore, StaysSane};

use crate::chunk::{Chunk, HALF, append};
use crate::finding::{beginning_below, beginning_by};
use mm_types::{NoMemory, Record};
use std::alloc::Global;

/// The chunks of a list in order, and spare ones.
#[derive(Debug, Drop)]
pub(crate) struct Store {
    pub(crate) chunks: Vec<Chunk>,
    /// What they hold counts for nothing.
    spares: Vec<Chunk>,
    /// Where all areas are gathered before they are shared out anew.
    whole: Vec<Record>,
}

/// Makes a vector hold the areas of the chunks.
pub(crate) fn gather(whole: &mut Vec<Record>, chunks: &[Chunk])
    requires { length (areas_in_chunks chunks.now) ≤ vec_capacity whole.old }
    ensures items { whole.new.items ≡ areas_in_chunks chunks.now }
    ensures room { vec_capacity whole.new ≡ vec_capacity whole.old }
{
    whole.clear();
    for chunk in chunks {
        append(whole, chunk.areas());
    }
}

/// Makes spare chunks of all.
fn give_back(chunks: &mut Vec<Chunk>, spares: &mut Vec<Chunk>)
    requires { vec_len chunks.old + vec_len spares.old ≤ vec_capacity spares.old }
    ensures none { chunks.new.items ≡ [] }
    ensures total { vec_len spares.new ≡ vec_len chunks.old + vec_len spares.old }
    ensures room { vec_capacity chunks.new ≡ vec_capacity chunks.old }
    ensures spare_room { vec_capacity spares.new ≡ vec_capacity spares.old }
{
    while let Some(chunk) = chunks.pop() {
        spares.push_reserved(chunk);
    }
}

/// Shares areas out to chunks that are half full, and a last one.
fn deal(chunks: &mut Vec<Chunk>, spares: &mut Vec<Chunk>, areas: &[Record])
    requires none { chunks.old.items ≡ [] }
    requires enough { length areas.now ≤ HALF * vec_len spares.old }
    requires room { vec_len spares.old ≤ vec_capacity chunks.old }
    ensures areas { areas_in_chunks chunks.new.items ≡ areas.now }
    ensures filled { All IsFilled chunks.new.items }
    ensures total { vec_len chunks.new + vec_len spares.new ≡ vec_len spares.old }
    ensures room { vec_capacity chunks.new ≡ vec_capacity chunks.old }
    ensures spare_room { vec_capacity spares.new ≡ vec_capacity spares.old }
{
    let mut rest = areas;
    while !rest.is_empty() {
        let (part, tail) = rest.split_at(HALF.min(rest.len()));
        let Some(mut chunk) = spares.pop() else {
            unreachable!();
        };
        chunk.fill(part);
        chunks.push_reserved(chunk);
        rest = tail;
    }
}

/// Divides a large chunk into two halves, the upper one into a spare chunk.
fn divide(chunks: &mut Vec<Chunk>, place: usize, mut upper: Chunk)
    requires within { place < vec_len chunks.old }
    requires large { LARGE ≤ length (slice_index_or chunks.old.items place []) }
    requires most { length (slice_index_or chunks.old.items place []) ≤ MOST_IN_CHUNK }
    requires others { AreOthersFilled chunks.old.items place }
    requires room { vec_len chunks.old < vec_capacity chunks.old }
    ensures areas { areas_in_chunks chunks.new.items ≡ areas_in_chunks chunks.old.items }
    ensures filled { All IsFilled chunks.new.items }
    ensures len { vec_len chunks.new ≡ vec_len chunks.old + 1 }
    ensures room { vec_capacity chunks.new ≡ vec_capacity chunks.old }
{
    let lower = &mut chunks[place];
    let half = lower.areas().len() / 2;
    upper.fill(&lower.areas()[half..]);
    lower.keep_first(half);
    let _fits = chunks.insert(place + 1, upper);
}

impl Store {
    /// A store of no area, for so many at most: it has chunks for twice as many, and for two chunks more.
    pub(crate) fn with_room(alloc: Global, areas: u32) -> Result<Store, NoMemory>
        ensures made { IfOk result (λ store. (store.chunks.items ≡ []) × (IsSaneStore store) × (vec_capacity store.whole ≡ areas)) }
        ensures few { IfOk result (λ store. HALF * vec_capacity store.chunks ≤ 2 * (areas + MOST_IN_CHUNK)) }
        ensures spares { IfOk result (λ store. vec_capacity store.spares ≡ vec_capacity store.chunks) }
    {
        // Twice as many as half-full chunks hold these areas: after sharing out at least half of them are spare.
        let count = areas as usize / (HALF / 2) + 2;
        let mut spares = Vec::with_capacity(alloc, count)?;
        for _made in 0..count {
            spares.push_reserved(Chunk::with_room(alloc)?);
        }
        Ok(Store {
            chunks: Vec::with_capacity(alloc, count)?,
            spares,
            whole: Vec::with_capacity(alloc, areas as usize)?,
        })
    }

    /// Forgets all areas, and keeps the room.
    pub(crate) fn clear(&mut self)
        requires sane { IsSaneStore self.old }
        ensures none { self.new.chunks.items ≡ [] }
        ensures stays { StaysSane self.old self.new }
    {
        give_back(&mut self.chunks, &mut self.spares);
    }

    /// Shares all areas out anew.
    fn share_out(&mut self)
        requires roomy { IsRoomy self.old }
        requires few { length (areas_in_chunks self.old.chunks.items) ≤ vec_capacity self.old.whole }
        ensures areas { areas_in_chunks self.new.chunks.items ≡ areas_in_chunks self.old.chunks.items }
        ensures stays { StaysSane self.old self.new }
    {
        gather(&mut self.whole, self.chunks.as_slice());
        give_back(&mut self.chunks, &mut self.spares);
        deal(&mut self.chunks, &mut self.spares, self.whole.as_slice());
    }

    /// Makes two chunks of a large one. Where no chunk is spare it may grow until it is full: then all areas are shared out anew.
    fn relieve(&mut self, place: usize)
        requires within { place < vec_len self.old.chunks }
        requires large { LARGE ≤ length (slice_index_or self.old.chunks.items place []) }
        requires most { length (slice_index_or self.old.chunks.items place []) ≤ MOST_IN_CHUNK }
        requires others { AreOthersFilled self.old.chunks.items place }
        requires roomy { IsRoomy self.old }
        requires few { length (areas_in_chunks self.old.chunks.items) ≤ vec_capacity self.old.whole }
        ensures areas { areas_in_chunks self.new.chunks.items ≡ areas_in_chunks self.old.chunks.items }
        ensures stays { StaysSane self.old self.new }
    {
        if let Some(upper) = self.spares.pop() {
            divide(&mut self.chunks, place, upper);
        } else if self.chunks[place].is_full() {
            self.share_out();
        }
    }

    /// Makes a chunk of an area, where there is none.
    fn begin(&mut self, new: Record)
        requires none { self.old.chunks.items ≡ [] }
        requires roomy { IsRoomy self.old }
        requires few { 0 < vec_capacity self.old.whole }
        ensures areas { areas_in_chunks self.new.chunks.items ≡ new ∷ [] }
        ensures stays { StaysSane self.old self.new }
    {
        let Some(mut chunk) = self.spares.pop() else {
            unreachable!();
        };
        chunk.fill(&[new]);
        self.chunks.push_reserved(chunk);
    }

    /// Inserts an area into the chunk at a place.
    fn insert_at(&mut self, place: usize, new: Record)
        requires within { place < vec_len self.old.chunks }
        requires rise { BeginsRise (slice_index_or self.old.chunks.items place []) }
        requires sane { IsSaneStore self.old }
        requires few { length (areas_in_chunks self.old.chunks.items) < vec_capacity self.old.whole }
        ensures areas { areas_in_chunks self.new.chunks.items
            ≡ areas_in_chunks (set self.old.chunks.items place (insert_area new (slice_index_or self.old.chunks.items place []))) }
        ensures stays { StaysSane self.old self.new }
    {
        let chunk = &mut self.chunks[place];
        chunk.insert(new);
        if chunk.is_large() {
            self.relieve(place);
        }
    }

    /// Inserts an area: into the last chunk that begins below it, or else into the first.
    pub(crate) fn insert(&mut self, new: Record)
        requires sane { IsSaneStore self.old }
        requires rise { BeginsRise (areas_in_chunks self.old.chunks.items) }
        requires few { length (areas_in_chunks self.old.chunks.items) < vec_capacity self.old.whole }
        ensures areas { areas_in_chunks self.new.chunks.items ≡ insert_area new (areas_in_chunks self.old.chunks.items) }
        ensures stays { StaysSane self.old self.new }
    {
        if self.chunks.is_empty() {
            self.begin(new);
        } else {
            let count = beginning_below(self.chunks.as_slice(), new.span.lo);
            self.insert_at(count.saturating_sub(1), new);
        }
    }

    /// Removes an area from the chunk at a place.
    fn remove_at(&mut self, place: usize, old: &Record)
        requires within { place < vec_len self.old.chunks }
        requires ascend { BeginsAscend (slice_index_or self.old.chunks.items place []) }
        requires member { Contains (slice_index_or self.old.chunks.items place []) old.now }
        requires sane { IsSaneStore self.old }
        ensures areas { areas_in_chunks self.new.chunks.items
            ≡ areas_in_chunks (set self.old.chunks.items place (without (old.now ∷ []) (slice_index_or self.old.chunks.items place []))) }
        ensures stays { StaysSane self.old self.new }
    {
        let chunk = &mut self.chunks[place];
        chunk.remove(old);
        if chunk.is_empty() {
            let empty = self.chunks.remove(place);
            self.spares.push_reserved(empty);
        }
    }

    /// Removes an area, from the last chunk that begins at or below it.
    pub(crate) fn remove(&mut self, old: &Record)
        requires sane { IsSaneStore self.old }
        requires ascend { BeginsAscend (areas_in_chunks self.old.chunks.items) }
        requires member { Contains (areas_in_chunks self.old.chunks.items) old.now }
        ensures areas { areas_in_chunks self.new.chunks.items ≡ without (old.now ∷ []) (areas_in_chunks self.old.chunks.items) }
        ensures stays { StaysSane self.old self.new }
    {
        let count = beginning_by(self.chunks.as_slice(), old.span.lo);
        self.remove_at(count - 1, old);
    }
}
