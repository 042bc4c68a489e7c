//! Plans, carried out on a store.
ghost use Rattle.std.specs.Prelude.{◌≡◌, ◌≢◌, ◌≤◌, ◌+◌, ◌∷◌, [], length, All, AllPairs, Contains, vec_capacity};
ghost use Rattle.split_merge.specs.Plans.{applied, olds_of, news_of, without, with_all};
ghost use Rattle.split_merge.specs.Sorted.{BeginsRise, BeginsAscend};
ghost use Rattle.plain_space.specs.Internal.Chunks.{areas_in_chunks};
ghost use Rattle.plain_space.specs.Stored.{IsSaneStore, StaysSane, is_sealing, brings_sealed};

use crate::store::Store;
use split_merge::Change;

/// Removes the area that a change takes away.
fn remove_old(store: &mut Store, change: &Change)
    requires sane { IsSaneStore store.old }
    requires ascend { BeginsAscend (areas_in_chunks store.old.chunks.items) }
    requires member { All (Contains (areas_in_chunks store.old.chunks.items)) (olds_of (change.now ∷ [])) }
    ensures areas { areas_in_chunks store.new.chunks.items ≡ without (olds_of (change.now ∷ [])) (areas_in_chunks store.old.chunks.items) }
    ensures stays { StaysSane store.old store.new }
{
    if let Some(old) = change.old() {
        store.remove(&old);
    }
}

/// Removes the areas that the changes take away, from the last change on.
fn remove_olds(store: &mut Store, changes: &[Change])
    requires sane { IsSaneStore store.old }
    requires ascend { BeginsAscend (areas_in_chunks store.old.chunks.items) }
    requires members { All (Contains (areas_in_chunks store.old.chunks.items)) (olds_of changes.now) }
    requires distinct { AllPairs (λ a b. a ≢ b) (olds_of changes.now) }
    ensures areas { areas_in_chunks store.new.chunks.items ≡ without (olds_of changes.now) (areas_in_chunks store.old.chunks.items) }
    ensures stays { StaysSane store.old store.new }
{
    let mut left = changes.len();
    while left > 0 {
        left -= 1;
        remove_old(store, &changes[left]);
    }
}

/// Inserts the area that a change brings.
fn insert_new(store: &mut Store, change: &Change)
    requires sane { IsSaneStore store.old }
    requires rise { BeginsRise (areas_in_chunks store.old.chunks.items) }
    requires few { length (areas_in_chunks store.old.chunks.items) + length (news_of (change.now ∷ [])) ≤ vec_capacity store.old.whole }
    ensures areas { areas_in_chunks store.new.chunks.items ≡ with_all (news_of (change.now ∷ [])) (areas_in_chunks store.old.chunks.items) }
    ensures rise { BeginsRise (areas_in_chunks store.new.chunks.items) }
    ensures stays { StaysSane store.old store.new }
{
    if let Some(new) = change.new() {
        store.insert(new);
    }
}

/// Inserts the areas that the changes bring.
fn insert_news(store: &mut Store, changes: &[Change])
    requires sane { IsSaneStore store.old }
    requires rise { BeginsRise (areas_in_chunks store.old.chunks.items) }
    requires few { length (areas_in_chunks store.old.chunks.items) + length (news_of changes.now) ≤ vec_capacity store.old.whole }
    ensures areas { areas_in_chunks store.new.chunks.items ≡ with_all (news_of changes.now) (areas_in_chunks store.old.chunks.items) }
    ensures stays { StaysSane store.old store.new }
{
    for change in changes {
        insert_new(store, change);
    }
}

/// Whether a change brings a sealed area.
fn is_sealing(change: &Change) -> bool
    ensures { result ≡ is_sealing change.now }
{
    match change {
        Change::Alter { new, .. } | Change::Add(new) => new.attr.sealed,
        Change::Detach(_) => false,
    }
}

/// Whether the changes bring a sealed area.
pub(crate) fn brings_sealed(changes: &[Change]) -> bool
    ensures { result ≡ brings_sealed changes.now }
{
    changes.iter().any(|change| is_sealing(change))
}

/// Changes a list by the changes of a plan, one after the other.
#[tactic(auto, unfolding(split_merge::specs::Plans::applied))]
pub(crate) fn carry_out(store: &mut Store, changes: &[Change])
    requires sane { IsSaneStore store.old }
    requires ascend { BeginsAscend (areas_in_chunks store.old.chunks.items) }
    requires members { All (Contains (areas_in_chunks store.old.chunks.items)) (olds_of changes.now) }
    requires distinct { AllPairs (λ a b. a ≢ b) (olds_of changes.now) }
    requires few { length (applied changes.now (areas_in_chunks store.old.chunks.items)) ≤ vec_capacity store.old.whole }
    ensures areas { areas_in_chunks store.new.chunks.items ≡ applied changes.now (areas_in_chunks store.old.chunks.items) }
    ensures stays { StaysSane store.old store.new }
{
    remove_olds(store, changes);
    insert_news(store, changes);
}
