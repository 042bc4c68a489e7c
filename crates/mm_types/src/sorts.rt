//! The law of the stable sort by a number, for the crates that sort: histories by caller, rows by page. Its lemmas are over lists
//! of any type.

ghost use Rattle.std.specs.Prelude.{◌≡◌, ℕ, List, IsSortedByKey};
ghost use Rattle.std.specs.List.Sorted.{IsStableByKey};
ghost use Rattle.std.specs.Ordering.{nat_cmp};
ghost use Rattle.mm_types.specs.Sorts.{sort_by};

/// Any stable sort by a number makes the list that the definition of a sort has: where a list is sorted by it, and the
/// elements of each number are those of the old list, in the same order, it is the old list sorted.
pub fn sort_by_is_stable()
    ensures { (key : ℕ → ℕ) (old new : List ℕ) → IsSortedByKey key nat_cmp new → IsStableByKey key nat_cmp old new
        → new ≡ sort_by key old }
{}
