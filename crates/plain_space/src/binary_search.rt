//! Binary searches among areas in order.
ghost use Rattle.std.specs.Prelude.{◌≡◌, ◌≤◌, length, slice_get, take, None};
ghost use Rattle.std.specs.List.{last_or};
ghost use Rattle.split_merge.specs.Sorted.{begins_below, ends_by, BeginsRise, EndsRise};

use mm_types::Record;

/// How many areas begin below the page.
pub(crate) fn begins_below(areas: &[Record], page: u64) -> usize
    requires { BeginsRise areas.now }
    ensures value { result ≡ begins_below page areas.now }
    ensures within { result ≤ length areas.now }
{
    areas.partition_point(|area| area.span.lo < page)
}

/// How many areas end at or below the page.
pub(crate) fn ends_by(areas: &[Record], page: u64) -> usize
    requires { EndsRise areas.now }
    ensures value { result ≡ ends_by page areas.now }
    ensures within { result ≤ length areas.now }
{
    areas.partition_point(|area| area.span.hi <= page)
}

/// The area at a place, if there is one.
pub(crate) fn area_at(areas: &[Record], place: usize) -> Option<Record>
    ensures { result ≡ slice_get areas.now place }
{
    areas.get(place).copied()
}

/// The last of the areas before a place, if there is one.
pub(crate) fn last_of(areas: &[Record], place: usize) -> Option<Record>
    requires { place ≤ length areas.now }
    ensures { result ≡ last_or None (take place areas.now) }
{
    areas[..place].last().copied()
}
