//! mremap(2): its arguments, and what they ask for, whatever the list of areas is.
ghost use Rattle.std.specs.Prelude.{◌≡◌, ◌≢◌, ◌≤◌, ◌<◌, ◌+◌, ◌-◌, ◌*◌, ◌^◌, ◌&&◌, List, nat_eq, nat_lt, not};
ghost use Rattle.mm_types.specs.declared.area.Record.{Record};
ghost use Rattle.mm_types.specs.declared.config.TheConstants.{PAGE_SIZE, MOST_OBJECT_PAGES};
ghost use Rattle.area_list.specs.Areas.{index_of, page_of};
ghost use Rattle.area_list.specs.Changes.{IsSmall};
ghost use Rattle.std.specs.Option.{option_or};
ghost use Rattle.mm_types.specs.Rows.{first_row};
ghost use Rattle.area_rules.specs.Tables.{pages_of};
ghost use Rattle.area_rules.specs.Mremap.{moves_to, may_move, old_range, new_range, lengthens};
ghost use Rattle.area_list.specs.Areas.{overlap};
ghost use Rattle.area_rules.specs.Mremap.{has_other_flag, is_new_misplaced, range_rows, mremap_rows};
ghost use Rattle.area_rules.specs.Mremap.{mremap_args, leaves_area, overflows_object, area_rows};
ghost use Rattle.area_rules.specs.Mremap.{carried_area, added_range};

use crate::munmap_request::range_of;
use crate::tables::{end_of, is_aligned, pages_of};
use area_list::{index_of, overlap, page_of};
use mm_types::{
    AreaList, Config, Errno, MOST_OBJECT_PAGES, MREMAP_FIXED, MREMAP_MAYMOVE, Record, Span,
    has_flag,
};

/// Where mremap(2) leaves an area: a list, and the page that the area begins at.
#[derive(Debug, Drop)]
pub struct Moved {
    pub areas: AreaList,
    pub page: u64,
}

/// The arguments of mremap(2). Addresses and lengths are in bytes.
#[derive(Clone, Copy, Debug, PartialEq, Eq)]
pub struct MremapArgs {
    pub old: u64,
    pub old_len: u64,
    pub new_len: u64,
    pub flags: u32,
    pub new: u64,
}

impl MremapArgs {
    /// The arguments as one.
    pub fn of(old: u64, old_len: u64, new_len: u64, flags: u32, new: u64) -> MremapArgs
        ensures { result ≡ mremap_args old old_len new_len flags new }
    {
        MremapArgs {
            old,
            old_len,
            new_len,
            flags,
            new,
        }
    }
}

/// Whether the area is to move to a fixed place.
pub fn moves_to(args: &MremapArgs) -> bool
    ensures { result ≡ moves_to args.now }
{
    has_flag(args.flags, MREMAP_FIXED)
}

/// Whether the area may move.
pub fn may_move(args: &MremapArgs) -> bool
    ensures { result ≡ may_move args.now }
{
    has_flag(args.flags, MREMAP_MAYMOVE)
}

/// The pages of the old range.
pub fn old_range(args: &MremapArgs) -> Span
    ensures { result ≡ old_range args.now }
{
    range_of(args.old, args.old_len)
}

/// The pages of the new range at its fixed place.
fn new_range(args: &MremapArgs) -> Span
    ensures { result ≡ new_range args.now }
{
    range_of(args.new, args.new_len)
}

/// Whether the range gets longer.
pub fn lengthens(args: &MremapArgs) -> bool
    ensures { result ≡ lengthens args.now }
{
    pages_of(args.old_len) < pages_of(args.new_len)
}

/// Whether another flag than the two is set.
#[tactic(auto, unfolding(crate::specs::Mremap::has_other_flag))]
fn has_other_flag(args: &MremapArgs) -> bool
    ensures { result ≡ has_other_flag args.now }
{
    MREMAP_MAYMOVE + MREMAP_FIXED < args.flags
}

/// Whether the fixed place is not aligned, or past the limit.
#[tactic(auto, unfolding(crate::specs::Mremap::is_new_misplaced))]
fn is_new_misplaced(config: &Config, args: &MremapArgs) -> bool
    ensures { result ≡ is_new_misplaced config.now args.now }
{
    moves_to(args)
        && (!is_aligned(args.new) || u128::from(config.limit) < end_of(args.new, args.new_len))
}

/// Whether a fixed place is named without MREMAP_MAYMOVE.
fn is_stuck(args: &MremapArgs) -> bool
    ensures { result ≡ (moves_to args.now && not (may_move args.now)) }
{
    moves_to(args) && !may_move(args)
}

/// Whether the fixed place is below the lowest address that may be mapped.
fn is_too_low(config: &Config, args: &MremapArgs) -> bool
    ensures { result ≡ (moves_to args.now && nat_lt args.now.new config.now.min) }
{
    moves_to(args) && args.new < config.min
}

/// Whether the fixed place overlaps the old range.
fn overlaps_itself(args: &MremapArgs) -> bool
    ensures { result ≡ (moves_to args.now && overlap (old_range args.now) (new_range args.now)) }
{
    moves_to(args) && overlap(old_range(args), new_range(args))
}

/// The first test of mremap(2)'s request that refuses it, of those that ask nothing of the list of areas. Where none does,
/// neither length is 0, and the old range ends at or below the limit.
#[tactic(auto, unfolding(crate::specs::Mremap::mremap_rows))]
pub fn mremap_refusal(config: &Config, args: &MremapArgs) -> Option<Errno>
    ensures refusal { (areas : List Record) → first_row (mremap_rows config.now areas args.now)
        ≡ option_or result (first_row (range_rows areas args.now)) }
    ensures some_old { result ≡ None → args.now.old_len ≢ 0 }
    ensures some_new { result ≡ None → args.now.new_len ≢ 0 }
    ensures within { result ≡ None → args.now.old + PAGE_SIZE * pages_of args.now.old_len ≤ config.now.limit }
{
    if has_other_flag(args) {
        return Some(Errno::Einval);
    }
    if is_stuck(args) {
        return Some(Errno::Einval);
    }
    if !is_aligned(args.old) {
        return Some(Errno::Einval);
    }
    if args.new_len == 0 {
        return Some(Errno::Einval);
    }
    if args.old_len == 0 {
        return Some(Errno::Einval);
    }
    if u128::from(config.limit) < end_of(args.old, args.old_len) {
        return Some(Errno::Efault);
    }
    if is_new_misplaced(config, args) {
        return Some(Errno::Einval);
    }
    if is_too_low(config, args) {
        return Some(Errno::Eperm);
    }
    if overlaps_itself(args) {
        return Some(Errno::Einval);
    }
    None
}

/// Whether the pages that stay go past the end of the area, and the call asks for more than to shrink in place.
#[tactic(auto, unfolding(crate::specs::Mremap::leaves_area))]
fn leaves_area(area: &Record, args: &MremapArgs) -> bool
    ensures { result ≡ leaves_area args.now area.now }
{
    let stay = pages_of(args.old_len).min(pages_of(args.new_len));
    (moves_to(args) || lengthens(args)) && area.span.hi < page_of(args.old) + stay
}

/// Whether the range grows, and would go past the greatest index of the area's object.
#[tactic(auto, unfolding(crate::specs::Mremap::overflows_object))]
fn overflows_object(area: &Record, args: &MremapArgs) -> bool
    requires { IsSmall area.now }
    ensures { result ≡ overflows_object args.now area.now }
{
    if !lengthens(args) {
        return false;
    }
    let end = u128::from(index_of(area, page_of(args.old))) + u128::from(pages_of(args.new_len));
    area.object != 0 && u128::from(MOST_OBJECT_PAGES) < end
}

/// The first test that refuses the call, of those on the area that has the first page of the old range.
pub fn area_refusal(area: &Record, args: &MremapArgs) -> Option<Errno>
    requires { IsSmall area.now }
    ensures { result ≡ first_row (area_rows args.now area.now) }
{
    if leaves_area(area, args) {
        return Some(Errno::Efault);
    }
    overflows_object(area, args).then_some(Errno::Einval)
}

/// An area with the attributes and the object of the old one, from a page of the old range on.
#[tactic(auto, unfolding(crate::specs::Mremap::carried_area))]
pub fn carried_area(area: &Record, from: u64, span: Span) -> Record
    requires small { IsSmall area.now }
    requires low { from ≤ 2 ^ 54 }
    ensures { result ≡ carried_area area.now from span }
{
    Record {
        span,
        offset: index_of(area, from),
        ..*area
    }
}

/// The pages past the old range that a longer one takes.
#[tactic(auto, unfolding(crate::specs::Mremap::added_range))]
pub fn added_range(args: &MremapArgs) -> Span
    ensures value { result ≡ added_range args.now }
    ensures low { result.lo ≤ 2 ^ 54 }
{
    let first = page_of(args.old);
    Span {
        lo: first + pages_of(args.old_len),
        hi: first + pages_of(args.new_len),
    }
}
