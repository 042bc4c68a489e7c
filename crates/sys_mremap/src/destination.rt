//! Where the pages of the old range go.
ghost use Rattle.std.specs.Prelude.{◌≡◌, ◌≤◌};
ghost use Rattle.area_list.specs.Areas.{IsCanonical};
ghost use Rattle.area_rules.specs.Mremap.{has_room};
ghost use Rattle.area_rules.specs.Placement.{bounds_of};
ghost use Rattle.area_rules.specs.Tables.{pages_of};
ghost use Rattle.sys_mremap.specs.Internal.Cases.{goes_elsewhere, other_place};

use area_list::page_of;
use area_rules::{MremapArgs, fits, lengthens, may_move, moves_to, pages_of};
use mm_types::Config;
use split_merge::{Areas, is_free};

/// Whether the range that is added is free and ends at or below the limit.
#[tactic(auto, unfolding(area_rules::specs::Mremap::has_room))]
fn has_room<A: Areas>(config: &Config, areas: &A, args: &MremapArgs) -> bool
    requires { IsCanonical (A.bounds areas.now).limit (A.list areas.now) }
    ensures { result ≡ has_room config.now (A.list areas.now) args.now }
{
    let first = page_of(args.old);
    let (old_pages, new_pages) = (pages_of(args.old_len), pages_of(args.new_len));
    let added = new_pages.saturating_sub(old_pages);
    fits(first, new_pages, page_of(config.limit)) && is_free(areas, added, first + old_pages)
}

/// Whether the range goes elsewhere: to a fixed place, or since it grows where it has no room.
#[tactic(auto, unfolding(crate::specs::Internal::Cases::goes_elsewhere))]
pub(crate) fn goes_elsewhere<A: Areas>(config: &Config, areas: &A, args: &MremapArgs) -> bool
    requires { IsCanonical (A.bounds areas.now).limit (A.list areas.now) }
    ensures { result ≡ goes_elsewhere config.now (A.list areas.now) args.now }
{
    moves_to(args) || (lengthens(args) && !has_room(config, areas, args))
}

/// The page that a range goes to: the fixed one, or where the list has a place for it, if it may move.
#[tactic(auto, unfolding(crate::specs::Internal::Cases::other_place, area_rules::specs::Mremap::new_place))]
pub(crate) fn other_place<A: Areas>(config: &Config, areas: &A, args: &MremapArgs) -> Option<u64>
    requires bounds { A.bounds areas.now ≡ bounds_of config.now }
    requires some_pages { 1 ≤ pages_of args.now.new_len }
    ensures { result ≡ other_place config.now (A.list areas.now) args.now }
{
    if moves_to(args) {
        return Some(page_of(args.new));
    }
    if !may_move(args) {
        return None;
    }
    let page = areas.place(pages_of(args.new_len))?;
    Some(page.0)
}
