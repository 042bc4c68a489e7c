//! The items of a node that may have room for so many pages.

ghost use Rattle.std.specs.Prelude.{◌≡◌, ◌≤◌, IfNone, IfSome};
ghost use Rattle.maple_node.specs.Nodes.{node_items};
ghost use Rattle.maple_gap.specs.Internal.Searches.{may_have_room, edge, chosen, nothing_chosen, chosen_from};
ghost use Rattle.maple_gap.specs.Internal.Spots.{IsNextRoom, HasNoRoom};

use maple_node::{NODE_WORDS, Place, item_gap, listed_at, width_of};

/// Which start is sought: the least or the greatest.
#[derive(Clone, Copy)]
pub(crate) enum Side {
    Low,
    High,
}

/// So many pages, which all lie from page `lo` up to page `hi`.
#[derive(Clone, Copy)]
pub(crate) struct Window {
    pub(crate) len: u64,
    pub(crate) lo: u64,
    pub(crate) hi: u64,
}

impl Window {
    /// Whether an item may have room: its largest gap is long enough, and so is its part in the window. An entry that may have
    /// room has it.
    #[tactic(auto, unfolding(crate::specs::Internal::Searches::may_have_room))]
    pub(crate) fn may_have(self, leaf: bool, place: Place) -> bool
        ensures { result ≡ may_have_room self leaf place.start place.item }
    {
        // Most items fail this first test, which is the cheaper one.
        if item_gap(leaf, place.start, place.item) < self.len {
            return false;
        }
        let part = place
            .item
            .end
            .min(self.hi)
            .saturating_sub(place.start.max(self.lo));
        self.len <= part
    }

    /// The least or the greatest start in an entry that has room.
    pub(crate) fn edge(self, side: Side, place: Place) -> u64
        ensures { result ≡ edge side self place.start place.item }
    {
        match side {
            Side::Low => place.start.max(self.lo),
            Side::High => place.item.end.min(self.hi).saturating_sub(self.len),
        }
    }
}

/// The items of a node that are searched: this one first, and the second where the first turns out to have no room.
#[derive(Clone, Copy)]
pub(crate) struct Choice {
    pub(crate) first: Option<Place>,
    pub(crate) second: Option<Place>,
}

impl Choice {
    /// Adds an item that may have room, and lies above those before.
    fn add(&mut self, side: Side, place: Place)
        ensures { self.new ≡ chosen side self.old place }
    {
        match side {
            Side::Low => {
                self.second = self.first.and(self.second.or(Some(place)));
                self.first = self.first.or(Some(place));
            }
            Side::High => {
                self.second = self.first;
                self.first = Some(place);
            }
        }
    }
}

/// Where the words of a node list an item, and the page where the item begins.
#[derive(Clone, Copy)]
struct Spot {
    place: usize,
    page: u64,
}

/// The first item from a spot on that may have room, if there is one.
fn next_room(window: Window, leaf: bool, words: &[u64; 32], from: Spot) -> Option<Spot>
    requires { from.place ≤ 32 }
    ensures some { IfSome result (IsNextRoom window leaf words.now from) }
    ensures none { IfNone result (HasNoRoom window leaf words.now from) }
{
    let width = width_of(leaf);
    let mut spot = from;
    while spot.place + width <= NODE_WORDS && words[spot.place] != 0 {
        let item = listed_at(leaf, words, spot.place);
        let here = Place {
            start: spot.page,
            item,
        };
        if window.may_have(leaf, here) {
            return Some(spot);
        }
        spot = Spot {
            place: spot.place + width,
            page: item.end,
        };
    }
    None
}

/// Which items of a node that begins at the page `start` are searched, as its words tell: of those that may have room the two that
/// lie lowest, or the two that lie highest.
pub(crate) fn choose(
    window: Window,
    side: Side,
    leaf: bool,
    start: u64,
    words: &[u64; 32],
) -> Choice
    ensures { result ≡ chosen_from side window leaf nothing_chosen start (node_items leaf words.now) }
{
    let mut choice = Choice {
        first: None,
        second: None,
    };
    let mut from = Spot {
        place: 0,
        page: start,
    };
    while let Some(spot) = next_room(window, leaf, words, from) {
        let item = listed_at(leaf, words, spot.place);
        let here = Place {
            start: spot.page,
            item,
        };
        choice.add(side, here);
        from = Spot {
            place: spot.place + width_of(leaf),
            page: item.end,
        };
    }
    choice
}
