//! The planner: it builds the new list of areas piece by piece, merging as it goes, and plans its difference from the old list.
ghost use Rattle.std.specs.Prelude.{◌≡◌, ◌<◌, ◌≤◌, ◌+◌, ◌++◌, [], ◌∷◌, None, Some, length, map, min, max};
ghost use Rattle.std.specs.Option.{option_len, option_or};
ghost use Rattle.mm_types.specs.Records.{IsValid};
ghost use Rattle.area_list.specs.Attributes.{with_attr};
ghost use Rattle.area_list.specs.Changes.{piece, parts_changed, joined_area};
ghost use Rattle.split_merge.specs.Internal.Becoming.{parts_outside_both, parts_left};
ghost use Rattle.split_merge.specs.Internal.Planner.{Event, detaching, replacing, closing, taken, left, spare, merging_behind, unsettled, planned_with, laid, reached, reaching, planned, changes_left, weight, GoesAlong};

use crate::becoming::Becoming;
use crate::plan::{Change, Plan};
use area_list::{AttrChange, joins, piece, with_attr};
use mm_types::{Record, Span};

/// The last area of the new list, which the next piece may extend, and the old area that it updates in place, if there is one.
#[derive(Clone, Copy)]
pub(crate) struct Merging {
    replaces: Option<Record>,
    area: Record,
}

/// The plan of a call, made in one walk by ascending page over the old list. An old area is updated in place to the new one that its first
/// piece is in, or, if no piece of it is left, to the one that covers its first page. If there is none, or that one updates another old area
/// already, it is detached.
#[derive(Clone, Copy)]
pub(crate) struct Planner {
    /// The area that the call maps, until its place in the list is reached.
    coming: Option<Record>,
    /// The last old area, until a piece of it is in the new list.
    pending: Option<Record>,
    /// The last area of the new list.
    merging: Option<Merging>,
}

/// Detaches the old area, if there is one.
fn detach(old: &Option<Record>, plan: &mut Plan)
    requires { length plan.old.changes + option_len old.now ≤ plan.old.room }
    ensures { plan.new ≡ record plan.old { changes = plan.old.changes ++ detaching old.now } }
{
    if let Some(old) = old {
        plan.push(Change::Detach(*old));
    }
}

/// Updates the old area in place to the new one, or adds the new one if there is no old one. An area that stays as it is makes no change.
fn replace(old: &Option<Record>, new: &Record, plan: &mut Plan)
    requires { length plan.old.changes < plan.old.room }
    ensures { plan.new ≡ record plan.old { changes = plan.old.changes ++ replacing old.now new.now } }
{
    match old {
        None => plan.push(Change::Add(*new)),
        Some(old) => {
            if old != new {
                plan.push(Change::Alter {
                    old: *old,
                    new: *new,
                });
            }
        }
    }
}

/// Plans the last area of the new list, if there is one: no piece extends it any more.
fn close(merging: &Option<Merging>, plan: &mut Plan)
    requires { length plan.old.changes + option_len merging.now ≤ plan.old.room }
    ensures { plan.new ≡ record plan.old { changes = plan.old.changes ++ closing merging.now } }
{
    if let Some(merging) = merging {
        replace(&merging.replaces, &merging.area, plan);
    }
}

/// Takes the pending old area, if the piece begins below its end, and so is a piece of it or covers some of it.
fn take_pending(pending: &mut Option<Record>, part: &Record) -> Option<Record>
    ensures taken { result ≡ taken pending.old part.now }
    ensures left { pending.new ≡ left pending.old part.now }
{
    match pending {
        Some(old) if part.span.lo < old.span.hi => pending.take(),
        _ => None,
    }
}

impl Merging {
    ghost use Rattle.std.specs.Prelude.{◌≡◌, ◌≤◌, ◌+◌, ◌++◌, length};
    ghost use Rattle.std.specs.Option.{option_len, option_or};
    ghost use Rattle.area_list.specs.Changes.{joined_area};
    ghost use Rattle.split_merge.specs.Internal.Planner.{detaching, spare};

    /// Extends the area by a piece that merges with it. It updates the old area of the piece, unless it updates another already: then that
    /// one is detached.
    fn go_on(&mut self, part: &Record, old: Option<Record>, plan: &mut Plan)
        requires { length plan.old.changes + 1 ≤ plan.old.room }
        ensures merging { self.new ≡ record { replaces = option_or self.old.replaces old; area = joined_area self.old.area part.now } }
        ensures plan { plan.new ≡ record plan.old { changes = plan.old.changes ++ detaching (spare self.old.replaces old) } }
    {
        self.area.span.hi = part.span.hi;
        if self.replaces.is_some() {
            detach(&old, plan);
        } else {
            self.replaces = old;
        }
    }
}

impl Planner {
    ghost use Rattle.std.specs.Prelude.{◌≡◌, ◌≤◌, ◌+◌, ◌++◌, [], ◌∷◌, None, length, map, min, max};
    ghost use Rattle.std.specs.Option.{option_len};
    ghost use Rattle.mm_types.specs.Records.{IsValid};
    ghost use Rattle.area_list.specs.Attributes.{with_attr};
    ghost use Rattle.area_list.specs.Changes.{piece, parts_changed};
    ghost use Rattle.split_merge.specs.Internal.Becoming.{parts_outside_both, parts_left};
    ghost use Rattle.split_merge.specs.Internal.Planner.{Event, detaching, merging_behind, unsettled, planned_with, laid, reached, reaching, planned, changes_left, weight, GoesAlong};

    /// A planner at the beginning of a list, for a call that maps at most one new area.
    pub(crate) fn new(coming: Option<Record>) -> Planner
        ensures { result ≡ record { coming = coming; pending = None; merging = None } }
    {
        Planner {
            coming,
            pending: None,
            merging: None,
        }
    }

    /// Appends a piece to the new list: it extends the last area if the two merge, and else begins another. Either updates the pending
    /// old area, if it updates none yet.
    fn lay(&mut self, part: &Record, plan: &mut Plan)
        requires { length plan.old.changes + 1 ≤ plan.old.room }
        ensures planner { self.new ≡ laid self.old part.now }
        ensures plan { plan.new ≡ record plan.old { changes = plan.old.changes ++ planned_with self.old.pending self.old.merging part.now } }
    {
        let old = take_pending(&mut self.pending, part);
        if let Some(merging) = &mut self.merging {
            if joins(&merging.area, part) {
                merging.go_on(part, old, plan);
                return;
            }
            replace(&merging.replaces, &merging.area, plan);
        }
        self.merging = Some(Merging {
            replaces: old,
            area: *part,
        });
    }

    /// Decides about the pending old area, of which no piece is left: the last area of the new list updates it, if that covers its first
    /// page and updates none yet, and else it is detached.
    fn settle(&mut self, plan: &mut Plan)
        requires { length plan.old.changes + option_len self.old.pending ≤ plan.old.room }
        ensures planner { self.new ≡ record self.old { pending = None; merging = merging_behind self.old.pending self.old.merging } }
        ensures plan { plan.new ≡ record plan.old { changes = plan.old.changes ++ detaching (unsettled self.old.pending self.old.merging) } }
    {
        if let Some(pending) = self.pending {
            self.pending = None;
            if let Some(merging) = &mut self.merging {
                if merging.replaces.is_none() && pending.span.lo < merging.area.span.hi {
                    merging.replaces = Some(pending);
                    return;
                }
            }
            plan.push(Change::Detach(pending));
        }
    }

    /// Appends the new area of the call, if it begins below the page and isn't in the list yet.
    fn reach(&mut self, page: u64, plan: &mut Plan)
        requires { length plan.old.changes + option_len self.old.coming ≤ plan.old.room }
        ensures planner { self.new ≡ reached self.old page }
        ensures plan { plan.new ≡ record plan.old { changes = plan.old.changes ++ reaching self.old page } }
    {
        if let Some(new) = self.coming {
            if new.span.lo < page {
                self.coming = None;
                self.lay(&new, plan);
            }
        }
    }

    /// Begins an old area: the one before it is decided, and this one is pending.
    fn begin(&mut self, area: &Record, plan: &mut Plan)
        requires { length plan.old.changes + (changes_left self.old + 1) ≤ plan.old.room }
        ensures { GoesAlong (Event.Begins area.now ∷ []) self.old self.new plan.old plan.new }
    {
        self.reach(area.span.lo, plan);
        self.settle(plan);
        self.pending = Some(*area);
    }

    /// Appends a piece of an old area, after the new area of the call if that begins below it.
    fn come_to(&mut self, part: &Record, plan: &mut Plan)
        requires { length plan.old.changes + (changes_left self.old + 1) ≤ plan.old.room }
        ensures { GoesAlong (Event.Comes part.now ∷ []) self.old self.new plan.old plan.new }
    {
        self.reach(part.span.lo, plan);
        self.lay(part, plan);
    }

    /// Appends the piece of an area from `lo` up to `hi`, if that has a page.
    fn come_to_piece(&mut self, area: &Record, lo: u64, hi: u64, plan: &mut Plan)
        requires valid { IsValid area.now }
        requires within { hi ≤ area.now.span.hi }
        requires room { length plan.old.changes + (changes_left self.old + length (piece area.now lo hi)) ≤ plan.old.room }
        ensures { GoesAlong (map Event.Comes (piece area.now lo hi)) self.old self.new plan.old plan.new }
    {
        if let Some(part) = piece(area, lo, hi) {
            self.come_to(&part, plan);
        }
    }

    /// Appends what the call leaves of an area: below the lower span, between the two, and above the upper.
    fn come_to_outside(&mut self, low: &Span, high: &Span, area: &Record, plan: &mut Plan)
        requires valid { IsValid area.now }
        requires room { length plan.old.changes + (changes_left self.old + length (parts_outside_both low.now high.now area.now))
            ≤ plan.old.room }
        ensures { GoesAlong (map Event.Comes (parts_outside_both low.now high.now area.now)) self.old self.new plan.old plan.new }
    {
        let whole = area.span;
        self.come_to_piece(area, whole.lo, whole.hi.min(low.lo), plan);
        self.come_to_piece(area, whole.lo.max(low.hi), whole.hi.min(high.lo), plan);
        self.come_to_piece(area, whole.lo.max(high.hi), whole.hi, plan);
    }

    /// Appends the piece of an area within the span, with its attributes changed, if that has a page.
    fn come_to_within(&mut self, span: &Span, change: AttrChange, area: &Record, plan: &mut Plan)
        requires valid { IsValid area.now }
        requires room { length plan.old.changes
            + (changes_left self.old + length (piece area.now (max area.now.span.lo span.now.lo) (min area.now.span.hi span.now.hi))) ≤ plan.old.room }
        ensures { GoesAlong
            (map Event.Comes (map (with_attr change) (piece area.now (max area.now.span.lo span.now.lo) (min area.now.span.hi span.now.hi))))
            self.old self.new plan.old plan.new }
    {
        let lo = area.span.lo.max(span.lo);
        let hi = area.span.hi.min(span.hi);
        if let Some(part) = piece(area, lo, hi) {
            self.come_to(&with_attr(change, &part), plan);
        }
    }

    /// Appends the pieces of an area: below the span, within it with its attributes changed, and above it.
    fn come_to_changed(&mut self, span: &Span, change: AttrChange, area: &Record, plan: &mut Plan)
        requires valid { IsValid area.now }
        requires room { length plan.old.changes + (changes_left self.old + length (parts_changed change span.now area.now)) ≤ plan.old.room }
        ensures { GoesAlong (map Event.Comes (parts_changed change span.now area.now)) self.old self.new plan.old plan.new }
    {
        let whole = area.span;
        self.come_to_piece(area, whole.lo, whole.hi.min(span.lo), plan);
        self.come_to_within(span, change, area, plan);
        self.come_to_piece(area, whole.lo.max(span.hi), whole.hi, plan);
    }

    /// Visits an area near the spans of the call: splits it where they begin and end, and drops or changes the pieces within.
    pub(crate) fn take(&mut self, becoming: &Becoming, area: &Record, plan: &mut Plan)
        requires valid { IsValid area.now }
        requires room { length plan.old.changes + (changes_left self.old + (1 + length (parts_left becoming.now area.now))) ≤ plan.old.room }
        ensures { GoesAlong (Event.Begins area.now ∷ map Event.Comes (parts_left becoming.now area.now)) self.old self.new plan.old plan.new }
    {
        self.begin(area, plan);
        match becoming {
            Becoming::Outside { low, high } => self.come_to_outside(low, high, area, plan),
            Becoming::Changed { span, change } => self.come_to_changed(span, *change, area, plan),
        }
    }

    /// Passes over an area between the two spans, which merges with nothing.
    pub(crate) fn pass(&mut self, area: &Record, plan: &mut Plan)
        requires { length plan.old.changes + changes_left self.old ≤ plan.old.room }
        ensures along { GoesAlong (Event.Passed area.now ∷ []) self.old self.new plan.old plan.new }
        ensures pending { self.new.pending ≡ None }
        ensures merging { self.new.merging ≡ None }
        ensures coming { self.new.coming ≡ (reached self.old area.now.span.lo).coming }
    {
        self.reach(area.span.lo, plan);
        self.settle(plan);
        close(&self.merging, plan);
        self.merging = None;
    }

    /// Ends the list: the new area, if it is above all others, and what is pending.
    pub(crate) fn finish(&mut self, plan: &mut Plan)
        requires { length plan.old.changes + changes_left self.old ≤ plan.old.room }
        ensures { plan.new ≡ record plan.old { changes = plan.old.changes ++ planned self.old [] } }
    {
        if let Some(new) = self.coming {
            self.lay(&new, plan);
        }
        self.settle(plan);
        close(&self.merging, plan);
    }
}
