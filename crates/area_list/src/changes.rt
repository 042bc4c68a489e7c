//! Changes of a list of areas.
ghost use Rattle.std.specs.Prelude.{◌≡◌, ◌≢◌, ◌<◌, ◌+◌, ◌-◌, ◌^◌, ◌++◌, All, IfOk, OnOk, map};
ghost use Rattle.std.specs.Option.{option_to_list};
ghost use Rattle.area_list.specs.Changes.{IsSmall, piece, parts_outside, cut, merge, insert_area, put};
ghost use Rattle.area_list.specs.Attributes.{with_attr};
ghost use Rattle.area_list.specs.Changes.{parts_changed, changed_list};

use crate::areas::{index_of, joins};
use crate::attributes::{AttrChange, with_attr};
use mm_types::{NoMemory, Record, Span};
use std::alloc::Global;

/// The part of an area from the page `lo` up to `hi`, if it has a page.
#[tactic(auto, unfolding(crate::specs::Changes::piece))]
pub fn piece(area: &Record, lo: u64, hi: u64) -> Option<Record>
    requires { area.now.object ≢ 0 → area.now.offset + (hi - area.now.span.lo) < 2 ^ 64 }
    ensures { option_to_list result ≡ piece area.now lo hi }
{
    if lo < hi {
        Some(Record {
            span: Span { lo, hi },
            offset: index_of(area, lo),
            ..*area
        })
    } else {
        None
    }
}

/// Adds the part of an area from `lo` up to `hi`, if it has a page.
fn push_piece(parts: &mut Vec<Record>, area: &Record, lo: u64, hi: u64) -> Result<(), NoMemory>
    requires { area.now.object ≢ 0 → area.now.offset + (hi - area.now.span.lo) < 2 ^ 64 }
    ensures { OnOk result (parts.new.items ≡ parts.old.items ++ piece area.now lo hi) }
{
    if let Some(part) = piece(area, lo, hi) {
        parts.push(part)?;
    }
    Ok(())
}

/// Adds what lies outside the span: the part of the area below it, and the part above it.
#[tactic(auto, unfolding(crate::specs::Changes::parts_outside))]
fn push_parts_outside(parts: &mut Vec<Record>, span: Span, area: &Record) -> Result<(), NoMemory>
    requires { IsSmall area.now }
    ensures { OnOk result (parts.new.items ≡ parts.old.items ++ parts_outside span area.now) }
{
    push_piece(parts, area, area.span.lo, area.span.hi.min(span.lo))?;
    push_piece(parts, area, area.span.lo.max(span.hi), area.span.hi)
}

/// The list without the pages of the span.
pub fn cut(alloc: Global, span: Span, areas: &[Record]) -> Result<Vec<Record>, NoMemory>
    requires { All IsSmall areas.now }
    ensures { IfOk result (λ v. v.items ≡ cut span areas.now) }
{
    let mut parts = Vec::new(alloc);
    for area in areas {
        push_parts_outside(&mut parts, span, area)?;
    }
    Ok(parts)
}

/// The list with neighbours joined from the left until no two join.
pub fn merge(alloc: Global, areas: &[Record]) -> Result<Vec<Record>, NoMemory>
    ensures { IfOk result (λ v. v.items ≡ merge areas.now) }
{
    let mut merged = Vec::new(alloc);
    let [first, rest @ ..] = areas else {
        return Ok(merged);
    };
    let mut first = *first;
    for next in rest {
        if joins(&first, next) {
            first.span.hi = next.span.hi;
        } else {
            merged.push(first)?;
            first = *next;
        }
    }
    merged.push(first)?;
    Ok(merged)
}

/// Puts the area in its place by its lowest page.
fn insert_area(areas: &mut Vec<Record>, area: Record) -> Result<(), NoMemory>
    ensures { OnOk result (areas.new.items ≡ insert_area area areas.old.items) }
{
    let mut place = 0;
    while place < areas.len() && areas[place].span.lo < area.span.lo {
        place += 1;
    }
    areas.insert(place, area)?;
    Ok(())
}

/// The list with this area over what was there.
pub fn put(alloc: Global, area: Record, areas: &[Record]) -> Result<Vec<Record>, NoMemory>
    requires { All IsSmall areas.now }
    ensures { IfOk result (λ v. v.items ≡ put area areas.now) }
{
    let mut areas = cut(alloc, area.span, areas)?;
    insert_area(&mut areas, area)?;
    merge(alloc, areas.as_slice())
}

/// Adds the part of an area from `lo` up to `hi` with its attributes changed, if it has a page.
#[tactic(auto, using(crate::proofs::NewAttributes::piece_with_attr))]
fn push_changed_piece(
    parts: &mut Vec<Record>,
    change: AttrChange,
    area: &Record,
    lo: u64,
    hi: u64,
) -> Result<(), NoMemory>
    requires { area.now.object ≢ 0 → area.now.offset + (hi - area.now.span.lo) < 2 ^ 64 }
    ensures { OnOk result (parts.new.items ≡ parts.old.items ++ map (with_attr change) (piece area.now lo hi)) }
{
    push_piece(parts, &with_attr(change, area), lo, hi)
}

/// Adds an area with its attributes changed on its pages in the span: the parts below, within and above.
#[tactic(auto, unfolding(crate::specs::Changes::parts_changed))]
fn push_parts_changed(
    parts: &mut Vec<Record>,
    change: AttrChange,
    span: Span,
    area: &Record,
) -> Result<(), NoMemory>
    requires { IsSmall area.now }
    ensures { OnOk result (parts.new.items ≡ parts.old.items ++ parts_changed change span area.now) }
{
    push_piece(parts, area, area.span.lo, area.span.hi.min(span.lo))?;
    push_changed_piece(
        parts,
        change,
        area,
        area.span.lo.max(span.lo),
        area.span.hi.min(span.hi),
    )?;
    push_piece(parts, area, area.span.lo.max(span.hi), area.span.hi)
}

/// The list with the attributes changed on each mapped page of the span.
pub fn changed_list(
    alloc: Global,
    change: AttrChange,
    span: Span,
    areas: &[Record],
) -> Result<Vec<Record>, NoMemory>
    requires { All IsSmall areas.now }
    ensures { IfOk result (λ v. v.items ≡ changed_list change span areas.now) }
{
    let mut parts = Vec::new(alloc);
    for area in areas {
        push_parts_changed(&mut parts, change, span, area)?;
    }
    merge(alloc, parts.as_slice())
}
