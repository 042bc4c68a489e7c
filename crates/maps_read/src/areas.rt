//! The areas that the lines of a maps text show.

ghost use Rattle.std.specs.Prelude.{◌≡◌, ◌<◌, ◌≤◌, IfOk, length};
ghost use Rattle.maps_read.specs.Retracing.{area_of, may_follow, may_map, is_text_of};

use crate::MapsLine;
use area_list::{joins, page_of};
use maps_print::print_line;
use mm_types::{
    ADDRESS_LIMIT, Attr, DEFAULT_MIN, Files, MOST_AREAS, NoMemory, Prot, Record, Span, is_valid,
};
use std::alloc::Global;

/// All accesses: so much may be allowed later of each mapping that a trace of ours makes.
const ALL_ACCESSES: Prot = Prot {
    read: true,
    write: true,
    exec: true,
};

/// The area of a line that maps this object.
#[tactic(auto, unfolding(crate::specs::Retracing::area_of))]
pub(crate) fn area_of(object: u32, line: &MapsLine) -> Record
    ensures { result ≡ area_of object line.now }
{
    Record {
        span: Span {
            lo: page_of(line.lo),
            hi: page_of(line.hi),
        },
        attr: Attr {
            prot: line.prot,
            most: ALL_ACCESSES,
            shared: line.shared,
            grows: false,
            sealed: false,
            heap: false,
        },
        object,
        offset: page_of(line.offset),
    }
}

/// Whether an area may follow others in a sound list of the default configuration.
#[tactic(auto, unfolding(crate::specs::Retracing::may_follow))]
fn may_follow(areas: &[Record], area: &Record) -> bool
    ensures { result ≡ may_follow areas.now area.now }
{
    is_valid(area)
        && area.span.hi <= page_of(ADDRESS_LIMIT)
        && areas.len() < MOST_AREAS as usize
        && areas
            .last()
            .is_none_or(|last| last.span.hi <= area.span.lo && !joins(last, area))
}

/// Whether a line may be mapped behind areas, as that of an object: its area may follow, and it does not begin below the minimum of the
/// default configuration.
pub(crate) fn may_map(areas: &[Record], object: u32, line: &MapsLine) -> bool
    ensures { result ≡ may_map areas.now object line.now }
{
    may_follow(areas, &area_of(object, line)) && DEFAULT_MIN <= line.lo
}

/// Whether a text is that of the line of an area that maps nothing or the one of these files.
pub(crate) fn is_text_of(
    alloc: Global,
    files: &Files,
    line: &MapsLine,
    text: &[u8],
) -> Result<bool, NoMemory>
    requires { length files.now ≤ 1 }
    ensures { IfOk result (λ is. is ≡ is_text_of files.now line.now text.now) }
{
    let object = files.items().len() as u32;
    let printed = print_line(alloc, &area_of(object, line), files)?;
    match printed.as_slice().strip_suffix(b"\n") {
        Some(shown) => Ok(shown == text),
        None => Ok(false),
    }
}
