//! The attached rows of slots, and where they differ from a list.

ghost use Rattle.std.specs.Prelude.{◌≡◌, IfOk, All, map};
ghost use Rattle.mm_types.specs.Packed.{packed};
ghost use Rattle.mm_types.specs.Records.{IsValid};
ghost use Rattle.lock_core.specs.Rows.{is_detached};
ghost use Rattle.lock_core.specs.Refusals.{first_page, sorted_rows, first_difference};

use crate::stage::SlotState;
use mm_types::{MOST_AREA_END, NoMemory, Record, pack, unpack};
use std::alloc::Global;

/// The page past all areas, by which rows of no area are sorted.
const PAST_ALL: u64 = MOST_AREA_END;

/// Whether a row is that of no area.
fn is_detached(row: &[u64; 4]) -> bool
    ensures { result ≡ is_detached row.now }
{
    row.iter().all(|word| *word == 0)
}

/// The page by which a row is sorted.
#[tactic(auto, unfolding(crate::specs::Refusals::first_page))]
fn first_page(row: &[u64; 4]) -> u64
    ensures { result ≡ first_page row.now }
{
    match unpack(row) {
        Some(area) => area.span.lo,
        None => PAST_ALL,
    }
}

/// The attached rows in the order of the list.
pub(crate) fn sorted_rows(alloc: Global, slots: &[SlotState]) -> Result<Vec<[u64; 4]>, NoMemory>
    ensures { IfOk result (λ rows. rows.items ≡ sorted_rows slots.now) }
{
    let mut rows = Vec::new(alloc);
    for slot in slots {
        let row = slot.row;
        if !is_detached(&row) {
            rows.push(row)?;
        }
    }
    rows.sort_by_key(|row| first_page(row))?;
    Ok(rows)
}

/// The first place at which rows differ from those of a list.
pub(crate) fn first_difference(rows: &[[u64; 4]], areas: &[Record]) -> Option<usize>
    requires { All IsValid areas.now }
    ensures { result ≡ first_difference rows.now (map packed areas.now) }
{
    for (place, row) in rows.iter().enumerate() {
        if place >= areas.len() {
            return Some(place);
        }
        let words = pack(&areas[place]);
        if words != *row {
            return Some(place);
        }
    }
    (rows.len() < areas.len()).then_some(rows.len())
}
