//! Rows of at most one area of private anonymous memory.
ghost use Rattle.std.specs.Prelude.{◌≡◌, true, false, IfSome};
ghost use Rattle.mm_types.specs.Packed.{packed};
ghost use Rattle.mm_types.specs.Records.{IsValid};
ghost use Rattle.lock_core.specs.Rows.{is_detached};
ghost use Rattle.fault_path.specs.Internal.Small.{ShowsOneArea};

use mm_types::{AreaList, Record, pack};

/// The row that shows a list of at most one area.
pub(super) fn row_of(list: &AreaList) -> Option<[u64; 4]>
    ensures { IfSome result (ShowsOneArea list.now) }
{
    match list.items() {
        [] => Some([0; 4]),
        [area] => packed(area),
        _ => None,
    }
}

/// The row of an area.
fn packed(area: &Record) -> Option<[u64; 4]>
    ensures { IfSome result (λ row. (packed area.now ≡ row) × (is_detached row ≡ false)) }
{
    if !is_private(area) {
        return None;
    }
    let row = pack(area);
    if row[0] == 0 { None } else { Some(row) }
}

/// Whether it is a valid area of private anonymous memory.
#[tactic(auto, unfolding(mm_types::specs::Records::holds_all))]
fn is_private(area: &Record) -> bool
    ensures { result ≡ true → IsValid area.now }
{
    let most = area.attr.most;
    let span = area.span;
    span.lo < span.hi
        && span.hi <= 1 << 45
        && area.object == 0
        && area.offset == 0
        && !area.attr.shared
        && most.read
        && most.write
        && most.exec
}
