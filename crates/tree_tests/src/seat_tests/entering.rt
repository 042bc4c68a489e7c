//! A whole call on a table whose areas are at most one, in slot 0, from the table's contracts alone.
ghost use Rattle.std.specs.Prelude.{◌≡◌, ◌<◌, ◌^◌, ◌++◌, ◌∷◌, [], length, true, false, None, IfSome};
ghost use Rattle.mm_types.specs.Packed.{packed};
ghost use Rattle.mm_types.specs.Records.{IsValid};
ghost use Rattle.area_rules.specs.Steps.{step, after};
ghost use Rattle.lock_core.specs.declared.stage.Stage.TheVariants.{Out};
ghost use Rattle.lock_core.specs.Facts.{list_after};
ghost use Rattle.lock_core.specs.Rows.{is_detached};
ghost use Rattle.vma_lock.specs.Views.{mark_at};
ghost use Rattle.vma_lock.specs.Seats.{slots_of, IsOfVmaTable, WritesVmaTable, lock_view, seen, HasTurn, lock_sight, journal, slots, stage, HoldsSlot, HasOpenCall, HasNoOpenCall};
ghost use Rattle.tree_tests.specs.Small.{AreFree, ShowsOne, IsMarking};

use mm_types::{AreaList, Entry, Record, Slot, pack};
use std::process::Abort;
use std::sync::Wait;
use std::thread;
use vma_lock::{ReaderSeat, VmaTable, WriterSeat};

/// A whole call while the reader holds slot 0: the caller's turn is lent, the first try to mark the slot is refused, the reader gives it
/// back, it is marked and written, and the entry is made. Answers how many readers the first try found.
pub(super) fn enter_held<R: Wait + Abort>(
    rt: &R,
    table: &VmaTable,
    writer: &mut WriterSeat,
    seat: &mut ReaderSeat,
    entry: Entry,
    row: [u64; 4],
) -> u64
    requires tables { WritesVmaTable writer.old table.now × IsOfVmaTable seat.old table.now }
    requires closed { HasNoOpenCall writer.old × ((lock_sight writer.old).turn ≡ None) }
    requires turn { HasTurn seat.old × (entry.caller ≡ (lock_view seat.old).caller) }
    requires held { HoldsSlot (stage seat.old) }
    requires room { length (journal writer.old) < 2 ^ 31 }
    requires reply { entry.reply ≡ (step (lock_sight writer.old).config (after (lock_sight writer.old).config (journal writer.old)) entry.call).reply }
    requires slots { AreFree (slots writer.old) }
    requires shows { ShowsOne (list_after (lock_sight writer.old).config (journal writer.old ++ entry ∷ [])) row }
    ensures tables { WritesVmaTable writer.new table.now × IsOfVmaTable seat.new table.now }
    ensures out { stage seat.new ≡ Out }
    ensures journal { journal writer.new ≡ journal writer.old ++ entry ∷ [] }
    ensures seen { seen seat.new ≡ journal writer.new }
{
    table.lend(writer, seat);
    table.begin(writer);
    let Err(left) = table.try_mark(writer, Slot(0)) else {
        panic!(rt; "no reader was found")
    };
    table.sub(seat);
    mark(rt, table, writer, Slot(0));
    table.write_row(writer, Slot(0), row);
    table.end(writer, entry);
    table.meet(writer, seat);
    left.readers
}

/// Marks a slot once no reader holds it.
fn mark<R: Wait>(rt: &R, table: &VmaTable, writer: &mut WriterSeat, slot: Slot)
    requires table { WritesVmaTable writer.old table.now }
    requires open { HasOpenCall writer.old }
    requires slot { slot.0 < slots_of table.now }
    ensures table { WritesVmaTable writer.new table.now }
    ensures marked { IsMarking (mark_at (lock_sight writer.old) slot.0 0) (lock_sight writer.new) }
{
    for _ in rt.forever() {
        if table.try_mark(writer, slot).is_ok() {
            return;
        }
        thread::yield_now();
    }
    unreachable!()
}

/// The row that shows a list of at most one area of private anonymous memory.
pub(super) fn row_of(list: &AreaList) -> Option<[u64; 4]>
    ensures { IfSome result (ShowsOne list.now) }
{
    match list.items() {
        [] => Some([0; 4]),
        [area] => packed(area),
        _ => None,
    }
}

/// The row of an area of private anonymous memory.
fn packed(area: &Record) -> Option<[u64; 4]>
    ensures { IfSome result (λ row. (packed area.now ≡ row) × (is_detached row ≡ false)) }
{
    if !is_private(area) {
        return None;
    }
    let row = pack(area);
    if row[0] == 0 { None } else { Some(row) }
}

/// Whether it is a valid area of private anonymous memory.
#[tactic(auto, unfolding(mm_types::specs::Records::holds_all))]
fn is_private(area: &Record) -> bool
    ensures { result ≡ true → IsValid area.now }
{
    let most = area.attr.most;
    let span = area.span;
    span.lo < span.hi
        && span.hi <= 1 << 45
        && area.object == 0
        && area.offset == 0
        && !area.attr.shared
        && most.read
        && most.write
        && most.exec
}
