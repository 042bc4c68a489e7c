//! Laws of the definitions. Each is the contract of a function that does nothing.

ghost use Rattle.std.specs.Prelude.{◌↔◌, List, map, IsPermutation};
ghost use Rattle.mm_types.specs.declared.area.Record.{Record};
ghost use Rattle.mm_types.specs.Packed.{packed};
ghost use Rattle.lock_core.specs.declared.stage.SlotState.{SlotState};
ghost use Rattle.lock_core.specs.Rows.{attached_rows, Exactly};

/// The rows show exactly a list, by weights, where the attached rows are the packed areas of the list in some order.
pub fn rows_by_weight()
    ensures { (slots : List SlotState) (areas : List Record) → Exactly slots areas
        ↔ IsPermutation (attached_rows slots) (map packed areas) }
{}
