ghost use Rattle.std.specs.Prelude.{◌≡◌, ◌≤◌, ◌<◌, ◌+◌, ◌++◌, IfOk, OnOk, OnErr, length, vec_capacity, vec_len};
ghost use Rattle.mm_types.specs.MapsText.{list_text};
ghost use Rattle.maps_print.specs.Appends.{AppendsFront};

use crate::line::push_line;
use mm_types::{AreaList, Files, NoMemory, Record};
use std::alloc::Global;

/// Appends a line for each area, in their order.
pub fn push_list(text: &mut Vec<u8>, areas: &[Record], files: &Files) -> Result<(), NoMemory>
    ensures ok { OnOk result (text.new.items ≡ text.old.items ++ list_text files.now areas.now) }
    ensures no_memory { OnErr result (AppendsFront text.old.items text.new.items (list_text files.now areas.now)) }
    ensures room { OnErr result (vec_capacity text.old < vec_len text.old + length (list_text files.now areas.now)) }
    ensures capacity { vec_capacity text.old ≤ vec_capacity text.new }
{
    for area in areas {
        push_line(text, area, files)?;
    }
    Ok(())
}

/// Prints a line for each area, in the order of the list.
pub fn print_list(alloc: Global, list: &AreaList, files: &Files) -> Result<Vec<u8>, NoMemory>
    ensures { IfOk result (λ text. text.items ≡ list_text files.now list.now) }
{
    let mut text = Vec::new(alloc);
    push_list(&mut text, list.items(), files)?;
    Ok(text)
}
