//! Lines without the spaces at their end: that of an area without a name ends with one.
ghost use Rattle.std.specs.Prelude.{◌≡◌, ◌≤◌, ◌<◌, ◌+◌, ◌++◌, OnOk, OnErr, length, vec_capacity, vec_len};
ghost use Rattle.mm_types.specs.MapsText.{area_text};
ghost use Rattle.maps_print.specs.Trimmed.{trimmed_line, without_spaces_after};

use crate::line::push_line;
use mm_types::{Files, NoMemory, Record};

/// Appends the line of one area without the spaces at its end, and the newline that ends it.
pub fn push_trimmed(text: &mut Vec<u8>, area: &Record, files: &Files) -> Result<(), NoMemory>
    ensures ok { OnOk result (text.new.items ≡ text.old.items ++ trimmed_line files.now area.now) }
    ensures room { OnErr result (vec_capacity text.old < vec_len text.old + length (area_text files.now area.now)) }
    ensures capacity { vec_capacity text.old ≤ vec_capacity text.new }
{
    let start = text.len();
    push_line(text, area, files)?;
    let end = text.len() - 1;
    let len = without_spaces_after(&text[start..end]).len();
    text[start + len] = b'\n';
    text.truncate(start + len + 1);
    Ok(())
}

/// A text without the spaces at its end.
#[tactic(auto, unfolding(crate::specs::Trimmed::without_spaces_after))]
pub fn without_spaces_after(text: &[u8]) -> &[u8]
    ensures { result.now ≡ without_spaces_after text.now }
{
    let mut len = text.len();
    while 0 < len && text[len - 1] == b' ' {
        len -= 1;
    }
    &text[..len]
}
