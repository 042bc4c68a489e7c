//! Parts of the lines of output.

ghost use Rattle.std.specs.Prelude.{◌≡◌, ◌++◌, OnOk};
ghost use Rattle.step_script.specs.Texts.{spaced, event_start, refusal_text};

use mm_types::NoMemory;
use std::io::Write;

/// Appends the start of a line: `L<line> `.
#[tactic(auto, unfolding(crate::specs::Texts::event_start))]
pub(crate) fn push_start(text: &mut Vec<u8>, number: u64) -> Result<(), NoMemory>
    ensures { OnOk result (text.new.items ≡ text.old.items ++ event_start number) }
{
    write!(text, "L{number} ").map_err(|_| NoMemory)
}

/// Appends a number after a space.
pub(crate) fn push_spaced(text: &mut Vec<u8>, number: u32) -> Result<(), NoMemory>
    ensures { OnOk result (text.new.items ≡ text.old.items ++ spaced number) }
{
    write!(text, " {number}").map_err(|_| NoMemory)
}

/// Appends a refusal: the number and the name of its reason, and the value of the reason, if it has one.
#[tactic(auto, unfolding(crate::specs::Texts::refusal_text))]
pub(crate) fn push_refusal(
    text: &mut Vec<u8>,
    name: &str,
    value: Option<u64>,
) -> Result<(), NoMemory>
    ensures { OnOk result (text.new.items ≡ text.old.items ++ refusal_text name.now value) }
{
    match value {
        Some(value) => write!(text, "refused {name} {value}").map_err(|_| NoMemory),
        None => write!(text, "refused {name}").map_err(|_| NoMemory),
    }
}
