//! What is said of a text.
ghost use Rattle.std.specs.Prelude.{◌≡◌, IfOk};
ghost use Rattle.output.specs.Judgements.{judgement_text};

use mm_types::NoMemory;
use std::alloc::Global;
use std::io::Write;

/// Whether a text is a legal output of a trace: else the number of its first bad line, counted from 1.
#[derive(Clone, Copy, Debug, PartialEq, Eq)]
pub enum Judgement {
    Legal,
    Bad { line: u64 },
}

/// A judgement as a line of text: `legal`, or `bad` and the number of the line. Fails only where memory runs out.
#[tactic(auto, unfolding(crate::specs::Judgements::judgement_text))]
pub fn judgement_text(alloc: Global, judgement: Judgement) -> Result<Vec<u8>, NoMemory>
    ensures { IfOk result (λ text. text.items ≡ judgement_text judgement) }
{
    let mut text = Vec::new(alloc);
    match judgement {
        Judgement::Legal => text.extend_from_slice(b"legal\n")?,
        Judgement::Bad { line } => write!(text, "bad {line}\n").map_err(|_| NoMemory)?,
    }
    Ok(text)
}
