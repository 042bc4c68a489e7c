//! Which lines of a trace fork, by their words.
ghost use Rattle.std.specs.Prelude.{◌≡◌};
ghost use Rattle.std.specs.List.{before_first};
ghost use Rattle.text_lexer.specs.Lines.{raw_lines, text_of};
ghost use Rattle.text_lexer.specs.Reading.{line_view};
ghost use Rattle.text_lexer.specs.Words.{is_blank, words_of};
ghost use Rattle.output.specs.Internal.Forks.{are_fork_words, first_fork, is_fork};

use text_lexer::{RawLine, begins_with_digit, first_line, is_name, text_after_words, text_of};

/// The number of the first line that forks, as its words say. Takes no memory.
pub(crate) fn first_fork(bytes: &[u8]) -> Option<u64>
    ensures { result ≡ first_fork (raw_lines bytes.now) }
{
    let mut rest = bytes;
    let mut number = 1;
    while !rest.is_empty() {
        let (line, after) = first_line(rest, number, bytes.len() - rest.len());
        if is_fork(&line) {
            return Some(number);
        }
        rest = after;
        number += 1;
    }
    None
}

/// Whether a line below the header forks, as its words say.
#[tactic(auto, unfolding(crate::specs::Internal::Forks::is_fork))]
fn is_fork(line: &RawLine) -> bool
    ensures { result ≡ is_fork (line_view line.now) }
{
    match text_of(line) {
        Ok(text) => line.number != 1 && begins_with_fork(text),
        Err(_) => false,
    }
}

/// Whether the first word of a text begins with a digit, and the second is `fork`.
fn begins_with_fork(text: &str) -> bool
    ensures { result ≡ are_fork_words (words_of text.now) }
{
    begins_with_digit(text_after_words(text, 0))
        && is_name(first_word(text_after_words(text, 1)), "fork")
}

/// What stands before the first blank of a text.
fn first_word(text: &str) -> &str
    ensures { result.now ≡ before_first is_blank text.now }
{
    let len = text
        .as_bytes()
        .iter()
        .position(|byte| *byte == b' ' || *byte == b'\t')
        .unwrap_or(text.len());
    let (word, _) = text.split_at(len);
    word
}
