//! The words of a line.

ghost use Rattle.std.specs.Prelude.{◌≡◌, ◌+◌, ◌<◌, ◌≤◌, IfOk, OnErr, OnOk, bytes_eq, drop, length, map, nat_le, take, vec_capacity};
ghost use Rattle.std.specs.List.{position_or_len, before_first};
ghost use Rattle.std.specs.Str.{byte};
ghost use Rattle.text_lexer.specs.Words.{is_blank, is_part, words_of, after_blanks, after_word, text_after_words, is_header, is_comment, begins_with_digit};

use std::alloc::{AllocError, Global};
use std::simd::prelude::*;

/// How many bytes are tested together: those of a vector of 128 bits.
const LANES: usize = 16;

/// Spaces and tabs stand between words.
fn is_blank(byte: u8) -> bool
    ensures { result ≡ is_blank byte }
{
    byte == b' ' || byte == b'\t'
}

/// The place of the first byte that is no blank, or the length.
fn first_part(text: &[u8]) -> usize
    ensures { result ≡ position_or_len is_part text.now }
{
    text.iter()
        .position(|byte| !is_blank(*byte))
        .unwrap_or(text.len())
}

/// The place of the first blank, or the length.
fn first_blank(text: &[u8]) -> usize
    ensures { result ≡ position_or_len is_blank text.now }
{
    let low = first_low(text);
    if low == text.len() {
        return low;
    }
    if is_blank(text[low]) {
        return low;
    }
    text.iter()
        .position(|byte| is_blank(*byte))
        .unwrap_or(text.len())
}

/// The place of the first byte that is no greater than a space, or the length. A test of many bytes together passes over nearly every
/// word, and what it stops at is nearly always a blank.
fn first_low(text: &[u8]) -> usize
    ensures { result ≡ position_or_len (λ c. nat_le c (byte " ")) text.now }
{
    let mut from = 0;
    while LANES <= text.len() - from {
        let before = bytes_before_low(text, from);
        if before < LANES {
            return from + before;
        }
        from += LANES;
    }
    from + first_low_by_one(&text[from..])
}

/// How many of the `LANES` bytes from a place on come before the first that is no greater than a space.
fn bytes_before_low(text: &[u8], from: usize) -> usize
    requires { from + LANES ≤ length text.now }
    ensures { result ≡ position_or_len (λ c. nat_le c (byte " ")) (take LANES (drop from text.now)) }
{
    let low = u8x16::from_slice(&text[from..])
        .simd_le(u8x16::splat(b' '))
        .to_bitmask();
    if low == 0 {
        return LANES;
    }
    low.trailing_zeros() as usize
}

/// The place of the first byte that is no greater than a space, or the length, where fewer than `LANES` bytes are left.
fn first_low_by_one(text: &[u8]) -> usize
    ensures { result ≡ position_or_len (λ c. nat_le c (byte " ")) text.now }
{
    text.iter()
        .position(|byte| *byte <= b' ')
        .unwrap_or(text.len())
}

/// A text from its first byte on that is no blank.
#[tactic(auto, unfolding(crate::specs::Words::after_blanks))]
fn after_blanks(text: &str) -> &str
    ensures { result.now ≡ after_blanks text.now }
{
    let (_, rest) = text.split_at(first_part(text.as_bytes()));
    rest
}

/// What stands before the first blank of a text, and what follows.
#[tactic(auto, unfolding(crate::specs::Words::after_word))]
fn split_word(text: &str) -> (&str, &str)
    ensures word { result.0.now ≡ before_first is_blank text.now }
    ensures rest { result.1.now ≡ after_word text.now }
{
    text.split_at(first_blank(text.as_bytes()))
}

/// Whether a word is this name. Most other words differ in length, and a name of known length is compared in place.
pub fn is_name(word: &str, name: &str) -> bool
    ensures { result ≡ bytes_eq word.now name.now }
{
    word.len() == name.len() && word.starts_with(name)
}

/// The words of a text: what stands between blanks, which are spaces and tabs. It fails only where memory runs out.
pub fn words_of(alloc: Global, text: &str) -> Result<Vec<&str>, AllocError>
    ensures { IfOk result (λ words. map (λ word. word.now) words.items ≡ words_of text.now) }
{
    let mut words = Vec::new(alloc);
    set_words(&mut words, text)?;
    Ok(words)
}

/// Makes a list that of the words of a text, in the room that it has. It fails only where it needs more and memory runs out.
pub fn set_words<'a>(words: &mut Vec<&'a str>, text: &'a str) -> Result<(), AllocError>
    ensures words { OnOk result (map (λ word. word.now) words.new.items ≡ words_of text.now) }
    ensures room { OnErr result (vec_capacity words.old < length (words_of text.now)) }
{
    words.clear();
    let mut rest = after_blanks(text);
    while !rest.is_empty() {
        let (word, after) = split_word(rest);
        words.push(word)?;
        rest = after_blanks(after);
    }
    Ok(())
}

/// What follows so many words and the blanks after them.
#[tactic(auto, unfolding(crate::specs::Words::text_after_words))]
pub fn text_after_words(text: &str, count: usize) -> &str
    ensures { result.now ≡ text_after_words count text.now }
{
    let mut rest = text;
    for _ in 0..count {
        let (_, after) = split_word(after_blanks(rest));
        rest = after;
    }
    after_blanks(rest)
}

/// What stands before the first blank of a text.
pub fn first_word(text: &str) -> &str
    ensures { result.now ≡ before_first is_blank text.now }
{
    let (word, _) = split_word(text);
    word
}

/// Whether a text is the header of a format: two words, which are the name of the format and this version. No list of its words is made.
pub fn is_header(text: &str, format: &str, version: &str) -> bool
    ensures { result ≡ is_header format.now version.now (words_of text.now) }
{
    let behind = text_after_words(text, 1);
    if behind.is_empty() {
        return false;
    }
    let first = first_word(text_after_words(text, 0));
    if !is_name(first, format) {
        return false;
    }
    let second = first_word(behind);
    is_name(second, version) && text_after_words(text, 2).is_empty()
}

/// Whether a word begins with `#`, which makes a line a comment where it is the first.
#[tactic(auto, unfolding(crate::specs::Words::is_comment))]
pub fn is_comment(word: &str) -> bool
    ensures { result ≡ is_comment word.now }
{
    match word.as_bytes() {
        [first, ..] => *first == b'#',
        [] => false,
    }
}

/// Whether a word begins with a decimal digit.
#[tactic(auto, unfolding(crate::specs::Words::begins_with_digit))]
pub fn begins_with_digit(word: &str) -> bool
    ensures { result ≡ begins_with_digit word.now }
{
    match word.as_bytes() {
        [first, ..] => first.is_ascii_digit(),
        [] => false,
    }
}
