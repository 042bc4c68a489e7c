//! The numbers that words are.

ghost use Rattle.std.specs.Prelude.{◌≡◌, ◌≤◌, ◌<◌, length, Some, None, SomeIff, IfOk, if◌then◌else◌};
ghost use Rattle.std.specs.Char.{digit_value, is_digit};
ghost use Rattle.std.specs.List.{list_all};
ghost use Rattle.std.specs.Str.Parse.{digits_value};
ghost use Rattle.text_lexer.specs.Numbers.{decimal_of, digits_of, is_lower_digit, lower_hexadecimal_of, number, number_in, number_of};
ghost use Rattle.text_lexer.specs.Reading.{ReadsAs};

use crate::error::Cause;

/// So many digits of any base of at most 36 spell a value that fits 64 bits (36^12 < 2^63), so they need no test for overflow.
const FEW_DIGITS: usize = 12;

/// The number that a word is: 1 to 20 decimal digits, or `0x` and 1 to 16 hexadecimal digits of either case, with a
/// value below 2^64. There is none where the word is no number.
#[tactic(auto, unfolding(crate::specs::Numbers::number_of))]
pub fn number_of(word: &str) -> Option<u64>
    ensures { result ≡ number_of word.now }
{
    match word.strip_prefix("0x") {
        Some(digits) => digits_of(digits, 16, 16),
        None => decimal_of(word),
    }
}

/// The number that a word of decimal digits is: 1 to 20 of them and nothing else, with a value below 2^64. There is none for any
/// other word.
pub fn decimal_of(word: &str) -> Option<u64>
    ensures { result ≡ decimal_of word.now }
{
    digits_of(word, 10, 20)
}

/// The number that a word is; else `Cause::Number`.
#[tactic(auto, unfolding(crate::specs::Numbers::number))]
pub fn number(word: &str) -> Result<u64, Cause>
    ensures { ReadsAs (λ n. n) result (number word.now) }
{
    number_of(word).ok_or(Cause::Number)
}

/// A number from `low` up to and including `high`; else `Cause::Number`.
#[tactic(auto, unfolding(crate::specs::Numbers::number_in))]
pub fn number_in(word: &str, low: u64, high: u64) -> Result<u64, Cause>
    ensures value { ReadsAs (λ n. n) result (number_in low high word.now) }
    ensures above { IfOk result (λ n. low ≤ n) }
    ensures within { IfOk result (λ n. n ≤ high) }
{
    let n = number(word)?;
    if low <= n && n <= high {
        Ok(n)
    } else {
        Err(Cause::Number)
    }
}

/// The number that a word of lower-case hexadecimal digits is: 1 to `most` of them and nothing else, with a value below 2^64.
/// There is none for any other word.
#[tactic(auto, unfolding(crate::specs::Numbers::lower_hexadecimal_of))]
pub fn lower_hexadecimal_of(word: &str, most: usize) -> Option<u64>
    ensures { result ≡ lower_hexadecimal_of most word.now }
{
    if are_lower_digits(word) {
        digits_of(word, 16, most)
    } else {
        None
    }
}

/// Whether every byte is a digit of lower-case hexadecimal.
fn are_lower_digits(word: &str) -> bool
    ensures { result ≡ list_all is_lower_digit word.now }
{
    word.as_bytes().iter().all(|byte| is_lower_digit(*byte))
}

/// Whether a byte is a digit of lower-case hexadecimal.
#[tactic(auto, unfolding(crate::specs::Numbers::is_lower_digit))]
fn is_lower_digit(byte: u8) -> bool
    ensures { result ≡ is_lower_digit byte }
{
    matches!(byte, b'0'..=b'9' | b'a'..=b'f')
}

/// The value below 2^64 that at least one and at most `most` digits of a base, of either case, spell. There is none where the
/// word is anything else.
#[tactic(auto, unfolding(crate::specs::Numbers::digits_of))]
pub fn digits_of(word: &str, base: u32, most: usize) -> Option<u64>
    requires low { 2 ≤ base }
    requires high { base ≤ 36 }
    ensures { result ≡ digits_of base most word.now }
{
    let digits = word.as_bytes();
    if digits.is_empty() || most < digits.len() {
        return None;
    }
    if digits.len() <= FEW_DIGITS {
        return value_of_few(digits, base);
    }
    let mut value: u64 = 0;
    for byte in digits {
        let Some(digit) = digit_of(*byte, base) else {
            return None;
        };
        let Some(shifted) = value.checked_mul(base as u64) else {
            return None;
        };
        let Some(next) = shifted.checked_add(digit as u64) else {
            return None;
        };
        value = next;
    }
    Some(value)
}

/// The value that at most `FEW_DIGITS` digits of a base spell, which fits 64 bits. There is none where a byte is no digit.
fn value_of_few(digits: &[u8], base: u32) -> Option<u64>
    requires low { 2 ≤ base }
    requires high { base ≤ 36 }
    requires few { length digits.now ≤ FEW_DIGITS }
    ensures { result ≡ if list_all (λ c. is_digit c base) digits.now then Some (digits_value base digits.now) else None }
{
    let mut value: u64 = 0;
    for byte in digits {
        let Some(digit) = digit_of(*byte, base) else {
            return None;
        };
        value = value * base as u64 + digit as u64;
    }
    Some(value)
}

/// The value of a digit of a base, of either case. There is none where the byte is no digit of it.
fn digit_of(byte: u8, base: u32) -> Option<u32>
    requires { base ≤ 36 }
    ensures { SomeIff result (digit_value byte < base) (digit_value byte) }
{
    let value = digit_value(byte);
    if value < base { Some(value) } else { None }
}

/// The value of a digit or of a letter of either case, and 36 for any other byte. Small letters, of which addresses are made, are
/// tried before capitals.
fn digit_value(byte: u8) -> u32
    ensures { result ≡ digit_value byte }
{
    let digit = byte.wrapping_sub(b'0');
    if digit < 10 {
        return digit as u32;
    }
    let small = byte.wrapping_sub(b'a');
    if small < 26 {
        return small as u32 + 10;
    }
    let capital = byte.wrapping_sub(b'A');
    if capital < 26 {
        return capital as u32 + 10;
    }
    36
}
