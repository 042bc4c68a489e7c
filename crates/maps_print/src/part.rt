//! Parts of a line that are put together before they are appended, and the numbers in them.
ghost use Rattle.std.specs.Prelude.{◌≡◌, ◌≤◌, ◌<◌, ◌+◌, ◌++◌, ◌%◌, false, decimal, drop, length, replicate, take, vec_capacity, vec_len, OnErr, OnOk};
ghost use Rattle.std.specs.Fmt.{digit_glyph, digits};
ghost use Rattle.arrayvec.specs.ArrayVec.{array_vec_len};
ghost use Rattle.mm_types.specs.MapsText.{hex};

use arrayvec::ArrayVec;
use itoa::Buffer;
use mm_types::NoMemory;

/// Room for each part: the addresses take at most 40 characters, and a place at most 96, as far as `add_padded` and `add_decimal` say.
pub(crate) const MOST_CHARACTERS: usize = 96;

/// A part of a line, before it is appended.
pub(crate) type Part = ArrayVec<u8, MOST_CHARACTERS>;

/// How many digits a number of 64 bits has at most in hexadecimal.
const MOST_DIGITS: usize = 16;

/// At least as many digits as a number of 64 bits has in decimal.
const MOST_DECIMAL: usize = 40;

/// Adds bytes to a part that has room for them.
pub(crate) fn add(part: &mut Part, bytes: &[u8])
    requires { array_vec_len part.old + length bytes.now ≤ MOST_CHARACTERS }
    ensures items { part.new.items ≡ part.old.items ++ bytes.now }
    ensures len { array_vec_len part.new ≡ array_vec_len part.old + length bytes.now }
{
    part.try_extend_from_slice(bytes).unwrap()
}

/// Adds a number in decimal.
pub(crate) fn add_decimal(part: &mut Part, number: u64)
    requires { array_vec_len part.old + MOST_DECIMAL ≤ MOST_CHARACTERS }
    ensures items { part.new.items ≡ part.old.items ++ decimal number }
    ensures len { array_vec_len part.new ≤ array_vec_len part.old + MOST_DECIMAL }
{
    let mut buffer = Buffer::new();
    add(part, buffer.format(number).as_bytes())
}

/// Adds a number in hexadecimal, filled with leading zeros up to this width.
#[tactic(auto, unfolding(mm_types::specs::MapsText::hex))]
pub(crate) fn add_padded(part: &mut Part, number: u64, width: usize)
    requires width { width ≤ MOST_DIGITS }
    requires room { array_vec_len part.old + MOST_DIGITS ≤ MOST_CHARACTERS }
    ensures items { part.new.items ≡ part.old.items ++ hex width number }
    ensures len { array_vec_len part.new ≤ array_vec_len part.old + MOST_DIGITS }
{
    let (text, first) = hex_digits(number);
    add(part, &text[first.min(MOST_DIGITS - width)..])
}

/// Appends a number in decimal.
pub fn push_decimal(text: &mut Vec<u8>, number: u64) -> Result<(), NoMemory>
    ensures ok { OnOk result (text.new.items ≡ text.old.items ++ decimal number) }
    ensures no_memory { OnErr result (text.new.items ≡ text.old.items) }
    ensures room { OnErr result (vec_capacity text.old < vec_len text.old + length (decimal number)) }
    ensures capacity { vec_capacity text.old ≤ vec_capacity text.new }
{
    let mut buffer = Buffer::new();
    text.extend_from_slice(buffer.format(number).as_bytes())?;
    Ok(())
}

/// Appends a number in hexadecimal.
pub fn push_hex(text: &mut Vec<u8>, number: u64) -> Result<(), NoMemory>
    ensures ok { OnOk result (text.new.items ≡ text.old.items ++ digits 16 false number) }
    ensures no_memory { OnErr result (text.new.items ≡ text.old.items) }
    ensures room { OnErr result (vec_capacity text.old < vec_len text.old + length (digits 16 false number)) }
    ensures capacity { vec_capacity text.old ≤ vec_capacity text.new }
{
    let (digits, first) = hex_digits(number);
    text.extend_from_slice(&digits[first..])?;
    Ok(())
}

/// Zeros up to a place, and from there on the digits of a number in hexadecimal.
fn hex_digits(number: u64) -> ([u8; MOST_DIGITS], usize)
    ensures long { length result.0 ≡ MOST_DIGITS }
    ensures place { result.1 < MOST_DIGITS }
    ensures zeros { take result.1 result.0 ≡ replicate result.1 48 }
    ensures digits { drop result.1 result.0 ≡ digits 16 false number }
{
    let mut text = [b'0'; MOST_DIGITS];
    let mut first = MOST_DIGITS - 1;
    text[first] = glyph(number);
    let mut rest = number / 16;
    while rest > 0 {
        first -= 1;
        text[first] = glyph(rest);
        rest /= 16;
    }
    (text, first)
}

/// The last digit of a number in hexadecimal, in lower case.
fn glyph(number: u64) -> u8
    ensures { result ≡ digit_glyph false (number % 16) }
{
    let digit = (number % 16) as u8;
    if digit < 10 {
        b'0' + digit
    } else {
        b'a' + (digit - 10)
    }
}
