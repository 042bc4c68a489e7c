//! What the text of a line says.

ghost use Rattle.std.specs.Prelude.{ℕ, ◌≡◌, ◌<◌, ◌≤◌, List};
ghost use Rattle.text_lexer.specs.Reading.{ReadsAs};
ghost use Rattle.maps_read.specs.Fields.{front, behind, leading_spaces, without_leading_spaces, read_hexadecimal, decimal, bounds, read_maps_device, read_letter, read_perms, maps_line_of_words, read_maps_line, with_line_name};

use crate::maps::MapsLine;
use mm_types::{Prot, Text};
use text_lexer::{Cause, decimal_of, lower_hexadecimal_of};

/// What stands before the first such character of a text, and what follows it: all of the text and nothing where there is none.
fn cut(text: &str, at: char) -> (&str, &str)
    requires { at < 128 }
    ensures front { result.0.now ≡ front at text.now }
    ensures behind { result.1.now ≡ behind at text.now }
{
    text.split_once(at).unwrap_or((text, ""))
}

/// How many spaces a text begins with.
#[tactic(auto, unfolding(crate::specs::Fields::leading_spaces))]
fn leading_spaces(text: &[u8]) -> usize
    ensures { result ≡ leading_spaces text.now }
{
    text.iter()
        .position(|byte| *byte != b' ')
        .unwrap_or(text.len())
}

/// A text without the spaces that it begins with.
#[tactic(auto, unfolding(crate::specs::Fields::without_leading_spaces))]
fn without_leading_spaces(text: &str) -> &str
    ensures { result.now ≡ without_leading_spaces text.now }
{
    let (_, rest) = text.split_at(leading_spaces(text.as_bytes()));
    rest
}

/// A number of 1 to so many digits of lower-case hexadecimal.
#[tactic(auto, unfolding(crate::specs::Fields::read_hexadecimal))]
fn hexadecimal(word: &str, most: usize) -> Result<u64, Cause>
    ensures { ReadsAs (λ n. n) result (read_hexadecimal most word.now) }
{
    lower_hexadecimal_of(word, most).ok_or(Cause::MapsLine)
}

/// A number of 1 to 20 decimal digits, below 2^64.
#[tactic(auto, unfolding(crate::specs::Fields::decimal))]
fn decimal(word: &str) -> Result<u64, Cause>
    ensures { ReadsAs (λ n. n) result (decimal word.now) }
{
    decimal_of(word).ok_or(Cause::MapsLine)
}

/// The addresses of a line, `<lo>-<hi>`.
#[tactic(auto, unfolding(crate::specs::Fields::bounds))]
fn bounds(word: &str) -> Result<(u64, u64), Cause>
    ensures { ReadsAs (λ pair. (pair.0, pair.1)) result (bounds word.now) }
{
    let (lo, hi) = cut(word, '-');
    let lo = hexadecimal(lo, 16)?;
    let hi = hexadecimal(hi, 16)?;
    Ok((lo, hi))
}

/// A half of the number of a device.
fn device_part(word: &str) -> Result<u32, Cause>
    ensures { ReadsAs (λ n. n) result (read_hexadecimal 8 word.now) }
{
    let part = hexadecimal(word, 8)?;
    Ok(part as u32)
}

/// The major and the minor half of the number of a device.
#[tactic(auto, unfolding(crate::specs::Fields::read_maps_device))]
fn device(word: &str) -> Result<(u32, u32), Cause>
    ensures { ReadsAs (λ pair. (pair.0, pair.1)) result (read_maps_device word.now) }
{
    let (major, minor) = cut(word, ':');
    let major = device_part(major)?;
    let minor = device_part(minor)?;
    Ok((major, minor))
}

/// One of two letters: whether it is the first of them.
#[tactic(auto, unfolding(crate::specs::Fields::read_letter))]
fn letter(byte: u8, set: u8, unset: u8) -> Result<bool, Cause>
    ensures { ReadsAs (λ allowed. allowed) result (read_letter set unset byte) }
{
    if byte == set {
        Ok(true)
    } else if byte == unset {
        Ok(false)
    } else {
        Err(Cause::MapsLine)
    }
}

/// What is allowed, and whether it is shared: four letters.
#[tactic(auto, unfolding(crate::specs::Fields::read_perms))]
fn perms(word: &str) -> Result<(Prot, bool), Cause>
    ensures { ReadsAs (λ pair. (pair.0, pair.1)) result (read_perms word.now) }
{
    match word.as_bytes() {
        [read, write, exec, sharing] => {
            let prot = Prot {
                read: letter(*read, b'r', b'-')?,
                write: letter(*write, b'w', b'-')?,
                exec: letter(*exec, b'x', b'-')?,
            };
            let shared = letter(*sharing, b's', b'p')?;
            Ok((prot, shared))
        }
        _ => Err(Cause::MapsLine),
    }
}

/// What a line says, its name left out. None of it takes memory.
#[derive(Clone, Copy, Debug, PartialEq, Eq)]
pub(crate) struct LineNumbers {
    pub(crate) lo: u64,
    pub(crate) hi: u64,
    pub(crate) prot: Prot,
    pub(crate) shared: bool,
    pub(crate) offset: u64,
    pub(crate) major: u32,
    pub(crate) minor: u32,
    pub(crate) inode: u64,
}

/// The line of these numbers and this name.
pub(crate) fn with_name(numbers: LineNumbers, name: Text) -> MapsLine
    ensures { result ≡ with_line_name numbers name }
{
    MapsLine {
        lo: numbers.lo,
        hi: numbers.hi,
        prot: numbers.prot,
        shared: numbers.shared,
        offset: numbers.offset,
        major: numbers.major,
        minor: numbers.minor,
        inode: numbers.inode,
        name,
    }
}

/// The numbers of these words, whatever the name of their line is.
#[tactic(auto, unfolding(crate::specs::Fields::maps_line_of_words))]
fn numbers_of_words(
    addresses: &str,
    letters: &str,
    start: &str,
    numbers: &str,
    node: &str,
) -> Result<LineNumbers, Cause>
    ensures { (name : List ℕ) → ReadsAs (λ found. with_line_name found name) result
        (maps_line_of_words addresses.now letters.now start.now numbers.now node.now name) }
{
    let (lo, hi) = bounds(addresses)?;
    let (prot, shared) = perms(letters)?;
    let offset = hexadecimal(start, 16)?;
    let (major, minor) = device(numbers)?;
    let inode = decimal(node)?;
    Ok(LineNumbers {
        lo,
        hi,
        prot,
        shared,
        offset,
        major,
        minor,
        inode,
    })
}

/// What the text of a line says: its numbers, and its name where it stands in the text.
#[tactic(auto, unfolding(crate::specs::Fields::read_maps_line))]
pub(crate) fn line_of(text: &str) -> Result<(LineNumbers, &str), Cause>
    ensures { ReadsAs (λ found. with_line_name found.0 found.1.now) result (read_maps_line text.now) }
{
    let (addresses, rest) = cut(text, ' ');
    let (letters, rest) = cut(rest, ' ');
    let (start, rest) = cut(rest, ' ');
    let (numbers, rest) = cut(rest, ' ');
    let (node, rest) = cut(rest, ' ');
    let found = numbers_of_words(addresses, letters, start, numbers, node)?;
    Ok((found, without_leading_spaces(rest)))
}
