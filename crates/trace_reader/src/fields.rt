//! The fields of a line, each a word.

ghost use Rattle.std.specs.Prelude.{◌≡◌, ◌≤◌};
ghost use Rattle.trace_reader.specs.Fields.{read_thread, bound, descriptor, mapped_descriptor, device_part, read_device, mode, access, flags, prot_of_bits, read_prot};
ghost use Rattle.text_lexer.specs.Reading.{ReadsAs};

use crate::limits::{GREATEST_THREAD, MAJOR_DIGITS, MINOR_DIGITS};
use flag_table::{FlagTable, prot_table};
use mm_types::{
    ADDRESS_LIMIT, Access, PAGE_SIZE, PROT_EXEC, PROT_READ, PROT_WRITE, Prot, has_flag,
};
use text_lexer::{Cause, decimal_of, digits_of, number, number_in};

/// The thread that a word is: 1 to 20 decimal digits with a value of 0 to 63. There is none for any other word.
#[tactic(auto, unfolding(crate::specs::Fields::read_thread))]
pub fn thread_of(word: &str) -> Option<u32>
    ensures { result ≡ read_thread word.now }
{
    match decimal_of(word) {
        Some(thread) if thread <= GREATEST_THREAD => Some(thread as u32),
        _ => None,
    }
}

/// An address that may bound the memory, in bytes: a multiple of the page size, from one page up to the address limit.
#[tactic(auto, unfolding(crate::specs::Fields::bound))]
pub(crate) fn bound(word: &str) -> Result<u64, Cause>
    ensures { ReadsAs (λ n. n) result (bound word.now) }
{
    let address = number(word)?;
    if address % PAGE_SIZE == 0 && (PAGE_SIZE <= address && address <= ADDRESS_LIMIT) {
        Ok(address)
    } else {
        Err(Cause::Number)
    }
}

/// The descriptor of a file.
#[tactic(auto, unfolding(crate::specs::Fields::descriptor))]
pub(crate) fn descriptor(word: &str) -> Result<i32, Cause>
    ensures { ReadsAs (λ fd. fd) result (descriptor word.now) }
{
    let fd = number_in(word, 0, 0x7fff_ffff)?;
    Ok(fd as i32)
}

/// The descriptor of a mapping, which may be -1.
#[tactic(auto, unfolding(crate::specs::Fields::mapped_descriptor))]
pub(crate) fn mapped_descriptor(word: &str) -> Result<i32, Cause>
    ensures { ReadsAs (λ fd. fd) result (mapped_descriptor word.now) }
{
    if word == "-1" {
        Ok(-1)
    } else {
        descriptor(word)
    }
}

/// A half of a device number: at most so many hexadecimal digits.
#[tactic(auto, unfolding(crate::specs::Fields::device_part))]
fn device_part(word: &str, most: usize) -> Result<u32, Cause>
    requires { most ≤ 8 }
    ensures { ReadsAs (λ n. n) result (device_part most word.now) }
{
    match digits_of(word, 16, most) {
        Some(part) => Ok(part as u32),
        None => Err(Cause::Number),
    }
}

/// The major and the minor half of a device number.
#[tactic(auto, unfolding(crate::specs::Fields::read_device))]
pub(crate) fn device(word: &str) -> Result<(u32, u32), Cause>
    ensures { ReadsAs (λ pair. (pair.0, pair.1)) result (read_device word.now) }
{
    let (major, minor) = word.split_once(':').unwrap_or((word, ""));
    let major = device_part(major, MAJOR_DIGITS)?;
    let minor = device_part(minor, MINOR_DIGITS)?;
    Ok((major, minor))
}

/// Whether a file is open for reading, and whether for writing.
#[tactic(auto, unfolding(crate::specs::Fields::mode))]
pub(crate) fn mode(word: &str) -> Result<(bool, bool), Cause>
    ensures { ReadsAs (λ pair. (pair.0, pair.1)) result (mode word.now) }
{
    match word {
        "r" => Ok((true, false)),
        "w" => Ok((false, true)),
        "rw" => Ok((true, true)),
        _ => Err(Cause::Word),
    }
}

/// What a page fault wants to do.
#[tactic(auto, unfolding(crate::specs::Fields::access))]
pub(crate) fn access(word: &str) -> Result<Access, Cause>
    ensures { ReadsAs (λ wanted. wanted) result (access word.now) }
{
    match word {
        "r" => Ok(Access::Read),
        "w" => Ok(Access::Write),
        "x" => Ok(Access::Exec),
        _ => Err(Cause::Word),
    }
}

/// Flags of a table.
#[tactic(auto, unfolding(crate::specs::Fields::flags))]
pub(crate) fn flags<const N: usize>(table: &FlagTable<N>, word: &str) -> Result<u32, Cause>
    ensures { ReadsAs (λ bits. bits) result (flags table.now word.now) }
{
    match table.bits_of(word) {
        Ok(bits) => Ok(bits),
        Err(_) => Err(Cause::Flag),
    }
}

/// The accesses that some bits allow.
#[tactic(auto, unfolding(crate::specs::Fields::prot_of_bits))]
fn prot_of_bits(bits: u32) -> Prot
    ensures { result ≡ prot_of_bits bits }
{
    Prot {
        read: has_flag(bits, PROT_READ),
        write: has_flag(bits, PROT_WRITE),
        exec: has_flag(bits, PROT_EXEC),
    }
}

/// A protection of mmap(2) and mprotect(2).
#[tactic(auto, unfolding(crate::specs::Fields::read_prot))]
pub(crate) fn prot(word: &str) -> Result<Prot, Cause>
    ensures { ReadsAs (λ prot. prot) result (read_prot word.now) }
{
    let bits = flags(&prot_table(), word)?;
    Ok(prot_of_bits(bits))
}
