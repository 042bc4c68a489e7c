ghost use Rattle.std.specs.Prelude.{◌≡◌, IfOk, OnOk, map, string_bytes};
ghost use Rattle.flag_table.specs.Tables.{prot_flags, map_flags, mremap_flags, bar_words};
ghost use Rattle.flag_table.specs.Kinds.{table_of_kind};
ghost use Rattle.flag_table.specs.Reading.{read_words, first_word, error_named, ReadsBits, IsErrorKept};
ghost use Rattle.flag_table.specs.Printing.{printed, with_flag_name};

use crate::error::{BadWord, NameError};
use crate::kind::{Kind, MAP_BITS, MREMAP_BITS, PROT_BITS};
use mm_types::{NoMemory, Text, has_flag};
use std::alloc::{AllocError, Global};
use std::marker::Model;

/// A table of N flags, each a name and a bit. Contracts see its rows in their order, and the name that
/// stands for none of them.
#[derive(Debug, Drop)]
pub struct FlagTable<const N: usize> {
    /// Which table it is. The names go by it.
    kind: Kind,
    /// The bits, in the order of the rows.
    bits: [u32; N],
}

impl<const N: usize> Model for FlagTable<N> {
    ghost use Rattle.std.specs.Prelude.{◌≡◌, map};
    ghost use Rattle.flag_table.specs.Tables.{FlagNames};
    ghost use Rattle.flag_table.specs.Kinds.{table_of_kind};

    ghost Value = { FlagNames };

    ghost view = { λ t. table_of_kind t.kind };

    ghost invariant = { λ t. t.bits ≡ map (λ row. row.bit) (table_of_kind t.kind).rows };
}

/// The accesses that mmap(2) and mprotect(2) are asked for. `PROT_NONE` and `0` are read as none of them, which is
/// printed as `PROT_NONE`.
#[tactic(auto, unfolding(crate::specs::Tables::prot_flags))]
pub fn prot_table() -> FlagTable<3>
    ensures { result ≡ prot_flags }
{
    FlagTable {
        kind: Kind::Prot,
        bits: PROT_BITS,
    }
}

/// The flags of mmap(2).
#[tactic(auto, unfolding(crate::specs::Tables::map_flags))]
pub fn map_table() -> FlagTable<11>
    ensures { result ≡ map_flags }
{
    FlagTable {
        kind: Kind::Map,
        bits: MAP_BITS,
    }
}

/// The flags of mremap(2).
#[tactic(auto, unfolding(crate::specs::Tables::mremap_flags))]
pub fn mremap_table() -> FlagTable<3>
    ensures { result ≡ mremap_flags }
{
    FlagTable {
        kind: Kind::Mremap,
        bits: MREMAP_BITS,
    }
}

impl<const N: usize> FlagTable<N> {
    ghost use Rattle.std.specs.Prelude.{◌≡◌, IfOk, Ok};
    ghost use Rattle.flag_table.specs.Tables.{HasRows};
    ghost use Rattle.flag_table.specs.Reading.{reading, GivesBits, ReadsBits};
    ghost use Rattle.flag_table.specs.Printing.{printed};

    /// Reads a text of flags: `0`, the name that stands for no flag, or names joined by `|`, whose bits
    /// it gives together. The first bad name from the left is refused. It takes no memory.
    #[tactic(auto, unfolding(crate::specs::Reading::reading))]
    pub fn bits_of<'a>(&self, text: &'a str) -> Result<u32, BadWord<'a>>
        ensures reads { ReadsBits result (reading self.now text.now) }
        ensures rows { IfOk result (HasRows self.now) }
    {
        if self.kind.is_zero(text) {
            return Ok(0);
        }
        read_names(self.kind, text)
    }

    /// Reads a text of flags as `bits_of` does, and keeps the name that is refused, which alone takes memory.
    pub fn read(&self, alloc: Global, text: &str) -> Result<u32, NameError>
        ensures gives { GivesBits result (reading self.now text.now) }
        ensures rows { IfOk result (HasRows self.now) }
    {
        match self.bits_of(text) {
            Ok(bits) => Ok(bits),
            Err(word) => Err(kept(alloc, word)),
        }
    }

    /// Prints the names of the flags whose bits are there, in the order of the table and joined by `|`,
    /// or the name that stands for no flag.
    pub fn print(&self, alloc: Global, bits: u32) -> Result<Text, NoMemory>
        requires { HasRows self.now bits }
        ensures text { IfOk result (λ text. text ≡ printed self.now bits) }
        ensures reads_back { IfOk result (λ text. reading self.now text ≡ Ok bits) }
    {
        print_bits(alloc, self.kind, &self.bits, bits)
    }
}

/// Reads the names between the bars in one pass, up to the first bad one.
fn read_names<'a>(kind: Kind, text: &'a str) -> Result<u32, BadWord<'a>>
    ensures { ReadsBits result (read_words (table_of_kind kind).rows (bar_words text.now)) }
{
    let mut bits = 0;
    let mut rest = text;
    while let Some((bit, after)) = kind.bit_ahead(rest) {
        // Each row has a bit of its own, so a bit that is there says that its name came before.
        if has_flag(bits, bit) {
            return Err(BadWord::Twice(first_word(rest)));
        }
        bits |= bit;
        match after.strip_prefix('|') {
            Some(more) => rest = more,
            None => return Ok(bits),
        }
    }
    Err(BadWord::Unknown(first_word(rest)))
}

/// The first word of a text: what stands before its first bar, or all of it.
fn first_word(text: &str) -> &str
    ensures { result.now ≡ first_word text.now }
{
    match text.split_once('|') {
        Some((word, _)) => word,
        None => text,
    }
}

/// The error of a bad word, with a copy of it, or else `NameError::NoMemory`.
fn kept(alloc: Global, bad: BadWord<'_>) -> NameError
    ensures { IsErrorKept result (error_named bad.entry) }
{
    match bad {
        BadWord::Unknown(word) => match copy_of(alloc, word) {
            Ok(word) => NameError::Unknown(word),
            Err(_) => NameError::NoMemory,
        },
        BadWord::Twice(word) => match copy_of(alloc, word) {
            Ok(word) => NameError::Twice(word),
            Err(_) => NameError::NoMemory,
        },
    }
}

/// A text of its own with these bytes.
fn copy_of(alloc: Global, word: &str) -> Result<Text, AllocError>
    ensures { IfOk result (λ text. text ≡ word.now) }
{
    Ok(Text::of(String::from_str(alloc, word)?))
}

/// Prints the names of the bits that are there, where `rows` has the bits of the table.
fn print_bits(alloc: Global, kind: Kind, rows: &[u32], bits: u32) -> Result<Text, NoMemory>
    requires { rows.now ≡ map (λ row. row.bit) (table_of_kind kind).rows }
    ensures { IfOk result (λ text. text ≡ printed (table_of_kind kind) bits) }
{
    if bits == 0 {
        return Ok(copy_of(alloc, kind.zero_name())?);
    }
    let mut text = String::new(alloc);
    for bit in rows {
        if has_flag(bits, *bit) {
            push_name(&mut text, kind.name_with(*bit))?;
        }
    }
    Ok(Text::of(text))
}

/// Adds one more name, after a bar unless it is the first.
#[tactic(auto, unfolding(crate::specs::Printing::with_flag_name))]
fn push_name(text: &mut String, name: &str) -> Result<(), AllocError>
    ensures { OnOk result (string_bytes text.new ≡ with_flag_name (string_bytes text.old) name.now) }
{
    if !text.is_empty() {
        text.push('|')?;
    }
    text.push_str(name)?;
    Ok(())
}
