//! The lines of a trace that map areas where they lie.

ghost use Rattle.std.specs.Prelude.{◌≡◌, ◌++◌, OnOk, string_bytes};
ghost use Rattle.flag_table.specs.Printing.{printed};
ghost use Rattle.flag_table.specs.Tables.{map_flags};
ghost use Rattle.trace_reader.specs.LineTexts.{bits_of_prot, prot_word};
ghost use Rattle.maps_read.specs.Mappings.{mapping_flags, backing_text, mapping_text};
ghost use Rattle.maps_read.specs.Internal.Taking.{IsPrinted};

use crate::file_lines::FIRST_DESCRIPTOR;
use flag_table::{map_table, prot_table};
use mm_types::{
    MAP_ANONYMOUS, MAP_FIXED, MAP_PRIVATE, MAP_SHARED, NoMemory, PAGE_SIZE, PROT_EXEC, PROT_READ,
    PROT_WRITE, Prot, Record,
};
use std::alloc::{AllocError, Global};

/// The bits of the accesses that a protection allows.
fn prot_bits(prot: Prot) -> u32
    ensures { result ≡ bits_of_prot prot }
{
    let read = if prot.read { PROT_READ } else { 0 };
    let write = if prot.write { PROT_WRITE } else { 0 };
    let exec = if prot.exec { PROT_EXEC } else { 0 };
    read | write | exec
}

/// The flags with which an area is mapped.
#[tactic(auto, unfolding(crate::specs::Mappings::mapping_flags))]
fn flags_of(area: &Record) -> u32
    ensures { result ≡ mapping_flags area.now }
{
    let sharing = if area.attr.shared {
        MAP_SHARED
    } else {
        MAP_PRIVATE
    };
    let backing = if area.object == 0 { MAP_ANONYMOUS } else { 0 };
    sharing | MAP_FIXED | backing
}

/// Appends the line that maps an area.
#[tactic(auto, unfolding(trace_reader::specs::LineTexts::prot_word))]
pub(crate) fn push_mapping(alloc: Global, text: &mut String, area: &Record) -> Result<(), NoMemory>
    requires { IsPrinted area.now }
    ensures { OnOk result (string_bytes text.new ≡ string_bytes text.old ++ mapping_text area.now) }
{
    let prot = prot_table().print(alloc, prot_bits(area.attr.prot))?;
    let flags = map_table().print(alloc, flags_of(area))?;
    push_words(text, area, prot.as_str(), flags.as_str())?;
    Ok(())
}

/// Appends the line that maps an area, by the names of its accesses and of its flags.
fn push_words(text: &mut String, area: &Record, prot: &str, flags: &str) -> Result<(), AllocError>
    requires area { IsPrinted area.now }
    requires prot { prot.now ≡ prot_word area.now.attr.prot }
    requires flags { flags.now ≡ printed map_flags (mapping_flags area.now) }
    ensures { OnOk result (string_bytes text.new ≡ string_bytes text.old ++ mapping_text area.now) }
{
    let lo = PAGE_SIZE * area.span.lo;
    let len = PAGE_SIZE * (area.span.hi - area.span.lo);
    write!(text, "0 mmap 0x{lo:x} {len} {prot} {flags}")?;
    push_backing(text, area)
}

/// Appends the descriptor and the offset of what an area maps, up to the end of the line.
fn push_backing(text: &mut String, area: &Record) -> Result<(), AllocError>
    requires { IsPrinted area.now }
    ensures { OnOk result (string_bytes text.new ≡ string_bytes text.old ++ backing_text area.now) }
{
    if area.object == 0 {
        writeln!(text, " -1 0")
    } else {
        let fd = FIRST_DESCRIPTOR + (area.object - 1);
        let offset = PAGE_SIZE * area.offset;
        writeln!(text, " {fd} 0x{offset:x}")
    }
}
