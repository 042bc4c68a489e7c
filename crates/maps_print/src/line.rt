ghost use Rattle.std.specs.Prelude.{◌≡◌, ◌≤◌, ◌<◌, ◌+◌, ◌++◌, codes, IfOk, OnOk, OnErr, flat_map, length, vec_capacity, vec_len};
ghost use Rattle.mm_types.specs.MapsText.{letter, perms, span_text, range_text, place_text, front_text, shown_byte, spaces_before, name_text, area_text};
ghost use Rattle.maps_print.specs.Appends.{AppendsFront};

use crate::mapped::Mapped;
use crate::part::{Part, add, add_decimal, add_padded};
use mm_types::{Files, NoMemory, Record};
use std::alloc::Global;

/// The column at which a name starts, counted from 0, unless what stands before it is as long.
/// Linux sets a width of 25 + 6 * sizeof(void *) - 1 in show_vma_header_prefix (fs/proc/task_mmu.c), and puts a space behind it.
const NAME_COLUMN: usize = 73;

/// Prints the line of one area as proc_pid_maps(5) has it, with the newline that ends it.
pub fn print_line(alloc: Global, area: &Record, files: &Files) -> Result<Vec<u8>, NoMemory>
    ensures { IfOk result (λ line. line.items ≡ area_text files.now area.now) }
{
    let mut text = Vec::new(alloc);
    push_line(&mut text, area, files)?;
    Ok(text)
}

/// Appends the line of one area, with the newline that ends it. A text that has room for it takes no memory; the same of all that appends here.
#[tactic(auto, unfolding(mm_types::specs::MapsText::area_text))]
pub fn push_line(text: &mut Vec<u8>, area: &Record, files: &Files) -> Result<(), NoMemory>
    ensures ok { OnOk result (text.new.items ≡ text.old.items ++ area_text files.now area.now) }
    ensures no_memory { OnErr result (AppendsFront text.old.items text.new.items (area_text files.now area.now)) }
    ensures room { OnErr result (vec_capacity text.old < vec_len text.old + length (area_text files.now area.now)) }
    ensures capacity { vec_capacity text.old ≤ vec_capacity text.new }
{
    let mapped = Mapped::of(files, area);
    let start = text.len();
    push_front(text, area, &mapped)?;
    let column = text.len() - start;
    push_name(text, column, mapped.name)?;
    text.push(b'\n')?;
    Ok(())
}

/// Appends what stands before the name.
#[tactic(auto, unfolding(mm_types::specs::MapsText::front_text))]
fn push_front(text: &mut Vec<u8>, area: &Record, mapped: &Mapped) -> Result<(), NoMemory>
    ensures ok { OnOk result (text.new.items ≡ text.old.items ++ front_text area.now mapped.now) }
    ensures no_memory { OnErr result (AppendsFront text.old.items text.new.items (front_text area.now mapped.now)) }
    ensures room { OnErr result (vec_capacity text.old < vec_len text.old + length (front_text area.now mapped.now)) }
    ensures capacity { vec_capacity text.old ≤ vec_capacity text.new }
{
    push_range(text, area)?;
    let place = place_part(area.offset, mapped);
    text.extend_from_slice(place.as_slice())?;
    Ok(())
}

/// Appends the addresses of an area, in bytes, and what is allowed there, as `<lo>-<hi> <perms>`.
#[tactic(auto, unfolding(mm_types::specs::MapsText::range_text))]
pub fn push_range(text: &mut Vec<u8>, area: &Record) -> Result<(), NoMemory>
    ensures ok { OnOk result (text.new.items ≡ text.old.items ++ range_text area.now) }
    ensures no_memory { OnErr result (AppendsFront text.old.items text.new.items (range_text area.now)) }
    ensures room { OnErr result (vec_capacity text.old < vec_len text.old + length (range_text area.now)) }
    ensures capacity { vec_capacity text.old ≤ vec_capacity text.new }
{
    let addresses = span_part(area.span.lo, area.span.hi);
    text.extend_from_slice(addresses.as_slice())?;
    text.extend_from_slice(&perms(area))?;
    Ok(())
}

/// The addresses of a span, in bytes, and a space. In hexadecimal an address is its page with three zeros after it.
#[tactic(auto, unfolding(mm_types::specs::MapsText::span_text))]
fn span_part(lo: u64, hi: u64) -> Part
    ensures { result.items ≡ span_text (record { lo = lo; hi = hi }) ++ codes " " }
{
    let mut part = Part::new();
    add_padded(&mut part, lo, 5);
    add(&mut part, b"000-");
    add_padded(&mut part, hi, 5);
    add(&mut part, b"000 ");
    part
}

/// Four letters: what is allowed, with a dash for what is not, and whether the area is shared.
#[tactic(auto, unfolding(mm_types::specs::MapsText::perms))]
fn perms(area: &Record) -> [u8; 4]
    ensures { result ≡ perms area.now }
{
    let prot = area.attr.prot;
    let sharing = if area.attr.shared { b's' } else { b'p' };
    [
        letter(prot.read, b'r'),
        letter(prot.write, b'w'),
        letter(prot.exec, b'x'),
        sharing,
    ]
}

/// The letter of an access, or a dash where it is not allowed.
fn letter(allowed: bool, access: u8) -> u8
    ensures { result ≡ letter allowed access }
{
    if allowed { access } else { b'-' }
}

/// A space, the offset within what is mapped, in bytes, the device and the inode of that, and a space.
#[tactic(auto, unfolding(mm_types::specs::MapsText::place_text))]
fn place_part(offset: u64, mapped: &Mapped) -> Part
    ensures { result.items ≡ codes " " ++ place_text offset mapped.now ++ codes " " }
{
    let mut part = Part::new();
    add(&mut part, b" ");
    add_padded(&mut part, offset, 5);
    add(&mut part, b"000 ");
    add_padded(&mut part, u64::from(mapped.major), 2);
    add(&mut part, b":");
    add_padded(&mut part, u64::from(mapped.minor), 2);
    add(&mut part, b" ");
    add_decimal(&mut part, mapped.inode);
    add(&mut part, b" ");
    part
}

/// Appends the name after so many characters of the line, and nothing where there is no name.
#[tactic(auto, unfolding(mm_types::specs::MapsText::name_text))]
fn push_name(text: &mut Vec<u8>, column: usize, name: &[u8]) -> Result<(), NoMemory>
    ensures ok { OnOk result (text.new.items ≡ text.old.items ++ name_text column name.now) }
    ensures no_memory { OnErr result (AppendsFront text.old.items text.new.items (name_text column name.now)) }
    ensures room { OnErr result (vec_capacity text.old < vec_len text.old + length (name_text column name.now)) }
    ensures capacity { vec_capacity text.old ≤ vec_capacity text.new }
{
    if name.is_empty() {
        return Ok(());
    }
    text.extend_from_slice(&[b' '; NAME_COLUMN][..spaces_before(column)])?;
    push_shown(text, name)
}

/// How many spaces set a name off after so many characters.
fn spaces_before(column: usize) -> usize
    ensures spaces { result ≡ spaces_before column }
    ensures few { result ≤ NAME_COLUMN }
{
    if column < NAME_COLUMN {
        NAME_COLUMN - column
    } else {
        1
    }
}

/// Appends the bytes of a name, with a newline shown as the four characters `\012`: a name never ends
/// the line.
fn push_shown(text: &mut Vec<u8>, name: &[u8]) -> Result<(), NoMemory>
    ensures ok { OnOk result (text.new.items ≡ text.old.items ++ flat_map shown_byte name.now) }
    ensures no_memory { OnErr result (AppendsFront text.old.items text.new.items (flat_map shown_byte name.now)) }
    ensures room { OnErr result (vec_capacity text.old < vec_len text.old + length (flat_map shown_byte name.now)) }
    ensures capacity { vec_capacity text.old ≤ vec_capacity text.new }
{
    for byte in name {
        if *byte == b'\n' {
            text.extend_from_slice(b"\\012")?;
        } else {
            text.push(*byte)?;
        }
    }
    Ok(())
}
