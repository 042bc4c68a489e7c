//! The text of a load.

ghost use Rattle.std.specs.Prelude.{◌≡◌, ◌≤◌, ◌++◌, false, codes, decimal, IfOk, OnOk};
ghost use Rattle.std.specs.Fmt.{digits};
ghost use Rattle.trace_reader.specs.LineTexts.{line_text};
ghost use Rattle.gen_load.specs.Loads.{drawn_line, load_text};

use crate::Draws;
use crate::draw::{DRAWS, Draw, Kind};
use maps_print::{push_decimal, push_hex};
use mm_types::NoMemory;
use std::alloc::Global;

/// The most operations of a load.
pub const MOST_OPERATIONS: u32 = 400_000; // so many lines are within the limit of an input

/// Line 1 of each trace.
const HEADER: &[u8] = b"vmatrace 1\n";

/// The bytes to reserve for each line. Most lines have fewer.
const LINE_ROOM: usize = 80;

/// What ends a line that maps memory exactly at its address.
const EXACTLY: &[u8] = b" MAP_PRIVATE|MAP_FIXED|MAP_ANONYMOUS -1 0\n";

/// What ends a line that maps memory where there is room, or near a hint.
const ANYWHERE: &[u8] = b" MAP_PRIVATE|MAP_ANONYMOUS -1 0\n";

/// Makes the load of so many operations from a seed, as the bytes of a trace. It fails only where memory runs out.
pub fn load(alloc: Global, count: u32, seed: u64) -> Result<Vec<u8>, NoMemory>
    requires { count ≤ MOST_OPERATIONS }
    ensures { IfOk result (λ bytes. bytes.items ≡ load_text count seed) }
{
    let mut text = Vec::with_capacity(alloc, HEADER.len() + count as usize * LINE_ROOM)?;
    text.extend_from_slice(HEADER)?;
    let mut draws = Draws::new(seed);
    for _ in 0..count {
        let draw = draws.below(DRAWS);
        push_line(&mut text, Draw(draw))?;
    }
    Ok(text)
}

/// Appends an address in hexadecimal after these bytes.
fn push_address(text: &mut Vec<u8>, before: &[u8], address: u64) -> Result<(), NoMemory>
    ensures { OnOk result (text.new.items ≡ text.old.items ++ (before.now ++ digits 16 false address)) }
{
    text.extend_from_slice(before)?;
    push_hex(text, address)
}

/// Appends a space and a number in decimal.
fn push_number(text: &mut Vec<u8>, number: u64) -> Result<(), NoMemory>
    ensures { OnOk result (text.new.items ≡ text.old.items ++ (codes " " ++ decimal number)) }
{
    text.push(b' ')?;
    push_decimal(text, number)
}

/// Appends a length and the names of accesses, each after a space, and these bytes.
fn push_prot(text: &mut Vec<u8>, length: u64, prot: &str, after: &[u8]) -> Result<(), NoMemory>
    ensures { OnOk result (text.new.items ≡ text.old.items ++ (codes " " ++ (decimal length ++ (codes " " ++ (prot.now ++ after.now))))) }
{
    push_number(text, length)?;
    text.push(b' ')?;
    text.extend_from_slice(prot.as_bytes())?;
    text.extend_from_slice(after)?;
    Ok(())
}

/// Appends the length of an area and the one to which it moves, each after a space, and what ends the line.
fn push_lengths(text: &mut Vec<u8>, length: u64, new_length: u64) -> Result<(), NoMemory>
    ensures { OnOk result (text.new.items ≡ text.old.items ++ (codes " " ++ (decimal length ++ (codes " " ++ (decimal new_length ++ codes " MREMAP_MAYMOVE\n"))))) }
{
    push_number(text, length)?;
    push_number(text, new_length)?;
    text.extend_from_slice(b" MREMAP_MAYMOVE\n")?;
    Ok(())
}

/// Appends the name and the address of a fault, and these bytes.
fn push_fault(text: &mut Vec<u8>, address: u64, after: &[u8]) -> Result<(), NoMemory>
    ensures { OnOk result (text.new.items ≡ text.old.items ++ (codes " fault 0x" ++ (digits 16 false address ++ after.now))) }
{
    push_address(text, b" fault 0x", address)?;
    text.extend_from_slice(after)?;
    Ok(())
}

/// Appends the line of a draw.
fn push_line(text: &mut Vec<u8>, draw: Draw) -> Result<(), NoMemory>
    ensures { OnOk result (text.new.items ≡ text.old.items ++ line_text (drawn_line 0 draw.0)) }
{
    let address = draw.address();
    let length = draw.length();
    push_decimal(text, draw.thread())?;
    match draw.kind() {
        Kind::MapExactly => {
            push_address(text, b" mmap 0x", address)?;
            push_prot(text, length, draw.prot(), EXACTLY)
        }
        Kind::MapNear => {
            push_address(text, b" mmap 0x", address)?;
            push_prot(text, length, draw.prot(), ANYWHERE)
        }
        Kind::MapAnywhere => {
            text.extend_from_slice(b" mmap 0")?;
            push_prot(text, length, draw.prot(), ANYWHERE)
        }
        Kind::Unmap => {
            push_address(text, b" munmap 0x", address)?;
            push_number(text, length)?;
            Ok(text.push(b'\n')?)
        }
        Kind::Protect => {
            push_address(text, b" mprotect 0x", address)?;
            push_prot(text, length, draw.prot(), b"\n")
        }
        Kind::Move => {
            push_address(text, b" mremap 0x", address)?;
            push_lengths(text, length, draw.new_length())
        }
        Kind::Read => push_fault(text, address, b" r\n"),
        Kind::Write => push_fault(text, address, b" w\n"),
    }
}
