//! The lines of a trace that open files.

ghost use Rattle.std.specs.Prelude.{◌≡◌, ◌<◌, ◌^◌, ◌++◌, Result, Err, IsErr, OnOk, IfOk, position, string_bytes};
ghost use Rattle.maps_read.specs.FileLines.{same_file, file_text, files_of, files_opened, are_one_file};
ghost use Rattle.text_lexer.specs.declared.error.BadLine.{BadLine};
ghost use Rattle.trace_reader.specs.Reading.{GivesTrace};
ghost use Rattle.trace_reader.specs.declared.trace.Trace.{Trace};

use crate::MapsLine;
use mm_types::{FileRow, Files, NoMemory};
use std::alloc::{AllocError, Global};
use text_lexer::ReadError;
use trace_reader::{Trace, read};

/// The descriptor of the first file of a trace that was made from a maps text: those below are a process's standard streams.
pub const FIRST_DESCRIPTOR: u32 = 3;

/// Line 1 of each trace.
pub(crate) const HEADER: &str = "vmatrace 1\n";

/// Whether two lines show one file: they have the same device, inode and name.
fn same_file(a: &MapsLine, b: &MapsLine) -> bool
    ensures { result ≡ same_file a.now b.now }
{
    a.major == b.major
        && a.minor == b.minor
        && a.inode == b.inode
        && a.name.as_str() == b.name.as_str()
}

/// The place among lines of the one that shows the file of this one.
pub(crate) fn file_place(named: &[&MapsLine], line: &MapsLine) -> Option<usize>
    ensures { result ≡ position (λ other. same_file other.now line.now) named.now }
{
    named.iter().position(|other| same_file(other, line))
}

/// Appends the line that opens the file of a line under this descriptor, to be read and written. Its size is the most that a
/// trace may name, 2^63 - 1 bytes.
#[tactic(auto, unfolding(crate::specs::FileLines::file_text))]
pub(crate) fn push_file_line(text: &mut String, fd: u32, line: &MapsLine) -> Result<(), AllocError>
    ensures { OnOk result (string_bytes text.new ≡ string_bytes text.old ++ file_text fd line.now) }
{
    let (major, minor, inode) = (line.major, line.minor, line.inode);
    writeln!(
        text,
        "file {fd} rw 9223372036854775807 {major:02x}:{minor:02x} {inode} {}",
        line.name.as_str()
    )
}

/// The files that the line opens which opens the file of a line under this descriptor, in a trace of that line alone: one, or
/// none where it is no line of a trace.
#[tactic(auto, unfolding(crate::specs::FileLines::files_opened))]
pub(crate) fn files_opened(alloc: Global, fd: u32, line: &MapsLine) -> Result<Files, NoMemory>
    ensures { IfOk result (λ files. files ≡ files_opened (file_text fd line.now)) }
{
    let mut text = String::new(alloc);
    text.push_str(HEADER)?;
    push_file_line(&mut text, fd, line)?;
    files_read(alloc, read(alloc, text.as_str().as_bytes()))
}

/// The files of what was read as a trace: none where it is no trace. Fails exactly where memory ran out before.
fn files_read(alloc: Global, read: Result<Trace, ReadError>) -> Result<Files, NoMemory>
    ensures files { (given : Result Trace BadLine) → GivesTrace read given → IfOk result (λ files. files ≡ files_of given) }
    ensures memory { IsErr result → read ≡ Err ReadError.NoMemory }
{
    match read {
        Ok(trace) => Ok(trace.config.files),
        Err(ReadError::Bad(_)) => Ok(Files::of(Vec::new(alloc))),
        Err(ReadError::NoMemory) => Err(NoMemory),
    }
}

/// Whether these are one file, which has this descriptor and may be read and written.
pub(crate) fn are_one_file(fd: u32, files: &[FileRow]) -> bool
    requires { fd < 2 ^ 31 }
    ensures { result ≡ are_one_file fd files.now }
{
    match files {
        [file] => file.fd == fd as i32 && file.read && file.write,
        _ => false,
    }
}
