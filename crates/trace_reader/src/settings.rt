//! The lines before the first one with a thread: `limit`, `top`, `min`, `heap` and `file`.

ghost use Rattle.std.specs.Prelude.{◌≡◌, IfOk, map};
ghost use Rattle.trace_reader.specs.Settings.{read_area_limit, limit_of, bound_of, unescaped, file_fields, read_file_fields, with_path};
ghost use Rattle.text_lexer.specs.Reading.{ReadsAs};

use crate::fields::{bound, descriptor, device, mode};
use crate::limits::MOST_FILE_BYTES;
use mm_types::{FileRow, MOST_AREAS, Text};
use std::alloc::{AllocError, Global};
use text_lexer::{Cause, number, number_in};

/// The most areas, from the words after `limit areas`.
#[tactic(auto, unfolding(crate::specs::Settings::read_area_limit))]
fn areas_of(words: &[&str]) -> Result<u32, Cause>
    ensures { ReadsAs (λ areas. areas) result (read_area_limit (map (λ word. word.now) words.now)) }
{
    let [count] = words else {
        return Err(Cause::Arity);
    };
    let areas = number_in(count, 1, u64::from(MOST_AREAS))?;
    Ok(areas as u32)
}

/// `limit areas N`, from the words after the first.
#[tactic(auto, unfolding(crate::specs::Settings::limit_of))]
pub(crate) fn limit_of(words: &[&str]) -> Result<u32, Cause>
    ensures { ReadsAs (λ areas. areas) result (limit_of (map (λ word. word.now) words.now)) }
{
    let [what, rest @ ..] = words else {
        return Err(Cause::Arity);
    };
    match *what {
        "areas" => areas_of(rest),
        _ => Err(Cause::Word),
    }
}

/// `top A`, `min A` or `heap A`, an address in bytes, from the words after the first.
#[tactic(auto, unfolding(crate::specs::Settings::bound_of))]
pub(crate) fn bound_of(words: &[&str]) -> Result<u64, Cause>
    ensures { ReadsAs (λ address. address) result (bound_of (map (λ word. word.now) words.now)) }
{
    match words {
        [address] => bound(address),
        _ => Err(Cause::Arity),
    }
}

/// A path, in which the four characters `\012` stand for a newline, as in proc_pid_maps(5).
fn unescaped(alloc: Global, text: &str) -> Result<Text, AllocError>
    ensures { IfOk result (λ path. path ≡ unescaped text.now) }
{
    let mut path = String::new(alloc);
    let mut rest = text;
    while let Some((before, after)) = rest.split_once("\\012") {
        path.push_str(before)?;
        path.push_str("\n")?;
        rest = after;
    }
    path.push_str(rest)?;
    Ok(Text::of(path))
}

/// What the words of a `file` line say, its path left out. None of it takes memory.
#[derive(Clone, Copy, Debug, PartialEq, Eq)]
pub(crate) struct FileFields {
    pub(crate) fd: i32,
    pub(crate) read: bool,
    pub(crate) write: bool,
    pub(crate) size: u64,
    pub(crate) major: u32,
    pub(crate) minor: u32,
    pub(crate) inode: u64,
}

/// The fields of these words, of which `MAJ:MIN` are the halves.
#[tactic(auto, unfolding(crate::specs::Settings::file_fields))]
fn file_fields(
    fd: &str,
    open_for: &str,
    size: &str,
    halves: &str,
    inode: &str,
) -> Result<FileFields, Cause>
    ensures { ReadsAs (λ fields. fields) result (file_fields fd.now open_for.now size.now halves.now inode.now) }
{
    let fd = descriptor(fd)?;
    let (read, write) = mode(open_for)?;
    let size = number_in(size, 0, MOST_FILE_BYTES)?;
    let (major, minor) = device(halves)?;
    let inode = number(inode)?;
    Ok(FileFields {
        fd,
        read,
        write,
        size,
        major,
        minor,
        inode,
    })
}

/// `file FD MODE SIZE MAJ:MIN INODE PATH`, from the words after the first: all but the path, of which there is a word.
#[tactic(auto, unfolding(crate::specs::Settings::read_file_fields))]
pub(crate) fn fields_of(words: &[&str]) -> Result<FileFields, Cause>
    ensures { ReadsAs (λ fields. fields) result (read_file_fields (map (λ word. word.now) words.now)) }
{
    match words {
        [fd, open_for, size, halves, inode, _, ..] => file_fields(
            fd, open_for, size, halves, inode,
        ),
        _ => Err(Cause::Arity),
    }
}

/// The file of these fields and of the text of its path. Fails only where memory runs out.
pub(crate) fn with_path(
    alloc: Global,
    fields: FileFields,
    path: &str,
) -> Result<FileRow, AllocError>
    ensures { IfOk result (λ file. file ≡ with_path fields path.now) }
{
    let path = unescaped(alloc, path)?;
    Ok(FileRow {
        fd: fields.fd,
        read: fields.read,
        write: fields.write,
        size: fields.size,
        major: fields.major,
        minor: fields.minor,
        inode: fields.inode,
        path,
    })
}
