//! The text of what a line results in, and of what stands before a list. A text that has room for what is appended takes no memory.
ghost use Rattle.std.specs.Prelude.{◌≡◌, ◌≤◌, ◌<◌, ◌+◌, ◌++◌, OnErr, OnOk, codes, decimal, length, vec_capacity, vec_len};
ghost use Rattle.output.specs.Output.{errno_name, reply_text, served_text, verdict_text, item_start};

use maps_print::{push_decimal, push_hex, push_range};
use mm_types::{Errno, NoMemory, Record, Reply, Verdict};
use trace_reader::TraceLine;

/// Appends a fault's verdict.
#[tactic(auto, unfolding(crate::specs::Output::verdict_text))]
pub fn push_verdict(text: &mut Vec<u8>, verdict: Verdict) -> Result<(), NoMemory>
    ensures ok { OnOk result (text.new.items ≡ text.old.items ++ verdict_text verdict) }
    ensures room { OnErr result (vec_capacity text.old < vec_len text.old + length (verdict_text verdict)) }
    ensures capacity { vec_capacity text.old ≤ vec_capacity text.new }
{
    match verdict {
        Verdict::Served { area, index } => return push_served(text, &area, index),
        Verdict::MapErr => text.extend_from_slice(b"SIGSEGV SEGV_MAPERR")?,
        Verdict::AccErr => text.extend_from_slice(b"SIGSEGV SEGV_ACCERR")?,
        Verdict::BusErr => text.extend_from_slice(b"SIGBUS BUS_ADRERR")?,
    }
    Ok(())
}

/// Appends the area that serves a fault, and the page of its object.
#[tactic(auto, unfolding(crate::specs::Output::served_text))]
fn push_served(text: &mut Vec<u8>, area: &Record, index: u64) -> Result<(), NoMemory>
    ensures ok { OnOk result (text.new.items ≡ text.old.items ++ served_text area.now index) }
    ensures room { OnErr result (vec_capacity text.old < vec_len text.old + length (served_text area.now index)) }
    ensures capacity { vec_capacity text.old ≤ vec_capacity text.new }
{
    text.extend_from_slice(b"served ")?;
    push_range(text, area)?;
    push_page(text, index)
}

/// Appends the page of an object.
fn push_page(text: &mut Vec<u8>, index: u64) -> Result<(), NoMemory>
    ensures ok { OnOk result (text.new.items ≡ text.old.items ++ (codes " page " ++ decimal index)) }
    ensures room { OnErr result (vec_capacity text.old < vec_len text.old + length (codes " page " ++ decimal index)) }
    ensures capacity { vec_capacity text.old ≤ vec_capacity text.new }
{
    text.extend_from_slice(b" page ")?;
    push_decimal(text, index)
}

/// Appends what stands before what a line results in: `L<line> t<thread> v<version> = `.
#[tactic(auto, unfolding(crate::specs::Output::item_start))]
pub fn push_start(text: &mut Vec<u8>, line: &TraceLine, version: u64) -> Result<(), NoMemory>
    ensures ok { OnOk result (text.new.items ≡ text.old.items ++ item_start line.now version) }
    ensures room { OnErr result (vec_capacity text.old < vec_len text.old + length (item_start line.now version)) }
    ensures capacity { vec_capacity text.old ≤ vec_capacity text.new }
{
    text.push(b'L')?;
    push_decimal(text, line.number)?;
    text.extend_from_slice(b" t")?;
    push_decimal(text, u64::from(line.thread))?;
    text.extend_from_slice(b" v")?;
    push_decimal(text, version)?;
    text.extend_from_slice(b" = ")?;
    Ok(())
}

/// Appends a reply: an address, 0, -1 and the name of the error, or the area that a fault grew.
#[tactic(auto, unfolding(crate::specs::Output::reply_text))]
pub fn push_reply(text: &mut Vec<u8>, reply: Reply) -> Result<(), NoMemory>
    ensures ok { OnOk result (text.new.items ≡ text.old.items ++ reply_text reply) }
    ensures room { OnErr result (vec_capacity text.old < vec_len text.old + length (reply_text reply)) }
    ensures capacity { vec_capacity text.old ≤ vec_capacity text.new }
{
    match reply {
        Reply::Addr(address) => {
            text.extend_from_slice(b"0x")?;
            push_hex(text, address)
        }
        Reply::Zero => Ok(text.push(b'0')?),
        Reply::Refused(errno) => {
            text.extend_from_slice(b"-1 ")?;
            Ok(text.extend_from_slice(errno_name(errno).as_bytes())?)
        }
        Reply::Grown { area, index } => push_served(text, &area, index),
    }
}

/// The name of an error.
#[tactic(auto, unfolding(crate::specs::Output::errno_name))]
fn errno_name(errno: Errno) -> &'static str
    ensures { result.now ≡ errno_name errno }
{
    match errno {
        Errno::Eperm => "EPERM",
        Errno::Ebadf => "EBADF",
        Errno::Enomem => "ENOMEM",
        Errno::Eacces => "EACCES",
        Errno::Efault => "EFAULT",
        Errno::Eexist => "EEXIST",
        Errno::Einval => "EINVAL",
        Errno::Eoverflow => "EOVERFLOW",
    }
}

/// Appends how many areas a list has, which is the line before theirs.
pub fn push_count(text: &mut Vec<u8>, count: usize) -> Result<(), NoMemory>
    ensures ok { OnOk result (text.new.items ≡ text.old.items ++ (codes "maps " ++ (decimal count ++ codes "\n"))) }
    ensures room { OnErr result (vec_capacity text.old < vec_len text.old + length (codes "maps " ++ (decimal count ++ codes "\n"))) }
    ensures capacity { vec_capacity text.old ≤ vec_capacity text.new }
{
    text.extend_from_slice(b"maps ")?;
    push_decimal(text, count as u64)?;
    Ok(text.push(b'\n')?)
}

/// Appends what a line results in that forks a child: the child, and how many areas it begins with.
pub fn push_forked(text: &mut Vec<u8>, child: u32, count: usize) -> Result<(), NoMemory>
    ensures ok { OnOk result (text.new.items ≡ text.old.items ++ (codes "child "
        ++ (decimal child ++ (codes " areas " ++ (decimal count ++ codes "\n"))))) }
    ensures room { OnErr result (vec_capacity text.old < vec_len text.old + length (codes "child "
        ++ (decimal child ++ (codes " areas " ++ (decimal count ++ codes "\n"))))) }
    ensures capacity { vec_capacity text.old ≤ vec_capacity text.new }
{
    text.extend_from_slice(b"child ")?;
    push_decimal(text, u64::from(child))?;
    text.extend_from_slice(b" areas ")?;
    push_decimal(text, count as u64)?;
    Ok(text.push(b'\n')?)
}
