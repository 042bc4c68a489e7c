//! The calls that the words of a line ask for.

ghost use Rattle.std.specs.Prelude.{◌≡◌, map, option_copied};
ghost use Rattle.trace_reader.specs.Calls.{read_mmap, mmap_of, read_munmap, munmap_of, read_mprotect, mprotect_of, number_if, read_mremap, mremap_of, brk_of, read_mseal, mseal_of, call_named, has_its_new, call_of_words, read_call};
ghost use Rattle.text_lexer.specs.Reading.{Gives, ReadsAs};

use crate::fields::{flags, mapped_descriptor, prot};
use flag_table::{map_table, mremap_table};
use mm_types::{Call, MREMAP_FIXED, MmapArgs, has_flag};
use std::alloc::Global;
use text_lexer::{CallError, Cause, is_name, number, words_of};

/// The words of an mremap(2) with a new address, its name among them.
const WORDS_WITH_NEW: usize = 6;

/// The mmap(2) of these words.
#[tactic(auto, unfolding(crate::specs::Calls::read_mmap))]
fn mmap(
    addr: &str,
    len: &str,
    allowed: &str,
    options: &str,
    fd: &str,
    offset: &str,
) -> Result<Call, Cause>
    ensures { ReadsAs (λ call. call) result (read_mmap addr.now len.now allowed.now options.now fd.now offset.now) }
{
    Ok(Call::Mmap(MmapArgs {
        addr: number(addr)?,
        len: number(len)?,
        prot: prot(allowed)?,
        flags: flags(&map_table(), options)?,
        fd: mapped_descriptor(fd)?,
        offset: number(offset)?,
    }))
}

/// `mmap ADDR LEN PROT FLAGS FD OFF`, from the words after the first.
#[tactic(auto, unfolding(crate::specs::Calls::mmap_of))]
fn mmap_of(words: &[&str]) -> Result<Call, Cause>
    ensures { ReadsAs (λ call. call) result (mmap_of (map (λ word. word.now) words.now)) }
{
    match words {
        [addr, len, allowed, options, fd, offset] => mmap(addr, len, allowed, options, fd, offset),
        _ => Err(Cause::Arity),
    }
}

/// The munmap(2) of these words.
#[tactic(auto, unfolding(crate::specs::Calls::read_munmap))]
fn munmap(addr: &str, len: &str) -> Result<Call, Cause>
    ensures { ReadsAs (λ call. call) result (read_munmap addr.now len.now) }
{
    Ok(Call::Munmap {
        addr: number(addr)?,
        len: number(len)?,
    })
}

/// `munmap ADDR LEN`.
#[tactic(auto, unfolding(crate::specs::Calls::munmap_of))]
fn munmap_of(words: &[&str]) -> Result<Call, Cause>
    ensures { ReadsAs (λ call. call) result (munmap_of (map (λ word. word.now) words.now)) }
{
    match words {
        [addr, len] => munmap(addr, len),
        _ => Err(Cause::Arity),
    }
}

/// The mprotect(2) of these words.
#[tactic(auto, unfolding(crate::specs::Calls::read_mprotect))]
fn mprotect(addr: &str, len: &str, allowed: &str) -> Result<Call, Cause>
    ensures { ReadsAs (λ call. call) result (read_mprotect addr.now len.now allowed.now) }
{
    Ok(Call::Mprotect {
        addr: number(addr)?,
        len: number(len)?,
        prot: prot(allowed)?,
    })
}

/// `mprotect ADDR LEN PROT`.
#[tactic(auto, unfolding(crate::specs::Calls::mprotect_of))]
fn mprotect_of(words: &[&str]) -> Result<Call, Cause>
    ensures { ReadsAs (λ call. call) result (mprotect_of (map (λ word. word.now) words.now)) }
{
    match words {
        [addr, len, allowed] => mprotect(addr, len, allowed),
        _ => Err(Cause::Arity),
    }
}

/// A number, where its word is there.
#[tactic(auto, unfolding(crate::specs::Calls::number_if))]
fn number_if(word: Option<&str>) -> Result<Option<u64>, Cause>
    ensures { ReadsAs (λ n. n) result (number_if (option_copied word.entry)) }
{
    match word {
        None => Ok(None),
        Some(word) => Ok(Some(number(word)?)),
    }
}

/// The mremap(2) of these words, where a NEW that is not there is 0.
#[tactic(auto, unfolding(crate::specs::Calls::read_mremap))]
fn mremap(
    old: &str,
    old_len: &str,
    new_len: &str,
    options: &str,
    new: Option<&str>,
) -> Result<Call, Cause>
    ensures { ReadsAs (λ call. call) result (read_mremap old.now old_len.now new_len.now options.now (option_copied new.entry)) }
{
    let old = number(old)?;
    let old_len = number(old_len)?;
    let new_len = number(new_len)?;
    let flags = flags(&mremap_table(), options)?;
    let new = number_if(new)?;
    Ok(Call::Mremap {
        old,
        old_len,
        new_len,
        flags,
        new: new.unwrap_or(0),
    })
}

/// `mremap OLD OLDLEN NEWLEN FLAGS`, or with a fifth word NEW.
#[tactic(auto, unfolding(crate::specs::Calls::mremap_of))]
fn mremap_of(words: &[&str]) -> Result<Call, Cause>
    ensures { ReadsAs (λ call. call) result (mremap_of (map (λ word. word.now) words.now)) }
{
    match words {
        [old, old_len, new_len, options] => mremap(old, old_len, new_len, options, None),
        [old, old_len, new_len, options, new] => mremap(old, old_len, new_len, options, Some(new)),
        _ => Err(Cause::Arity),
    }
}

/// `brk ADDR` of brk(2).
#[tactic(auto, unfolding(crate::specs::Calls::brk_of))]
pub(crate) fn brk_of(words: &[&str]) -> Result<Call, Cause>
    ensures { ReadsAs (λ call. call) result (brk_of (map (λ word. word.now) words.now)) }
{
    let [addr] = words else {
        return Err(Cause::Arity);
    };
    Ok(Call::Brk {
        addr: number(addr)?,
    })
}

/// The mseal(2) of these words, all of them numbers.
#[tactic(auto, unfolding(crate::specs::Calls::read_mseal))]
fn mseal(addr: &str, len: &str, options: &str) -> Result<Call, Cause>
    ensures { ReadsAs (λ call. call) result (read_mseal addr.now len.now options.now) }
{
    Ok(Call::Mseal {
        addr: number(addr)?,
        len: number(len)?,
        flags: number(options)?,
    })
}

/// `mseal ADDR LEN FLAGS`.
#[tactic(auto, unfolding(crate::specs::Calls::mseal_of))]
pub(crate) fn mseal_of(words: &[&str]) -> Result<Call, Cause>
    ensures { ReadsAs (λ call. call) result (mseal_of (map (λ word. word.now) words.now)) }
{
    match words {
        [addr, len, options] => mseal(addr, len, options),
        _ => Err(Cause::Arity),
    }
}

/// The call of one of the four names, from the words after it.
#[tactic(auto, unfolding(crate::specs::Calls::call_named))]
pub(crate) fn call_named(name: &str, words: &[&str]) -> Result<Call, Cause>
    ensures { ReadsAs (λ call. call) result (call_named name.now (map (λ word. word.now) words.now)) }
{
    if is_name(name, "mmap") {
        mmap_of(words)
    } else if is_name(name, "munmap") {
        munmap_of(words)
    } else if is_name(name, "mprotect") {
        mprotect_of(words)
    } else if is_name(name, "mremap") {
        mremap_of(words)
    } else {
        Err(Cause::Word)
    }
}

/// Whether an mremap(2) of these words, its name among them, has NEW exactly where its flags have `MREMAP_FIXED`.
#[tactic(auto, unfolding(crate::specs::Calls::has_its_new))]
pub(crate) fn has_its_new(call: &Call, words: &[&str]) -> bool
    ensures { result ≡ has_its_new call.now (map (λ word. word.now) words.now) }
{
    match call {
        Call::Mremap { flags, .. } => {
            has_flag(*flags, MREMAP_FIXED) == (words.len() == WORDS_WITH_NEW)
        }
        _ => true,
    }
}

/// The words of a call: its name, and the words of its form.
#[tactic(auto, unfolding(crate::specs::Calls::call_of_words))]
fn call_of_words(words: &[&str]) -> Result<Call, Cause>
    ensures { ReadsAs (λ call. call) result (call_of_words (map (λ word. word.now) words.now)) }
{
    let [name, rest @ ..] = words else {
        return Err(Cause::Arity);
    };
    let call = call_named(name, rest)?;
    if has_its_new(&call, words) {
        Ok(call)
    } else {
        Err(Cause::Arity)
    }
}

/// The call that a text asks for, one of mmap(2), munmap(2), mprotect(2) and mremap(2), as it stands after the thread of a trace
/// line: `munmap 0x1000 4096`. Any other name is `Cause::Word`. Only the list of its words takes memory.
#[tactic(auto, unfolding(crate::specs::Calls::read_call))]
pub fn call_of(alloc: Global, text: &str) -> Result<Call, CallError>
    ensures { Gives (λ call. call) result (read_call text.now) }
{
    let words = words_of(alloc, text)?;
    let call = call_of_words(words.as_slice())?;
    Ok(call)
}
