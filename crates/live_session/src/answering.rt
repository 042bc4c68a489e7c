//! The answer to a line.
ghost use Rattle.std.specs.Prelude.{◌≡◌, ◌<◌, ◌≤◌, ◌+◌, ◌-◌, ◌^◌, ◌++◌, false, true, IfOk, IsErr, IsSome, IsSomeAnd, OnErr, OnOk, length, unwrap_or, vec_capacity, vec_len};
ghost use Rattle.text_lexer.specs.Lines.{raw_line, text_of};
ghost use Rattle.trace_reader.specs.Lines.{SoFar};
ghost use Rattle.trace_reader.specs.Reading.{HasRoomForWords};
ghost use Rattle.live_session.specs.Sessions.{answer_read, line_answer, line_asks, areas_text, bad_counted, bad_text, closing_text, ending_text, found_text, opened_by, session_space, unended_text};
ghost use Rattle.live_session.specs.Internal.Lacking.{LacksForList, LacksRoom, LineMayLack, MayLack, found_line};
ghost use Rattle.live_session.specs.Internal.Talking.{AnswersLine, SpaceHasRoom, IsReached, Operates, as_called, session_of};

use crate::asking::{Asked, Says};
use crate::live_space::LiveSpace;
use maps_print::push_decimal;
use mm_types::NoMemory;
use output::{push_count, push_start};
use std::alloc::Global;
use text_lexer::{CallError, Cause, RawLine, text_of};
use trace_reader::TraceLine;

/// Why lines are answered no further.
#[derive(Clone, Copy, Debug, PartialEq, Eq)]
pub(crate) enum Stop {
    /// An operation is to be answered, and no address space is open.
    Operation(TraceLine),
    /// The address space ended, and another begins.
    New,
    /// The input ended.
    End,
}

/// Appends the answer to a whole line, without its newline. An operation that is to open an address space is handed out in place of its
/// answer. Its words come into `words`. Fails only where memory runs out: where `words` has no room for them, for a line that a trace keeps, for
/// a list of some areas, and where the piece has no room for the answer.
#[tactic(auto, unfolding(crate::specs::Sessions::line_answer))]
pub(crate) fn answer_line<'a>(
    alloc: Global,
    words: &mut Vec<&'a str>,
    piece: &mut Vec<u8>,
    says: &mut Says,
    space: &mut Option<LiveSpace<'_>>,
    text: &'a [u8],
) -> Result<Option<Stop>, NoMemory>
    requires { IsReached (session_of says.old space.old) }
    ensures answers { IfOk result (AnswersLine (line_answer (session_of says.old space.old) text.now) piece.old.items piece.new.items
        (session_of says.new space.new)) }
    ensures open { IsSome space.old → IsSome space.new }
    ensures memory { HasRoomForWords (vec_capacity words.old) (raw_line (says.old.count + 1) 0 text.now true)
        → OnErr result (LineMayLack (session_of says.old space.old) (line_asks (session_of says.old space.old) text.now)
        (vec_capacity piece.old) (vec_len piece.old)) }
{
    let number = says.count + 1;
    let line = RawLine {
        number,
        text,
        start: 0,
        ended: true,
    };
    match asked_or_bad(says.ask(alloc, words, &line))? {
        Ok(asked) => answer(alloc, piece, says, space, asked),
        Err(cause) => {
            says.count = bad_counted(says.count);
            push_bad(piece, number, cause)?;
            Ok(None)
        }
    }
}

/// What a line asks for, or why it is bad. Fails exactly where memory ran out before.
fn asked_or_bad(asked: Result<Asked, CallError>) -> Result<Result<Asked, Cause>, NoMemory>
    ensures read { IfOk result (λ read. asked ≡ as_called read) }
    ensures memory { IsErr result → asked ≡ Err CallError.NoMemory }
{
    match asked {
        Ok(asked) => Ok(Ok(asked)),
        Err(CallError::Bad(cause)) => Ok(Err(cause)),
        Err(CallError::NoMemory) => Err(NoMemory),
    }
}

/// Appends the answer to what a line asks for that was read, and counts the line. Memory is taken for a list of some areas, and where the piece
/// has no room.
fn answer(
    alloc: Global,
    piece: &mut Vec<u8>,
    says: &mut Says,
    space: &mut Option<LiveSpace<'_>>,
    asked: Asked,
) -> Result<Option<Stop>, NoMemory>
    requires count { says.old.count < 2 ^ 64 - 1 }
    requires room { SpaceHasRoom space.old }
    ensures answers { IfOk result (AnswersLine (answer_read (session_of says.old space.old) asked) piece.old.items piece.new.items
        (session_of says.new space.new)) }
    ensures open { IsSome space.old → IsSome space.new }
    ensures memory { OnErr result (MayLack asked (session_of says.old space.old) (vec_capacity piece.old) (vec_len piece.old)) }
{
    match asked {
        Asked::Nothing => {
            says.count += 1;
            Ok(None)
        }
        Asked::Areas(line) => {
            says.count += 1;
            push_start(piece, &line, version(space))?;
            push_areas(alloc, piece, space)?;
            Ok(None)
        }
        Asked::Operation(line) => {
            says.count += 1;
            operate(alloc, piece, space, line)
        }
        Asked::Query(address) => {
            says.count += 1;
            push_found(piece, space, address)?;
            Ok(None)
        }
        Asked::New => {
            push_closing(alloc, piece, says, space)?;
            Ok(Some(Stop::New))
        }
    }
}

/// Makes an operation in the space that is open, and appends its answer.
fn operate(
    alloc: Global,
    piece: &mut Vec<u8>,
    space: &mut Option<LiveSpace<'_>>,
    line: TraceLine,
) -> Result<Option<Stop>, NoMemory>
    requires { SpaceHasRoom space.old }
    ensures operates { IfOk result (Operates space.old space.new line piece.old.items piece.new.items) }
    ensures memory { OnErr result (IsSomeAnd space.old (λ now. LacksRoom now line (vec_capacity piece.old) (vec_len piece.old))) }
    ensures open { IsSome space.old → IsSome space.new }
{
    match space {
        Some(live) => {
            live.operate(alloc, piece, &line)?;
            Ok(None)
        }
        None => Ok(Some(Stop::Operation(line))),
    }
}

/// How many calls were made in the space, if one is open.
fn version(space: &Option<LiveSpace<'_>>) -> u64
    ensures { (so_far : SoFar) → result ≡ (unwrap_or space.now (opened_by so_far)).version }
{
    match space {
        Some(live) => live.version(),
        None => 0,
    }
}

/// Appends the list of the space: where none is open, that of no area. Only a list of some areas is copied.
fn push_areas(
    alloc: Global,
    piece: &mut Vec<u8>,
    space: &Option<LiveSpace<'_>>,
) -> Result<(), NoMemory>
    ensures text { (so_far : SoFar) → OnOk result (piece.new.items ≡ piece.old.items ++ areas_text (unwrap_or space.now (opened_by so_far))) }
    ensures room { (so_far : SoFar) → OnErr result (LacksForList (unwrap_or space.now (opened_by so_far))
        (areas_text (unwrap_or space.now (opened_by so_far))) (vec_capacity piece.old) (vec_len piece.old)) }
{
    match space {
        Some(live) => live.push_areas(alloc, piece),
        None => push_count(piece, 0),
    }
}

/// Appends the line of the first area that ends above an address, without the spaces at its end, or `none`.
fn push_found(
    piece: &mut Vec<u8>,
    space: &Option<LiveSpace<'_>>,
    address: u64,
) -> Result<(), NoMemory>
    ensures text { (so_far : SoFar) → OnOk result (piece.new.items ≡ piece.old.items ++ found_text (unwrap_or space.now (opened_by so_far)) address) }
    ensures room { (so_far : SoFar) → OnErr result (vec_capacity piece.old
        < vec_len piece.old + length (found_line (unwrap_or space.now (opened_by so_far)) address)) }
{
    match space {
        Some(live) => live.push_found(piece, address),
        None => Ok(piece.extend_from_slice(b"none\n")?),
    }
}

/// Appends the last list of an address space, where a header came. Else it takes no memory.
#[tactic(auto, unfolding(crate::specs::Sessions::closing_text))]
pub(crate) fn push_closing(
    alloc: Global,
    piece: &mut Vec<u8>,
    says: &Says,
    space: &Option<LiveSpace<'_>>,
) -> Result<(), NoMemory>
    ensures text { OnOk result (piece.new.items ≡ piece.old.items ++ closing_text (session_of says.now space.now)) }
    ensures memory { IsErr result → 0 < says.now.count }
    ensures room { OnErr result (LacksForList (session_space (session_of says.now space.now)) (closing_text (session_of says.now space.now))
        (vec_capacity piece.old) (vec_len piece.old)) }
{
    if 0 < says.count {
        push_areas(alloc, piece, space)
    } else {
        Ok(())
    }
}

/// Appends the end of a session: the answer to what is behind the last newline, if it has a byte, and the last list. Without either it takes
/// no memory.
#[tactic(auto, unfolding(crate::specs::Sessions::ending_text))]
pub(crate) fn push_ending(
    alloc: Global,
    piece: &mut Vec<u8>,
    says: &Says,
    space: &Option<LiveSpace<'_>>,
    rest: &[u8],
) -> Result<(), NoMemory>
    requires { says.now.count < 2 ^ 64 - 1 }
    ensures text { OnOk result (piece.new.items ≡ piece.old.items ++ ending_text (session_of says.now space.now) rest.now) }
    ensures memory { IsErr result → 0 < says.now.count + length rest.now }
    ensures room { OnErr result (LacksForList (session_space (session_of says.now space.now)) (ending_text (session_of says.now space.now) rest.now)
        (vec_capacity piece.old) (vec_len piece.old)) }
{
    if !rest.is_empty() {
        push_unended(piece, says.count + 1, rest)?;
    }
    push_closing(alloc, piece, says, space)
}

/// Appends the answer to a line that no newline ends.
fn push_unended(piece: &mut Vec<u8>, number: u64, rest: &[u8]) -> Result<(), NoMemory>
    ensures text { OnOk result (piece.new.items ≡ piece.old.items ++ unended_text number (text_of (raw_line number 0 rest.now false))) }
    ensures room { OnErr result (vec_capacity piece.old
        < vec_len piece.old + length (unended_text number (text_of (raw_line number 0 rest.now false)))) }
    ensures capacity { vec_capacity piece.old ≤ vec_capacity piece.new }
{
    let line = RawLine {
        number,
        text: rest,
        start: 0,
        ended: false,
    };
    match text_of(&line) {
        Ok(_) => Ok(()),
        Err(cause) => push_bad(piece, number, cause),
    }
}

/// The number of the last line once the next was bad: until the header came each line is line 1.
fn bad_counted(count: u64) -> u64
    requires { count < 2 ^ 64 - 1 }
    ensures { result ≡ bad_counted count }
{
    if 0 < count { count + 1 } else { 0 }
}

/// Appends the answer to a bad line. A piece that has room for it takes no memory.
#[tactic(auto, unfolding(crate::specs::Sessions::bad_text))]
pub(crate) fn push_bad(piece: &mut Vec<u8>, line: u64, cause: Cause) -> Result<(), NoMemory>
    ensures text { OnOk result (piece.new.items ≡ piece.old.items ++ bad_text line cause) }
    ensures room { OnErr result (vec_capacity piece.old < vec_len piece.old + length (bad_text line cause)) }
    ensures capacity { vec_capacity piece.old ≤ vec_capacity piece.new }
{
    piece.extend_from_slice(b"trace line ")?;
    push_decimal(piece, line)?;
    piece.extend_from_slice(b" cause ")?;
    push_decimal(piece, u64::from(cause.number()))?;
    piece.push(b' ')?;
    piece.extend_from_slice(cause.name().as_bytes())?;
    Ok(piece.push(b'\n')?)
}
