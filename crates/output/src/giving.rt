//! Texts that are given to a sink a piece after the other.
ghost use Rattle.std.specs.Prelude.{◌≡◌, ◌≤◌, ◌<◌, ◌^◌, ◌-◌, [], codes, drop, length, take, vec_capacity};
ghost use Rattle.output.specs.Giving.{IsGivingText, IsPrinting, IsPushing};
ghost use Rattle.output.specs.declared.giving.TheConstants.{MOST_GIVEN};

use crate::error::PrintError;
use io_edge::{GiveError, Sink};

/// How many bytes are given at a call at most.
pub const MOST_GIVEN: usize = 65_536;

/// The bytes of a piece.
pub fn most_given()
    ensures { MOST_GIVEN ≡ 65536 }
{}

/// Gives all of a text to a sink, in pieces of at most `MOST_GIVEN` bytes. Where the sink takes part of a piece, the next begins with
/// the rest.
pub fn give_all<K: Sink>(sink: &mut K, text: &[u8]) -> Result<(), PrintError>
    requires { (K.seen sink.old).faults < 2 ^ 64 - 1 }
    ensures { IsGivingText (K.seen sink.old) (K.seen sink.new) text.now result }
{
    let mut given = 0;
    while given < text.len() {
        match sink.give(front(&text[given..])) {
            Ok(count) => given += count,
            Err(GiveError::Failed) => return Err(PrintError::WriteFault),
            Err(GiveError::NoMemory) => return Err(PrintError::NoMemory),
        }
    }
    Ok(())
}

/// The first `MOST_GIVEN` bytes of a text, or all of a shorter one.
#[tactic(auto, using(std::proofs::lemmas::List::take_min))]
fn front(text: &[u8]) -> &[u8]
    ensures { result.now ≡ take MOST_GIVEN text.now }
{
    &text[..MOST_GIVEN.min(text.len())]
}

/// Gives of what a piece holds as much as fills whole pieces, so that it holds less than `MOST_GIVEN` bytes.
pub fn give_full<K: Sink>(sink: &mut K, piece: &mut Vec<u8>) -> Result<(), PrintError>
    requires { (K.seen sink.old).faults < 2 ^ 64 - 1 }
    ensures printing { IsPrinting (K.seen sink.old) (K.seen sink.new) piece.old.items piece.new.items [] result }
    ensures fits { IsPushing (vec_capacity piece.old) (vec_capacity piece.new) piece.old.items piece.new.items [] result }
{
    let full = piece.len() - piece.len() % MOST_GIVEN;
    if full == 0 {
        return Ok(());
    }
    give_all(sink, &piece[..full])?;
    drop_front(piece, full);
    Ok(())
}

/// Drops so many bytes from the front of a piece, of which no more are left.
fn drop_front(piece: &mut Vec<u8>, count: usize)
    requires within { count ≤ length piece.old.items }
    requires rest { length piece.old.items - count ≤ count }
    ensures { piece.new.items ≡ drop count piece.old.items }
{
    let rest = piece.len() - count;
    let (front, left) = piece.as_mut_slice().split_at_mut(count);
    front[..rest].copy_from_slice(left);
    piece.truncate(rest);
}

/// Ends a line in a piece, and gives as much as fills whole pieces.
pub(crate) fn end_line<K: Sink>(sink: &mut K, piece: &mut Vec<u8>) -> Result<(), PrintError>
    requires { (K.seen sink.old).faults < 2 ^ 64 - 1 }
    ensures printing { IsPrinting (K.seen sink.old) (K.seen sink.new) piece.old.items piece.new.items (codes "\n") result }
    ensures fits { IsPushing (vec_capacity piece.old) (vec_capacity piece.new) piece.old.items piece.new.items (codes "\n") result }
{
    piece.extend_from_slice(b"\n")?;
    give_full(sink, piece)
}
