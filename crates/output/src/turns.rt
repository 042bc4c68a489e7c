//! What one caller did, which is given while it is printed, one thing with each line.
ghost use Rattle.std.specs.Prelude.{◌<◌, ◌^◌, ◌-◌, length, vec_capacity};
ghost use Rattle.history.specs.Runs.{content_of};
ghost use Rattle.history.specs.Turns.{turn_item};
ghost use Rattle.output.specs.Output.{item_text, result_text};
ghost use Rattle.trace_reader.specs.Values.{child_of};
ghost use Rattle.output.specs.declared.giving.TheConstants.{MOST_GIVEN};
ghost use Rattle.output.specs.Giving.{IsPrinting, IsPushing};
ghost use Rattle.output.specs.Telling.{told_in_turn};

use crate::error::PrintError;
use crate::printing::{print_areas, print_reply, print_verdict};
use crate::push_start;
use history::{Turn, Turns};
use io_edge::Sink;
use mm_types::{Files, Seen};
use trace_reader::{Op, TraceLine};

/// Prints what was done, one thing with each line.
pub fn print_turns<K: Sink>(
    sink: &mut K,
    piece: &mut Vec<u8>,
    lines: &[TraceLine],
    files: &Files,
    mut turns: Turns<'_>,
) -> Result<(), PrintError>
    requires held { length piece.old.items < MOST_GIVEN }
    requires sink { (K.seen sink.old).faults < 2 ^ 64 - 1 }
    ensures printing { IsPrinting (K.seen sink.old) (K.seen sink.new) piece.old.items piece.new.items
        (told_in_turn (item_text files.now) lines.now turns.entry) result }
    ensures fits { IsPushing (vec_capacity piece.old) (vec_capacity piece.new) piece.old.items piece.new.items
        (told_in_turn (item_text files.now) lines.now turns.entry) result }
{
    for line in lines {
        let Some(turn) = turns.next() else {
            return Ok(());
        };
        print_turn(sink, piece, files, line, turn)?;
    }
    Ok(())
}

/// Prints one thing that was done, with its line.
fn print_turn<K: Sink>(
    sink: &mut K,
    piece: &mut Vec<u8>,
    files: &Files,
    line: &TraceLine,
    turn: Turn<'_>,
) -> Result<(), PrintError>
    requires { (K.seen sink.old).faults < 2 ^ 64 - 1 }
    ensures printing { IsPrinting (K.seen sink.old) (K.seen sink.new) piece.old.items piece.new.items
        (item_text files.now line.now (turn_item turn.entry)) result }
    ensures fits { IsPushing (vec_capacity piece.old) (vec_capacity piece.new) piece.old.items piece.new.items
        (item_text files.now line.now (turn_item turn.entry)) result }
{
    push_start(piece, line, turn.version())?;
    match turn {
        Turn::Call(_, entry) => print_reply(sink, piece, entry.reply),
        Turn::Read(read) => print_read(sink, piece, files, line.op, read),
    }
}

/// Prints what an operation read.
fn print_read<K: Sink>(
    sink: &mut K,
    piece: &mut Vec<u8>,
    files: &Files,
    op: Op,
    read: &Seen,
) -> Result<(), PrintError>
    requires { (K.seen sink.old).faults < 2 ^ 64 - 1 }
    ensures printing { IsPrinting (K.seen sink.old) (K.seen sink.new) piece.old.items piece.new.items
        (result_text files.now (child_of op) (content_of read.now)) result }
    ensures fits { IsPushing (vec_capacity piece.old) (vec_capacity piece.new) piece.old.items piece.new.items
        (result_text files.now (child_of op) (content_of read.now)) result }
{
    match read {
        Seen::Fault { verdict, .. } => print_verdict(sink, piece, *verdict),
        Seen::Maps { list, .. } => print_areas(sink, piece, files, op, list.items()),
    }
}
