//! The text of a history and of lists, which is given while it is printed.
ghost use Rattle.std.specs.Prelude.{◌≡◌, ◌≤◌, ◌<◌, ◌^◌, ◌-◌, ◌++◌, [], All, codes, length, vec_capacity};
ghost use Rattle.mm_types.specs.MapsText.{list_text};
ghost use Rattle.trace_reader.specs.Values.{child_of};
ghost use Rattle.history.specs.declared.items.Content.TheVariants as contents;
ghost use Rattle.output.specs.Output.{item_text, listed_text, maps_text, reply_text, result_text, told_by, verdict_text};
ghost use Rattle.output.specs.declared.giving.TheConstants.{MOST_GIVEN};
ghost use Rattle.output.specs.Giving.{AreLegal, IsPrinting, IsPushing};

use crate::answered::AnsweredLines;
use crate::error::PrintError;
use crate::giving::{MOST_GIVEN, end_line, give_full};
use crate::{push_count, push_forked, push_reply, push_start, push_verdict};
use history::{Content, Item, SpaceLines};
use io_edge::Sink;
use maps_print::push_line;
use mm_types::{Files, Record, Reply, Verdict};
use std::alloc::Global;
use trace_reader::{Op, TraceLine};

/// Room for a piece of the output, and for a line of a usual length that goes past its end.
pub const ROOM: usize = MOST_GIVEN + 8_192;

/// Prints a legal history of lines, each item with the line that it answers, and after it a list. Of the text no more than a piece and a
/// line stand in memory: the piece holds less than `MOST_GIVEN` bytes before it and after it.
pub fn print_history<K: Sink>(
    alloc: Global,
    sink: &mut K,
    piece: &mut Vec<u8>,
    lines: &SpaceLines<'_>,
    files: &Files,
    items: &[Item],
    areas: &[Record],
) -> Result<(), PrintError>
    requires legal { AreLegal lines.now items.now }
    requires held { length piece.old.items < MOST_GIVEN }
    requires sink { (K.seen sink.old).faults < 2 ^ 64 - 1 }
    ensures { IsPrinting (K.seen sink.old) (K.seen sink.new) piece.old.items piece.new.items
        (listed_text files.now lines.now items.now areas.now) result }
{
    print_items(alloc, sink, piece, lines, files, items)?;
    print_maps(sink, piece, files, areas)
}

/// Prints the items of a legal history, each with the line that it answers.
fn print_items<K: Sink>(
    alloc: Global,
    sink: &mut K,
    piece: &mut Vec<u8>,
    lines: &SpaceLines<'_>,
    files: &Files,
    items: &[Item],
) -> Result<(), PrintError>
    requires legal { AreLegal lines.now items.now }
    requires held { length piece.old.items < MOST_GIVEN }
    requires sink { (K.seen sink.old).faults < 2 ^ 64 - 1 }
    ensures { IsPrinting (K.seen sink.old) (K.seen sink.new) piece.old.items piece.new.items
        (told_by (item_text files.now) lines.now [] items.now) result }
{
    let mut answered = AnsweredLines::new(alloc, lines)?;
    for item in items {
        let line = answered.next(item);
        print_item(sink, piece, files, line, item)?;
    }
    Ok(())
}

/// Prints an item, with the line that it answers.
fn print_item<K: Sink>(
    sink: &mut K,
    piece: &mut Vec<u8>,
    files: &Files,
    line: &TraceLine,
    item: &Item,
) -> Result<(), PrintError>
    requires { (K.seen sink.old).faults < 2 ^ 64 - 1 }
    ensures printing { IsPrinting (K.seen sink.old) (K.seen sink.new) piece.old.items piece.new.items
        (item_text files.now line.now item.now) result }
    ensures fits { IsPushing (vec_capacity piece.old) (vec_capacity piece.new) piece.old.items piece.new.items
        (item_text files.now line.now item.now) result }
{
    push_start(piece, line, item.version)?;
    print_result(sink, piece, files, line.op, &item.content)
}

/// Prints what an operation results in, up to the end of its last line.
fn print_result<K: Sink>(
    sink: &mut K,
    piece: &mut Vec<u8>,
    files: &Files,
    op: Op,
    content: &Content,
) -> Result<(), PrintError>
    requires { (K.seen sink.old).faults < 2 ^ 64 - 1 }
    ensures printing { IsPrinting (K.seen sink.old) (K.seen sink.new) piece.old.items piece.new.items
        (result_text files.now (child_of op) content.now) result }
    ensures fits { IsPushing (vec_capacity piece.old) (vec_capacity piece.new) piece.old.items piece.new.items
        (result_text files.now (child_of op) content.now) result }
{
    match content {
        Content::Called(_, reply) => print_reply(sink, piece, *reply),
        Content::Fault { verdict, .. } => print_verdict(sink, piece, *verdict),
        Content::List(areas) => print_areas(sink, piece, files, op, areas.items()),
    }
}

/// Prints a reply, and ends its line.
pub(crate) fn print_reply<K: Sink>(
    sink: &mut K,
    piece: &mut Vec<u8>,
    reply: Reply,
) -> Result<(), PrintError>
    requires { (K.seen sink.old).faults < 2 ^ 64 - 1 }
    ensures printing { IsPrinting (K.seen sink.old) (K.seen sink.new) piece.old.items piece.new.items (reply_text reply ++ codes "\n") result }
    ensures fits { IsPushing (vec_capacity piece.old) (vec_capacity piece.new) piece.old.items piece.new.items (reply_text reply ++ codes "\n") result }
{
    push_reply(piece, reply)?;
    end_line(sink, piece)
}

/// Prints a verdict, and ends its line.
pub(crate) fn print_verdict<K: Sink>(
    sink: &mut K,
    piece: &mut Vec<u8>,
    verdict: Verdict,
) -> Result<(), PrintError>
    requires { (K.seen sink.old).faults < 2 ^ 64 - 1 }
    ensures printing { IsPrinting (K.seen sink.old) (K.seen sink.new) piece.old.items piece.new.items (verdict_text verdict ++ codes "\n") result }
    ensures fits { IsPushing (vec_capacity piece.old) (vec_capacity piece.new) piece.old.items piece.new.items (verdict_text verdict ++ codes "\n") result }
{
    push_verdict(piece, verdict)?;
    end_line(sink, piece)
}

/// Prints the list that an operation read: where it makes a child, the child and how many areas it begins with.
pub(crate) fn print_areas<K: Sink>(
    sink: &mut K,
    piece: &mut Vec<u8>,
    files: &Files,
    op: Op,
    areas: &[Record],
) -> Result<(), PrintError>
    requires { (K.seen sink.old).faults < 2 ^ 64 - 1 }
    ensures printing { IsPrinting (K.seen sink.old) (K.seen sink.new) piece.old.items piece.new.items
        (result_text files.now (child_of op) (contents.List areas.now)) result }
    ensures fits { IsPushing (vec_capacity piece.old) (vec_capacity piece.new) piece.old.items piece.new.items
        (result_text files.now (child_of op) (contents.List areas.now)) result }
{
    match op {
        Op::Fork { child } => {
            push_forked(piece, child, areas.len())?;
            give_full(sink, piece)
        }
        Op::Call(_) | Op::Fault { .. } | Op::Maps => print_maps(sink, piece, files, areas),
    }
}

/// Prints how many areas there are, and their lines.
pub fn print_maps<K: Sink>(
    sink: &mut K,
    piece: &mut Vec<u8>,
    files: &Files,
    areas: &[Record],
) -> Result<(), PrintError>
    requires { (K.seen sink.old).faults < 2 ^ 64 - 1 }
    ensures printing { IsPrinting (K.seen sink.old) (K.seen sink.new) piece.old.items piece.new.items
        (maps_text files.now areas.now) result }
    ensures fits { IsPushing (vec_capacity piece.old) (vec_capacity piece.new) piece.old.items piece.new.items
        (maps_text files.now areas.now) result }
{
    push_count(piece, areas.len())?;
    give_full(sink, piece)?;
    print_list(sink, piece, files, areas)
}

/// Prints a line for each area, in their order.
fn print_list<K: Sink>(
    sink: &mut K,
    piece: &mut Vec<u8>,
    files: &Files,
    areas: &[Record],
) -> Result<(), PrintError>
    requires held { length piece.old.items < MOST_GIVEN }
    requires sink { (K.seen sink.old).faults < 2 ^ 64 - 1 }
    ensures printing { IsPrinting (K.seen sink.old) (K.seen sink.new) piece.old.items piece.new.items
        (list_text files.now areas.now) result }
    ensures fits { IsPushing (vec_capacity piece.old) (vec_capacity piece.new) piece.old.items piece.new.items
        (list_text files.now areas.now) result }
{
    for area in areas {
        push_line(piece, area, files)?;
        give_full(sink, piece)?;
    }
    Ok(())
}
