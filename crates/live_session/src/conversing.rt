//! A session with a source and a sink.
ghost use Rattle.std.specs.Prelude.{◌≡◌, ◌<◌, ◌-◌, ◌^◌, ◌++◌, true, None, IfOk, IsSome};
ghost use Rattle.std.specs.Option.{option_map};
ghost use Rattle.io_edge.specs.Edge.{SinkView, SourceView};
ghost use Rattle.live_session.specs.Conversing.{IsConversation};
ghost use Rattle.live_session.specs.Sessions.{session_begun, operated};
ghost use Rattle.live_session.specs.Internal.Held.{Turns};
ghost use Rattle.live_session.specs.Internal.Talking.{Ends, EndsSpace, IsTalking, Talked, session_of, session_end};

use crate::answering::{Stop, answer_line, push_ending};
use crate::asking::Says;
use crate::giving::give_answers;
use crate::held::Held;
use crate::live_space::{LiveSpace, Spare};
use crate::status::Status;
use io_edge::{Sink, Source};
use output::give_full;
use std::alloc::Global;
use trace_reader::TraceLine;

/// Holds a session with a source and a sink, up to the end of the input: each whole line is answered before more is read. `NoMemory` comes
/// where memory ran out once a byte was read, `TooMany` where there were as many lines and reads as 64 bits count, and the others by their
/// causes. Of a line without an end no more is kept than shows that it is too long.
pub fn converse<S: Source, K: Sink>(alloc: Global, source: &mut S, sink: &mut K) -> Status
    requires source_count_has_room { (S.seen source.old).faults < 2 ^ 64 - 1 }
    requires sink_count_has_room { (K.seen sink.old).faults < 2 ^ 64 - 1 }
    ensures { IsConversation result (S.seen source.old) (S.seen source.new) (K.seen sink.old) (K.seen sink.new) }
{
    let mut held = Held::new(alloc);
    let mut piece = Vec::new(alloc);
    let mut spare = None;
    match answer_spaces(alloc, source, sink, &mut held, &mut piece, &mut spare) {
        Ok(()) => Status::Done,
        Err(status) => status,
    }
}

/// Answers the lines of one address space after another, up to the end of the input.
fn answer_spaces<S: Source, K: Sink>(
    alloc: Global,
    source: &mut S,
    sink: &mut K,
    held: &mut Held,
    piece: &mut Vec<u8>,
    spare: &mut Option<Spare>,
) -> Result<(), Status>
    requires { IsTalking (S.seen source.old) (K.seen sink.old) held.old piece.old.items session_begun }
    ensures { (s : SourceView) (k : SinkView) → Talked s (S.seen source.old) k (K.seen sink.old) held.old piece.old.items session_begun
        → IsConversation (session_end result) s (S.seen source.new) k (K.seen sink.new) }
{
    'spaces: while answer_space(alloc, source, sink, held, piece, spare)? {}
    Ok(())
}

/// Answers the lines of an address space, and tells whether another begins behind it. Then there is memory to spare, if there was.
fn answer_space<S: Source, K: Sink>(
    alloc: Global,
    source: &mut S,
    sink: &mut K,
    held: &mut Held,
    piece: &mut Vec<u8>,
    spare: &mut Option<Spare>,
) -> Result<bool, Status>
    requires { IsTalking (S.seen source.old) (K.seen sink.old) held.old piece.old.items session_begun }
    ensures ends { (s : SourceView) (k : SinkView) → Talked s (S.seen source.old) k (K.seen sink.old) held.old piece.old.items session_begun
        → EndsSpace s (S.seen source.new) k (K.seen sink.new) held.new piece.new.items result }
    ensures turns { IfOk result (λ more. Turns held.old held.new) }
    ensures spared { IfOk result (λ more. more ≡ true → IsSome spare.old → IsSome spare.new) }
{
    let mut says = Says::new(alloc);
    let mut space = None;
    match answer_lines(alloc, source, sink, held, piece, &mut says, &mut space)? {
        Stop::Operation(line) => {
            answer_opened(alloc, source, sink, held, piece, spare, &mut says, &line)
        }
        Stop::New => Ok(true),
        Stop::End => Ok(false),
    }
}

/// Opens an address space by an operation, answers that and the lines behind it, and tells whether another space begins behind them, which has
/// the memory of this one to spare.
fn answer_opened<S: Source, K: Sink>(
    alloc: Global,
    source: &mut S,
    sink: &mut K,
    held: &mut Held,
    piece: &mut Vec<u8>,
    spare: &mut Option<Spare>,
    says: &mut Says,
    line: &TraceLine,
) -> Result<bool, Status>
    requires turns { (0 < held.old.turns) × (held.old.turns < 2 ^ 64) }
    requires talking { IsTalking (S.seen source.old) (K.seen sink.old) held.old (piece.old.items ++ (operated (session_of says.old None) line.now).text)
        (operated (session_of says.old None) line.now).session }
    ensures ends { (s : SourceView) (k : SinkView) → Talked s (S.seen source.old) k (K.seen sink.old) held.old
        (piece.old.items ++ (operated (session_of says.old None) line.now).text) (operated (session_of says.old None) line.now).session
        → EndsSpace s (S.seen source.new) k (K.seen sink.new) held.new piece.new.items result }
    ensures turns { IfOk result (λ more. Turns held.old held.new) }
    ensures spared { IfOk result (λ more. more ≡ true → IsSome spare.new) }
{
    let config = says.builder.config(alloc)?;
    let mut live = LiveSpace::open(alloc, &config, spare.take())?;
    live.operate(alloc, piece, line)?;
    let mut space = Some(live);
    match answer_lines(alloc, source, sink, held, piece, says, &mut space)? {
        Stop::New => {
            *spare = spare_of(space);
            Ok(true)
        }
        Stop::End => Ok(false),
        Stop::Operation(_) => unreachable!(),
    }
}

/// The memory of a space that ended, if one was open.
fn spare_of(space: Option<LiveSpace<'_>>) -> Option<Spare>
    ensures { result ≡ option_map (λ live. live.config.areas) space.entry }
{
    match space {
        Some(live) => Some(live.into_spare()),
        None => None,
    }
}

/// Answers whole lines, as far as an address space or the input ends, or an operation is to open a space.
fn answer_lines<S: Source, K: Sink>(
    alloc: Global,
    source: &mut S,
    sink: &mut K,
    held: &mut Held,
    piece: &mut Vec<u8>,
    says: &mut Says,
    space: &mut Option<LiveSpace<'_>>,
) -> Result<Stop, Status>
    requires { IsTalking (S.seen source.old) (K.seen sink.old) held.old piece.old.items (session_of says.old space.old) }
    ensures ends { (s : SourceView) (k : SinkView) → Talked s (S.seen source.old) k (K.seen sink.old) held.old piece.old.items (session_of says.old space.old)
        → Ends s (S.seen source.new) k (K.seen sink.new) held.new piece.new.items (session_of says.new space.new) result }
    ensures open { IfOk result (λ stop. IsSome space.old → IsSome space.new) }
    ensures turns { IfOk result (λ stop. Turns held.old held.new) }
{
    'lines: while let Some(len) = held.find_line(source, sink, piece)? {
        let stop = answer_line(
            alloc,
            &mut Vec::new(alloc),
            piece,
            says,
            space,
            &held.bytes()[..len],
        )?;
        held.pass(len);
        if let Some(stop) = stop {
            return Ok(stop);
        }
        give_full(sink, piece)?;
    }
    push_ending(alloc, piece, says, space, held.bytes())?;
    give_answers(sink, piece)?;
    Ok(Stop::End)
}
