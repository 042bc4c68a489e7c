//! The answers of a session on their way to its sink.
ghost use Rattle.std.specs.Prelude.{◌<◌, ◌-◌, ◌^◌};
ghost use Rattle.live_session.specs.Internal.Giving.{GivesAnswers};

use io_edge::Sink;
use output::{PrintError, give_all};

/// Gives a sink the answers in a piece, which has none then. Without an answer nothing is given, and so nothing fails.
pub(crate) fn give_answers<K: Sink>(sink: &mut K, piece: &mut Vec<u8>) -> Result<(), PrintError>
    requires { (K.seen sink.old).faults < 2 ^ 64 - 1 }
    ensures { GivesAnswers (K.seen sink.old) (K.seen sink.new) piece.old.items piece.new.items result }
{
    if piece.is_empty() {
        return Ok(());
    }
    give_all(sink, piece.as_slice())?;
    piece.clear();
    Ok(())
}
