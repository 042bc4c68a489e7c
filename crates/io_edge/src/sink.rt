//! Where bytes go.
ghost use Rattle.std.specs.Prelude.{◌<◌, length, IfOk};
ghost use Rattle.std.specs.Io.{WritesAtMost};
ghost use Rattle.std.specs.Io.KnownBytes.{WriteAppends};
ghost use Rattle.io_edge.specs.Edge.{SinkView, HasGiveCause, TellsGiveFault};

use crate::GiveError;

/// Where bytes go, a piece at a time, as write(2) takes them.
pub trait Sink {
    /// What the sink tells of itself.
    ghost seen: { Self → SinkView };

    /// Appends the first bytes of the piece to what was written, and answers their number, which is above
    /// 0 at a piece that is not empty. An error wrote no byte.
    fn give(&mut self, piece: &[u8]) -> Result<usize, GiveError>
        ensures bound { WritesAtMost result piece.now }
        ensures some { IfOk result (λ count. 0 < length piece.now → 0 < count) }
        ensures bytes { WriteAppends (seen self.old).written (seen self.new).written result piece.now }
        ensures cause { HasGiveCause (seen self.old).faults (seen self.new).faults result }
        ensures told { TellsGiveFault (seen self.new).just_failed result };
}
