//! Where bytes come from.
ghost use Rattle.std.specs.Io.{ReadsAtMost};
ghost use Rattle.std.specs.Io.KnownBytes.{ReadConsumes};
ghost use Rattle.io_edge.specs.Edge.{SourceView, HasCause, TellsFault};

use crate::Failed;

/// Where bytes come from, a piece at a time, as read(2) gives them.
pub trait Source {
    /// What the source tells of itself.
    ghost seen: { Self → SourceView };

    /// Moves the next bytes of what is left to the beginning of the piece, and answers their number. At a
    /// piece that is not empty, 0 is the end of the input. An error took no byte.
    fn take(&mut self, into: &mut [u8]) -> Result<usize, Failed>
        ensures bound { ReadsAtMost result into.new }
        ensures bytes { ReadConsumes (seen self.old).left (seen self.new).left result into.new }
        ensures cause { HasCause (seen self.old).faults (seen self.new).faults result }
        ensures told { TellsFault (seen self.new).just_failed result };
}
