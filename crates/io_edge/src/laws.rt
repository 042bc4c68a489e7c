//! A law over the constants: an empty function whose contract is proved.

ghost use Rattle.std.specs.Prelude.{◌≡◌};
ghost use Rattle.io_edge.specs.declared.memory.TheConstants.{MOST_AT_A_CALL};

/// A source and a sink over memory that fail at chosen calls move pieces of at most 64 bytes.
pub fn piece_size()
    ensures { MOST_AT_A_CALL ≡ 64 }
{}
