//! Laws of what `replay` gives. Each is the contract of a function that does nothing.
ghost use Rattle.std.specs.Prelude.{◌≡◌, ℕ, List, Ok};
ghost use Rattle.mm_space.specs.Closing.{ClosedView};
ghost use Rattle.trace_reader.specs.declared.trace.Trace.{Trace};
ghost use Rattle.vma_replay.specs.declared.words.Conversion.TheVariants.{Retrace};
ghost use Rattle.vma_replay.specs.declared.words.Mode.TheVariants.{Serial};
ghost use Rattle.vma_replay.specs.Replaying.{GivesRuns, converted};
ghost use Rattle.vma_replay.specs.Retraced.{EndsWith};

/// In `serial` a trace has one output: two texts that are given for it with whatever closed runs are equal.
pub fn serial_outputs_are_equal()
    ensures { (trace : Trace) (runs others : List ClosedView) (text other : List ℕ)
        → GivesRuns Serial trace runs text → GivesRuns Serial trace others other → text ≡ other }
{}

/// What `retrace` gives is a trace. `serial` gives for it an address for each area, then `maps` and their number, and then exactly the
/// maps text that was read.
pub fn retraced_texts_come_back()
    ensures { (bytes text : List ℕ) → converted Retrace bytes ≡ Ok text → EndsWith bytes text }
{}
