//! Laws of the definitions. Nothing runs here.
ghost use Rattle.std.specs.Prelude.{◌≡◌, ◌≤◌, ◌+◌, ℕ, List, length, take, Ok};
ghost use Rattle.trace_reader.specs.declared.trace.Trace.{Trace};
ghost use Rattle.output.specs.Input.{CheckInput, check_limit, input_of};
ghost use Rattle.output.specs.declared.input.TheConstants.{TEXT_LIMIT};
ghost use Rattle.output.specs.Judgements.{IsLegalText, IsFirstBadOutputLine};

/// A text with a first bad line is not legal, so `judge_output` says `Legal` of exactly the legal texts.
pub fn first_bad_is_not_legal()
    ensures { (trace : Trace) (given : List ℕ) (line : ℕ) → IsFirstBadOutputLine trace given line → IsLegalText trace given → ⊥ }
{}

/// One byte more than the limit settles which input bytes are, or which line is bad first.
pub fn front_is_enough()
    ensures { (bytes : List ℕ) → input_of (take (check_limit + 1) bytes) ≡ input_of bytes }
{}

/// Bytes that are an input have no byte past the limit.
pub fn inputs_are_within()
    ensures { (bytes : List ℕ) (input : CheckInput) → input_of bytes ≡ Ok input → length bytes ≤ check_limit }
{}

/// The limits: 2^28 bytes of a text, and of an input 335,544,323, which are those of a trace, the line `==` and a text.
pub fn check_limits()
    ensures text { TEXT_LIMIT ≡ 268435456 }
    ensures input { check_limit ≡ 335544323 }
{}
