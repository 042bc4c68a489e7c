//! Laws of the definitions. Nothing runs here.

ghost use Rattle.std.specs.Prelude.{◌≡◌, ℕ, List};
ghost use Rattle.text_lexer.specs.Laws.{AreLinesOf};
ghost use Rattle.text_lexer.specs.Lines.{raw_lines};
ghost use Rattle.text_lexer.specs.declared.limits.TheConstants.{LINE_LIMIT, INPUT_LIMIT};

/// The lines of an input are its bytes, cut after each newline and numbered from 1.
pub fn lines_are_the_bytes()
    ensures { (bytes : List ℕ) → AreLinesOf bytes (raw_lines bytes) }
{}

/// The limits: 4,096 bytes of a line, and 2^26 of an input.
pub fn input_limits()
    ensures line { LINE_LIMIT ≡ 4096 }
    ensures input { INPUT_LIMIT ≡ 67108864 }
{}
