//! Lines, words and numbers, of which traces, scripts, maps texts and outputs are made, and the causes for which a line is bad.
//!
//! An input is a list of lines, each ended by a newline. Lines are counted from 1. Words stand between spaces and tabs. A number
//! has 1 to 20 decimal digits, or `0x` and 1 to 16 hexadecimal digits, and is below 2^64.
//!
//! What needs no memory answers a `Cause` where it refuses. What does answers a `CallError` for a part of a line, and a `ReadError`
//! for a whole input: the cause, with the number of the line, or `NoMemory`.

// The problem. Four formats (traces, scripts, maps texts, the input of `check`) are lines of words and numbers. What a line, a word and a number
// are is said here once, and so is which line is the first bad one, and why.
//
//    bytes ──first_line──▶ RawLine ──text_of──▶ text ──words_of──▶ words ──number_of, ..──▶ values
//                             │ TooLong, NoEnd, Utf8                          │ Number, Word, ..
//                             └───────────────── Cause ◀──────────────────────┘
//    a part of a line answers a Cause, where memory is taken a CallError, and a whole input a ReadError: the cause with its line, or NoMemory
//
// The first bad line decides. For that each line is judged without those behind it, and `front_is_enough` (of each format) says that one byte
// past the limit settles it: so no input is read further.
//
// Fast ways, each proved equal to the plain definition. words.rt looks at 16 bytes at once for one that is no greater than a space (LANES):
// nearly all of what it stops at is a blank. numbers.rt adds up to 12 digits without a test for overflow (FEW_DIGITS: 12 digits of base 36 fit 64
// bits, 36^12 < 2^63), and longer ones with it. `is_name` compares lengths first.
//
// Numbers are decimal, or hexadecimal after 0x, and nothing else: no sign, no blank, no octal. A number of 64 bits has at most 20 digits, so a
// longer word is none, also if it has zeros in front.
//
// To be changed freely: how bytes are gone through. Not to be changed: the numbers of causes (12 is gone, and isn't used again), and the limits:
// 4,096 bytes of a line, and 2^26 of an input.

#![tactic(auto)]

mod error;
mod laws;
mod limits;
mod lines;
mod numbers;
mod words;

pub use error::{BadLine, CallError, Cause, ReadError, error_at};
pub use laws::{input_limits, lines_are_the_bytes};
pub use limits::{INPUT_LIMIT, LINE_LIMIT};
pub use lines::{RawLine, first_line, text_of, text_within};
pub use numbers::{decimal_of, digits_of, lower_hexadecimal_of, number, number_in, number_of};
pub use words::{
    begins_with_digit, first_word, is_comment, is_header, is_name, set_words, text_after_words,
    words_of,
};
