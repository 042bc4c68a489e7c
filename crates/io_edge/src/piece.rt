//! Copying bytes out of memory, a piece at a time.
ghost use Rattle.std.specs.Prelude.{◌≡◌, ◌+◌, ◌<◌, ◌≤◌, ◌++◌, [], length, min, take, drop};

/// Copies the bytes from `at` on to the beginning of `into`: at most `most` of them, and as many as there are and
/// as there is room for. Answers their number.
#[tactic(auto, using(crate::proofs::Moved::left_none))]
pub(crate) fn fill_piece(bytes: &[u8], at: usize, most: usize, into: &mut [u8]) -> usize
    requires { at ≤ length bytes.now }
    ensures count { result ≡ min most (min (length (drop at bytes.now)) (length into.old)) }
    ensures moved { drop at bytes.now ≡ take result into.new ++ drop (at + result) bytes.now }
    ensures end { result ≡ 0 → 0 < most → 0 < length into.new → drop (at + result) bytes.now ≡ [] }
    ensures rest { drop result into.new ≡ drop result into.old }
    ensures room { length into.new ≡ length into.old }
{
    let left = &bytes[at..];
    let count = most.min(left.len().min(into.len()));
    into[..count].copy_from_slice(&left[..count]);
    count
}
