//! mprotect(2): the tests of its request in their order, and its reply.
ghost use Rattle.std.specs.Prelude.{◌≡◌};
ghost use Rattle.mm_types.specs.Rows.{first_row};
ghost use Rattle.area_rules.specs.Mprotect.{protect_request_rows, stopped_reply};

use crate::tables::{end_of, is_aligned};
use mm_types::{ADDRESSES_END, Errno, Reply};

/// The answer of the first test of mprotect(2)'s request that holds: the address is not aligned, the range is empty, or it
/// ends past 2^64. `addr` and `len` are in bytes.
#[tactic(auto, unfolding(crate::specs::Mprotect::protect_request_rows))]
pub fn mprotect_answer(addr: u64, len: u64) -> Option<Reply>
    ensures { result ≡ first_row (protect_request_rows addr len) }
{
    if !is_aligned(addr) {
        return Some(Reply::Refused(Errno::Einval));
    }
    if len == 0 {
        return Some(Reply::Zero);
    }
    (ADDRESSES_END <= end_of(addr, len)).then_some(Reply::Refused(Errno::Enomem))
}

/// The reply of a call that stops for this reason, or at the range's end.
pub fn stopped_reply(error: Option<Errno>) -> Reply
    ensures { result ≡ stopped_reply error }
{
    error.map_or(Reply::Zero, Reply::Refused)
}
