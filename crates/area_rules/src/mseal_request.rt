//! mseal(2): the tests of its request in their order.
ghost use Rattle.std.specs.Prelude.{◌≡◌};
ghost use Rattle.mm_types.specs.Rows.{first_row};
ghost use Rattle.area_rules.specs.Mseal.{seal_request_rows};

use crate::tables::{end_of, is_aligned};
use mm_types::{ADDRESSES_END, Errno, Reply};

/// The answer of the first test of mseal(2)'s request that holds: a flag is set, the address is not aligned, the range ends past
/// 2^64, or it is empty. `addr` and `len` are in bytes.
#[tactic(auto, unfolding(crate::specs::Mseal::seal_request_rows))]
pub fn mseal_answer(addr: u64, len: u64, flags: u64) -> Option<Reply>
    ensures { result ≡ first_row (seal_request_rows addr len flags) }
{
    if flags != 0 {
        return Some(Reply::Refused(Errno::Einval));
    }
    if !is_aligned(addr) {
        return Some(Reply::Refused(Errno::Einval));
    }
    if ADDRESSES_END <= end_of(addr, len) {
        return Some(Reply::Refused(Errno::Einval));
    }
    (len == 0).then_some(Reply::Zero)
}
