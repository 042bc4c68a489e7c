//! What the tables of the calls have in common.
ghost use Rattle.std.specs.Prelude.{◌≡◌, ◌≤◌, ◌+◌, ◌*◌, ◌^◌};
ghost use Rattle.mm_types.specs.declared.config.TheConstants.{PAGE_SIZE};
ghost use Rattle.area_rules.specs.Tables.{is_aligned, pages_of, is_refusal};

use mm_types::{PAGE_SIZE, Reply};

/// Whether an address or a file offset, in bytes, is a whole number of pages.
pub fn is_aligned(address: u64) -> bool
    ensures { result ≡ is_aligned address }
{
    address % PAGE_SIZE == 0
}

/// How many pages a length in bytes takes: the tables round a length up.
#[tactic(auto, unfolding(crate::specs::Tables::pages_of))]
pub fn pages_of(len: u64) -> u64
    ensures value { result ≡ pages_of len }
    ensures most { result ≤ 2 ^ 52 }
{
    len.div_ceil(PAGE_SIZE)
}

/// The first byte after the last page of a range, which may lie past 2^64. Address and length are in bytes.
pub fn end_of(addr: u64, len: u64) -> u128
    ensures { result ≡ addr + PAGE_SIZE * pages_of len }
{
    u128::from(addr) + u128::from(PAGE_SIZE) * u128::from(pages_of(len))
}

/// Whether a reply is an error.
pub fn is_refusal(reply: &Reply) -> bool
    ensures { result ≡ is_refusal reply.now }
{
    matches!(reply, Reply::Refused(_))
}
