//! The ranges of calls in which no page may be sealed.
ghost use Rattle.std.specs.Prelude.{◌≡◌, flat_map};
ghost use Rattle.std.specs.Option.{option_to_list};
ghost use Rattle.area_rules.specs.Guarded.{guarded_ranges};

use crate::mprotect_request::mprotect_answer;
use crate::munmap_request::range_of;
use crate::tables::is_refusal;
use mm_types::{Call, MAP_FIXED, MREMAP_FIXED, Reply, Span, has_flag};

/// The ranges of a call in which no page may be sealed, where all other tests answer with this reply (mseal(2)): the fixed range
/// of an mmap, that of a munmap, that of an mprotect whose request is good, and the old range of an mremap with its fixed new
/// one. A call that is refused anyway has none, but an mprotect, whose seals are tested before its areas.
#[tactic(auto, unfolding(crate::specs::Guarded::guarded_ranges))]
pub fn guarded_ranges(call: &Call, reply: &Reply) -> [Option<Span>; 2]
    ensures { flat_map option_to_list result ≡ guarded_ranges call.now reply.now }
{
    match call {
        Call::Mmap(args) if !is_refusal(reply) && has_flag(args.flags, MAP_FIXED) => {
            [Some(range_of(args.addr, args.len)), None]
        }
        Call::Munmap { addr, len } if !is_refusal(reply) => [Some(range_of(*addr, *len)), None],
        Call::Mprotect { addr, len, .. } if mprotect_answer(*addr, *len).is_none() => {
            [Some(range_of(*addr, *len)), None]
        }
        Call::Mremap {
            old,
            old_len,
            new_len,
            flags,
            new,
        } if !is_refusal(reply) => {
            let new = has_flag(*flags, MREMAP_FIXED).then_some(range_of(*new, *new_len));
            [Some(range_of(*old, *old_len)), new]
        }
        _ => [None, None],
    }
}
