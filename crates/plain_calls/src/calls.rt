//! Calls made one after the other.
ghost use Rattle.std.specs.Prelude.{◌≡◌, ◌≤◌, ◌<◌, ◌+◌, ◌-◌, ◌^◌, length, IfOk};
ghost use Rattle.plain_calls.specs.Made.{replies_of, space_after_calls};

use mm_types::{Call, NoMemory, Reply};
use plain_space::PlainSpace;
use std::alloc::Global;

/// Makes the calls in their order, and gives the answer of each. Refused where memory runs out: then the first of them were made.
#[tactic(auto, unfolding(crate::specs::Made::replies_of, crate::specs::Made::space_after_calls))]
pub fn make_all(
    alloc: Global,
    space: &mut PlainSpace,
    calls: &[Call],
) -> Result<Vec<Reply>, NoMemory>
    requires room { space.old.space.objects + length calls.now < 2 ^ 32 - 1 }
    ensures replies { IfOk result (λ replies. replies.items ≡ replies_of space.old.config space.old.space calls.now) }
    ensures space { IfOk result (λ _. space.new.space ≡ space_after_calls space.old.config space.old.space calls.now) }
    ensures config { space.new.config ≡ space.old.config }
{
    let mut replies = Vec::with_capacity(alloc, calls.len())?;
    for call in calls {
        replies.push(space.call(call))?;
    }
    Ok(replies)
}
