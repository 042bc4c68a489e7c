//! The call that a line of a trace makes.
ghost use Rattle.std.specs.Prelude.{◌≡◌};
ghost use Rattle.history.specs.Histories.{call_made};

use mm_types::Call;
use plain_space::PlainSpace;
use trace_reader::Op;

/// The call that an operation makes over an address space, if it makes one: a fault that grows touches its page.
#[tactic(auto, unfolding(crate::specs::Histories::call_made))]
pub fn made_call(space: &PlainSpace<'_>, op: Op) -> Option<Call>
    ensures { result ≡ call_made space.now.config space.now.space op }
{
    match op {
        Op::Call(call) => Some(call),
        Op::Fault { page, access } => {
            if space.grows(page, access) {
                Some(Call::Touch { page, access })
            } else {
                None
            }
        }
        Op::Maps | Op::Fork { .. } => None,
    }
}
