//! What an address space answers to a line of a trace.
ghost use Rattle.std.specs.Prelude.{◌≡◌, ◌+◌, ◌-◌, ◌^◌, ◌<◌, ◌≤◌, [], length};
ghost use Rattle.history.specs.Histories.{answer_of, is_call, read_of, space_after};
ghost use Rattle.output.specs.Internal.Printed.{content_of_answer};

use history::made_call;
use mm_types::{Access, Call, Page, Reply, Verdict};
use plain_space::PlainSpace;
use trace_reader::Op;

/// An answer, where a list is that of the address space.
#[derive(Clone, Copy, Debug)]
pub(crate) enum Answer {
    Called(Call, Reply),
    Fault {
        page: Page,
        access: Access,
        verdict: Verdict,
    },
    List,
}

impl Answer {
    /// Whether a call was made.
    pub(crate) fn is_call(&self) -> bool
        ensures { result ≡ is_call (content_of_answer [] self.now) }
    {
        match self {
            Answer::Called(_, _) => true,
            Answer::Fault { .. } | Answer::List => false,
        }
    }
}

/// How many areas an address space has.
pub(crate) fn area_count(space: &PlainSpace<'_>) -> usize
    ensures { result ≡ length space.now.space.areas }
{
    space.count() as usize
}

/// What an address space answers to an operation, whose call is then made, if it makes one.
pub(crate) fn run_op(space: &mut PlainSpace<'_>, op: Op) -> Answer
    requires room { space.old.space.objects < 2 ^ 32 - 1 }
    ensures answer { content_of_answer space.new.space.areas result ≡ answer_of space.old.config space.old.space op }
    ensures space { space.new.space ≡ space_after space.old.config space.old.space op }
    ensures config { space.new.config ≡ space.old.config }
    ensures objects { space.new.space.objects ≤ space.old.space.objects + 1 }
{
    match made_call(space, op) {
        Some(call) => Answer::Called(call, space.call(&call)),
        None => read_by(space, op),
    }
}

/// What an operation reads over an address space, where it makes no call.
fn read_by(space: &PlainSpace<'_>, op: Op) -> Answer
    ensures { content_of_answer space.now.space.areas result ≡ read_of space.now.config space.now.space op }
{
    match op {
        Op::Fault { page, access } => Answer::Fault {
            page,
            access,
            verdict: space.verdict(page, access),
        },
        Op::Call(_) | Op::Maps | Op::Fork { .. } => Answer::List,
    }
}
