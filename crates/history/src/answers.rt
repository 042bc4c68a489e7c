//! What a history that is refused is told: the item that is bad, and what was expected there.
ghost use Rattle.std.specs.Prelude.{◌≡◌, ◌≢◌, ◌↔◌, false, IsTrue, IsOk, IfOk};
ghost use Rattle.history.specs.Checking.{answer_in};
ghost use Rattle.history.specs.Internal.Walks.{is_list, answer_expected};

use crate::items::Content;
use crate::same::{same_call, same_list, same_reply, same_verdict};
use mm_types::{AreaList, Call, NoMemory, Record, Reply, Verdict};
use plain_space::PlainSpace;
use std::alloc::Global;

/// What an item answers, or what was expected of it: a call with its reply, the verdict on a fault, a list of areas, or nothing where there
/// is no item or no line.
#[derive(Debug, Drop)]
pub enum Answer {
    Call(Call, Reply),
    Fault(Verdict),
    List(AreaList),
    Nothing,
}

/// The first item of a history that is bad, or its end, where lines are left: its place, counted from 1, what was expected there and what
/// was found. Nothing is expected where the item cannot stand there; else what is expected is the right answer, and not what was found.
/// At the end nothing is found, and the right answer to the next line of the lowest caller that has lines left is expected.
#[derive(Debug, Drop)]
pub struct BadEntry {
    pub place: u64,
    pub expected: Answer,
    pub found: Answer,
}

/// Why a history was not accepted.
#[derive(Debug, Drop)]
pub enum CheckError {
    /// It is not a legal history of the trace.
    Bad(BadEntry),
    /// Out of memory.
    NoMemory,
}

impl From<NoMemory> for CheckError {
    ghost use Rattle.std.specs.Prelude.{◌≡◌};
    ghost use Rattle.history.specs.declared.answers.CheckError.TheVariants as errors;

    ghost from_gives = { λ _ error. error ≡ errors.NoMemory };

    fn from(_error: NoMemory) -> CheckError {
        CheckError::NoMemory
    }
}

/// An answer, where a list is that of an address space.
#[derive(Clone, Copy, Debug)]
pub(crate) enum Expected {
    Call(Call, Reply),
    Fault(Verdict),
    List,
    Nothing,
}

impl Answer {
    /// The answer of an item, with a copy of its list.
    pub(crate) fn of(alloc: Global, content: &Content) -> Result<Answer, NoMemory>
        ensures answer { IfOk result (λ answer. answer ≡ answer_in content.now) }
        ensures at_once { is_list content.now ≡ false → IsOk result }
    {
        match content {
            Content::Called(call, reply) => Ok(Answer::Call(*call, *reply)),
            Content::Fault { verdict, .. } => Ok(Answer::Fault(*verdict)),
            Content::List(areas) => Ok(Answer::List(copied(alloc, areas.items())?)),
        }
    }
}

impl Expected {
    /// The answer over an address space, with a copy of its areas where it is the list.
    pub(crate) fn answer(&self, alloc: Global, space: &PlainSpace<'_>) -> Result<Answer, NoMemory>
        ensures answer { IfOk result (λ answer. answer ≡ answer_expected space.now.space.areas self.now) }
        ensures at_once { self.now ≢ Expected.List → IsOk result }
    {
        match self {
            Expected::Call(call, reply) => Ok(Answer::Call(*call, *reply)),
            Expected::Fault(verdict) => Ok(Answer::Fault(*verdict)),
            Expected::List => Ok(Answer::List(space.copy_list(alloc)?)),
            Expected::Nothing => Ok(Answer::Nothing),
        }
    }

    /// Whether an item answers this over an address space. Its areas are copied only where the item is a list, and one is expected.
    pub(crate) fn is_in(
        &self,
        alloc: Global,
        space: &PlainSpace<'_>,
        content: &Content,
    ) -> Result<bool, NoMemory>
        ensures is { IfOk result (λ is. IsTrue is ↔ (answer_expected space.now.space.areas self.now ≡ answer_in content.now)) }
        ensures at_once { is_list content.now ≡ false → IsOk result }
        ensures other { self.now ≢ Expected.List → IsOk result }
    {
        match content {
            Content::Called(call, reply) => Ok(self.is_call(call, reply)),
            Content::Fault { verdict, .. } => Ok(self.is_verdict(verdict)),
            Content::List(list) => self.is_list_of(alloc, space, list),
        }
    }

    /// Whether it is this call with this reply.
    fn is_call(&self, call: &Call, reply: &Reply) -> bool
        ensures { IsTrue result ↔ (self.now ≡ Expected.Call call.now reply.now) }
    {
        match self {
            Expected::Call(wanted, due) => same_call(wanted, call) && same_reply(due, reply),
            Expected::Fault(_) | Expected::List | Expected::Nothing => false,
        }
    }

    /// Whether it is this verdict.
    fn is_verdict(&self, verdict: &Verdict) -> bool
        ensures { IsTrue result ↔ (self.now ≡ Expected.Fault verdict.now) }
    {
        match self {
            Expected::Fault(due) => same_verdict(due, verdict),
            Expected::Call(_, _) | Expected::List | Expected::Nothing => false,
        }
    }

    /// Whether it is the list, and this is that of an address space.
    fn is_list_of(
        &self,
        alloc: Global,
        space: &PlainSpace<'_>,
        list: &AreaList,
    ) -> Result<bool, NoMemory>
        ensures is { IfOk result (λ is. IsTrue is ↔ (answer_expected space.now.space.areas self.now ≡ Answer.List list.now)) }
        ensures other { self.now ≢ Expected.List → IsOk result }
    {
        match self {
            Expected::List => {
                let areas = space.copy_list(alloc)?;
                Ok(same_list(list.items(), areas.items()))
            }
            Expected::Call(_, _) | Expected::Fault(_) | Expected::Nothing => Ok(false),
        }
    }
}

/// A copy of a list of areas.
fn copied(alloc: Global, areas: &[Record]) -> Result<AreaList, NoMemory>
    ensures { IfOk result (λ list. list ≡ areas.now) }
{
    Ok(AreaList::of(Vec::from_slice(alloc, areas)?))
}
