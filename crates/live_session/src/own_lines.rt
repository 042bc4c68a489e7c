//! The lines that no trace has, or that a session answers in its own way.
ghost use Rattle.std.specs.Prelude.{◌≡◌, map, option_map};
ghost use Rattle.trace_reader.specs.Fields.{read_thread};
ghost use Rattle.live_session.specs.Asking.{beyond, is_fork_line, is_new, is_query_line, list_read, areas_line, query_of};

use crate::asking::Asked;
use text_lexer::{Cause, begins_with_digit, number};
use trace_reader::{Op, TraceLine, thread_of};

/// Whether words are `new` alone.
#[tactic(auto, unfolding(crate::specs::Asking::is_new))]
pub(crate) fn is_new(words: &[&str]) -> bool
    ensures { result ≡ is_new (map (λ word. word.now) words.now) }
{
    match words {
        [word] => *word == "new",
        _ => false,
    }
}

/// Whether the first word of a line below the header, which has this number, is `query`.
#[tactic(auto, unfolding(crate::specs::Asking::is_query_line))]
pub(crate) fn is_query_line(line: u64, words: &[&str]) -> bool
    ensures { result ≡ is_query_line line (map (λ word. word.now) words.now) }
{
    match words {
        [first, ..] => 1 < line && *first == "query",
        [] => false,
    }
}

/// Whether the operation of a line below the header, which has this number, is `fork`.
#[tactic(auto, unfolding(crate::specs::Asking::is_fork_line))]
pub(crate) fn is_fork_line(line: u64, words: &[&str]) -> bool
    ensures { result ≡ is_fork_line line (map (λ word. word.now) words.now) }
{
    match words {
        [first, name, ..] => 1 < line && begins_with_digit(first) && *name == "fork",
        _ => false,
    }
}

/// The address of `query ADDRESS`, in bytes.
#[tactic(auto, unfolding(crate::specs::Asking::query_of))]
pub(crate) fn query_of(words: &[&str]) -> Result<u64, Cause>
    ensures { result ≡ query_of (map (λ word. word.now) words.now) }
{
    let [_, address] = words else {
        return Err(Cause::Arity);
    };
    number(address)
}

/// The read of the list that words are, on the line of this number: a thread, and `maps` alone.
#[tactic(auto, unfolding(crate::specs::Asking::list_read))]
pub(crate) fn list_read(line: u64, words: &[&str]) -> Option<TraceLine>
    ensures { result ≡ list_read line (map (λ word. word.now) words.now) }
{
    match words {
        [thread, name] if *name == "maps" => areas_line(line, thread),
        _ => None,
    }
}

/// A read of the list by a thread, on the line of this number.
fn areas_line(line: u64, thread: &str) -> Option<TraceLine>
    ensures { result ≡ option_map (areas_line line) (read_thread thread.now) }
{
    let thread = thread_of(thread)?;
    Some(TraceLine {
        number: line,
        thread,
        op: Op::Maps,
        after: None,
    })
}

/// What a line asks for that is refused as one of a trace by this cause: a read of the list for which a trace has no room is answered all the
/// same.
pub(crate) fn beyond(cause: Cause, list: Option<TraceLine>) -> Result<Asked, Cause>
    ensures { result ≡ beyond cause list }
{
    match (cause, list) {
        (Cause::TooMany, Some(line)) => Ok(Asked::Areas(line)),
        (cause, _) => Err(cause),
    }
}
