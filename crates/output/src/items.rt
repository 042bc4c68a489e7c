//! The text of an item of a history, which ends at the end of a line. A text that has room for it takes no memory.
ghost use Rattle.std.specs.Prelude.{◌≡◌, ◌≤◌, ◌<◌, ◌+◌, ◌++◌, OnErr, OnOk, length, vec_capacity, vec_len};
ghost use Rattle.trace_reader.specs.Values.{child_of};
ghost use Rattle.output.specs.Output.{content_text, item_text, maps_text, result_text};

use crate::pushing::{push_count, push_forked, push_reply, push_start, push_verdict};
use history::{Content, Item};
use maps_print::push_list;
use mm_types::{Files, NoMemory, Record};
use trace_reader::{Op, TraceLine};

/// Appends an item, with the line that it answers.
pub fn push_item(
    text: &mut Vec<u8>,
    files: &Files,
    line: &TraceLine,
    item: &Item,
) -> Result<(), NoMemory>
    ensures ok { OnOk result (text.new.items ≡ text.old.items ++ item_text files.now line.now item.now) }
    ensures room { OnErr result (vec_capacity text.old < vec_len text.old + length (item_text files.now line.now item.now)) }
    ensures capacity { vec_capacity text.old ≤ vec_capacity text.new }
{
    push_start(text, line, item.version)?;
    push_result(text, files, line.op, &item.content)
}

/// Appends what an operation results in: a list that a child begins with by the child and how many areas it has.
pub(crate) fn push_result(
    text: &mut Vec<u8>,
    files: &Files,
    op: Op,
    content: &Content,
) -> Result<(), NoMemory>
    ensures ok { OnOk result (text.new.items ≡ text.old.items ++ result_text files.now (child_of op) content.now) }
    ensures room { OnErr result (vec_capacity text.old < vec_len text.old + length (result_text files.now (child_of op) content.now)) }
    ensures capacity { vec_capacity text.old ≤ vec_capacity text.new }
{
    match (op, content) {
        (Op::Fork { child }, Content::List(areas)) => push_forked(text, child, areas.items().len()),
        (_, content) => push_content(text, files, content),
    }
}

/// Appends what happened, up to the end of its last line.
#[tactic(auto, unfolding(crate::specs::Output::content_text))]
pub(crate) fn push_content(
    text: &mut Vec<u8>,
    files: &Files,
    content: &Content,
) -> Result<(), NoMemory>
    ensures ok { OnOk result (text.new.items ≡ text.old.items ++ content_text files.now content.now) }
    ensures room { OnErr result (vec_capacity text.old < vec_len text.old + length (content_text files.now content.now)) }
    ensures capacity { vec_capacity text.old ≤ vec_capacity text.new }
{
    match content {
        Content::Called(_, reply) => push_reply(text, *reply)?,
        Content::Fault { verdict, .. } => push_verdict(text, *verdict)?,
        Content::List(areas) => return push_maps(text, files, areas.items()),
    }
    Ok(text.push(b'\n')?)
}

/// Appends how many areas a list has, and their lines.
#[tactic(auto, unfolding(crate::specs::Output::maps_text))]
pub fn push_maps(text: &mut Vec<u8>, files: &Files, areas: &[Record]) -> Result<(), NoMemory>
    ensures ok { OnOk result (text.new.items ≡ text.old.items ++ maps_text files.now areas.now) }
    ensures room { OnErr result (vec_capacity text.old < vec_len text.old + length (maps_text files.now areas.now)) }
    ensures capacity { vec_capacity text.old ≤ vec_capacity text.new }
{
    push_count(text, areas.len())?;
    push_list(text, areas, files)
}
