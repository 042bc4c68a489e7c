//! The events of the grace core, each from the words after its name.

ghost use Rattle.std.specs.Prelude.{◌<◌, All, IfOk, map};
ghost use Rattle.text_lexer.specs.Reading.{Gives, ReadsAs};
ghost use Rattle.step_script.specs.GraceLines.{open_of, read_root, read_load_of_word, read_word, close_of, fill, fill_of, read_row_words, publish_of, scan_of, grace_event, is_publish};
ghost use Rattle.step_script.specs.Reading.{LacksOnlyIf};
ghost use Rattle.step_script.specs.Values.{IsGraceEvent};

use crate::fields::{index_of, reader_of};
use grace_core::{GraceEvent, Rows};
use mm_types::Row;
use std::alloc::Global;
use text_lexer::{CallError, Cause, number};

/// `open R`.
#[tactic(auto, unfolding(crate::specs::GraceLines::open_of))]
fn open_of(words: &[&str], readers: u32, rows: u32) -> Result<GraceEvent, Cause>
    ensures value { ReadsAs (λ event. event) result (open_of readers (map (λ word. word.now) words.now)) }
    ensures fits { IfOk result (IsGraceEvent readers rows) }
{
    Ok(GraceEvent::Open(reader_of(words, readers)?))
}

/// `root R`.
#[tactic(auto, unfolding(crate::specs::GraceLines::read_root))]
fn root_of(words: &[&str], readers: u32, rows: u32) -> Result<GraceEvent, Cause>
    ensures value { ReadsAs (λ event. event) result (read_root readers (map (λ word. word.now) words.now)) }
    ensures fits { IfOk result (IsGraceEvent readers rows) }
{
    Ok(GraceEvent::Root(reader_of(words, readers)?))
}

/// The load of a word that these words ask for.
#[tactic(auto, unfolding(crate::specs::GraceLines::read_load_of_word))]
fn word(reader: &str, row: &str, readers: u32, rows: u32) -> Result<GraceEvent, Cause>
    ensures value { ReadsAs (λ event. event) result (read_load_of_word readers rows reader.now row.now) }
    ensures fits { IfOk result (IsGraceEvent readers rows) }
{
    let reader = index_of(reader, readers)?;
    let row = index_of(row, rows)?;
    Ok(GraceEvent::Word(reader, Row(row)))
}

/// `word R W`.
#[tactic(auto, unfolding(crate::specs::GraceLines::read_word))]
fn word_of(words: &[&str], readers: u32, rows: u32) -> Result<GraceEvent, Cause>
    ensures value { ReadsAs (λ event. event) result (read_word readers rows (map (λ word. word.now) words.now)) }
    ensures fits { IfOk result (IsGraceEvent readers rows) }
{
    match words {
        [reader, row] => word(reader, row, readers, rows),
        _ => Err(Cause::Arity),
    }
}

/// `close R`.
#[tactic(auto, unfolding(crate::specs::GraceLines::close_of))]
fn close_of(words: &[&str], readers: u32, rows: u32) -> Result<GraceEvent, Cause>
    ensures value { ReadsAs (λ event. event) result (close_of readers (map (λ word. word.now) words.now)) }
    ensures fits { IfOk result (IsGraceEvent readers rows) }
{
    Ok(GraceEvent::Close(reader_of(words, readers)?))
}

/// The fill of these words.
#[tactic(auto, unfolding(crate::specs::GraceLines::fill))]
fn fill(row: &str, value: &str, readers: u32, rows: u32) -> Result<GraceEvent, Cause>
    ensures value { ReadsAs (λ event. event) result (fill rows row.now value.now) }
    ensures fits { IfOk result (IsGraceEvent readers rows) }
{
    let row = index_of(row, rows)?;
    let value = number(value)?;
    Ok(GraceEvent::Fill(Row(row), value))
}

/// `fill W X`.
#[tactic(auto, unfolding(crate::specs::GraceLines::fill_of))]
fn fill_of(words: &[&str], readers: u32, rows: u32) -> Result<GraceEvent, Cause>
    ensures value { ReadsAs (λ event. event) result (fill_of rows (map (λ word. word.now) words.now)) }
    ensures fits { IfOk result (IsGraceEvent readers rows) }
{
    match words {
        [row, value] => fill(row, value, readers, rows),
        _ => Err(Cause::Arity),
    }
}

/// Rows, each a word.
fn rows_of(alloc: Global, words: &[&str], rows: u32) -> Result<Vec<Row>, CallError>
    ensures value { Gives (λ listed. listed.items) result (read_row_words rows (map (λ word. word.now) words.now)) }
    ensures fits { IfOk result (λ listed. All (λ row. row.0 < rows) listed.items) }
{
    let mut listed = Vec::new(alloc);
    for word in words {
        listed.push(Row(index_of(word, rows)?))?;
    }
    Ok(listed)
}

/// `publish N` and one or more rows.
#[tactic(auto, unfolding(crate::specs::GraceLines::publish_of))]
fn publish_of(
    alloc: Global,
    words: &[&str],
    readers: u32,
    rows: u32,
) -> Result<GraceEvent, CallError>
    ensures value { Gives (λ event. event) result (publish_of rows (map (λ word. word.now) words.now)) }
    ensures fits { IfOk result (IsGraceEvent readers rows) }
{
    let [tree, listed @ ..] = words else {
        return Err(CallError::Bad(Cause::Arity));
    };
    if listed.is_empty() {
        return Err(CallError::Bad(Cause::Arity));
    }
    let tree = number(tree)?;
    let rows = Rows::of(rows_of(alloc, listed, rows)?);
    Ok(GraceEvent::Publish { tree, rows })
}

/// `scan R`.
#[tactic(auto, unfolding(crate::specs::GraceLines::scan_of))]
fn scan_of(words: &[&str], readers: u32, rows: u32) -> Result<GraceEvent, Cause>
    ensures value { ReadsAs (λ event. event) result (scan_of readers (map (λ word. word.now) words.now)) }
    ensures fits { IfOk result (IsGraceEvent readers rows) }
{
    Ok(GraceEvent::Scan(reader_of(words, readers)?))
}

/// The event of this name.
#[tactic(auto, unfolding(crate::specs::GraceLines::grace_event))]
pub(crate) fn grace_event(
    alloc: Global,
    readers: u32,
    rows: u32,
    name: &str,
    words: &[&str],
) -> Result<GraceEvent, CallError>
    ensures value { Gives (λ event. event) result
        (grace_event readers rows name.now (map (λ word. word.now) words.now)) }
    ensures fits { IfOk result (IsGraceEvent readers rows) }
    ensures memory { LacksOnlyIf (is_publish name.now) result }
{
    match name {
        "open" => Ok(open_of(words, readers, rows)?),
        "root" => Ok(root_of(words, readers, rows)?),
        "word" => Ok(word_of(words, readers, rows)?),
        "close" => Ok(close_of(words, readers, rows)?),
        "fill" => Ok(fill_of(words, readers, rows)?),
        "publish" => publish_of(alloc, words, readers, rows),
        "scan" => Ok(scan_of(words, readers, rows)?),
        _ => Err(CallError::Bad(Cause::Word)),
    }
}
