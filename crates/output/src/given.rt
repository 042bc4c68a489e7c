//! A text that is compared, line by line, with what it should be.
ghost use Rattle.std.specs.Prelude.{ℕ, ◌≡◌, ◌+◌, ◌-◌, ◌^◌, ◌<◌, ◌≤◌, ◌==◌, ◌++◌, List, [], length, decimal, OnOk, IfErr, IfSome, if◌then◌else◌};
ghost use Rattle.mm_types.specs.MapsText.{list_text};
ghost use Rattle.mm_types.specs.declared.area.Record.{Record};
ghost use Rattle.mm_types.specs.declared.files.FileRow.{FileRow};
ghost use Rattle.text_lexer.specs.Numbers.{decimal_of};
ghost use Rattle.trace_reader.specs.declared.trace.TraceLine.{TraceLine};
ghost use Rattle.trace_reader.specs.Values.{child_of};
ghost use Rattle.output.specs.Output.{maps_text, item_start, result_text};
ghost use Rattle.output.specs.Internal.Printed.{first_text, more_text, content_of_answer, IsLine};
ghost use Rattle.output.specs.Internal.Judging.{HasRead, IsBadAt, Shrinks, TellsNumber, end_told};

use crate::answers::{Answer, area_count};
use crate::stop::Stop;
use crate::{push_count, push_forked, push_reply, push_start, push_verdict};
use maps_print::push_line;
use mm_types::{Files, NoMemory, Record};
use plain_space::PlainSpace;
use std::alloc::Global;
use text_lexer::decimal_of;
use trace_reader::{Op, TraceLine};

/// A text that was compared up to the end of a line.
#[derive(Drop)]
pub(crate) struct Given<'a> {
    /// What was not compared yet.
    rest: &'a [u8],
    /// How many lines were.
    line: u64,
}

impl<'a> Given<'a> {
    /// A text of which nothing was compared.
    pub(crate) fn of(text: &'a [u8]) -> Given<'a>
        ensures read { HasRead text.now [] result }
        ensures room { result.line + length result.rest.now < 2 ^ 64 - 1 }
    {
        Given {
            rest: text,
            line: 0,
        }
    }

    /// Whether the text is compared to its end.
    pub(crate) fn is_at_end(&self) -> bool
        ensures { result ≡ (length self.now.rest.now == 0) }
    {
        self.rest.is_empty()
    }

    /// Says that the next line is bad.
    pub(crate) fn bad(&self) -> Stop
        requires room { self.now.line < 2 ^ 64 - 1 }
        ensures { result ≡ Stop.Bad (self.now.line + 1) }
    {
        Stop::Bad(self.line + 1)
    }

    /// What is told of a text whose last lines were compared: what was told of these, and else whether it ends behind them.
    pub(crate) fn expect_end(&self, compared: Result<(), Stop>) -> Result<(), Stop>
        requires room { self.now.line < 2 ^ 64 - 1 }
        ensures { result ≡ end_told self.now compared }
    {
        match compared {
            Ok(()) if self.is_at_end() => Ok(()),
            Ok(()) => Err(self.bad()),
            Err(stop) => Err(stop),
        }
    }

    /// The number that the next line tells, if it begins as an item does: a number between `L` and a space.
    pub(crate) fn number(&self) -> Option<u64>
        ensures printed { (line : TraceLine) (version : ℕ) (rest : List ℕ) → line.number < 2 ^ 64
            → self.now.rest.now ≡ item_start line version ++ rest → result ≡ Some line.number }
        ensures told { IfSome result (TellsNumber self.now.rest.now) }
    {
        number_at(self.rest)
    }

    /// Compares the next line with what it should be.
    fn expect(&mut self, line: &[u8]) -> Result<(), Stop>
        requires line { IsLine line.now }
        requires room { self.old.line + length self.old.rest.now < 2 ^ 64 - 1 }
        ensures ok { (text before : List ℕ) → HasRead text before self.old → OnOk result (HasRead text (before ++ line.now) self.new) }
        ensures bad { (text before : List ℕ) → HasRead text before self.old → IfErr result (IsBadAt text (before ++ line.now)) }
        ensures stop { IfErr result (λ stop. stop ≡ Stop.Bad (self.old.line + 1)) }
        ensures shrinks { Shrinks self.old self.new }
        ensures shorter { OnOk result (length self.new.rest.now < length self.old.rest.now) }
        ensures later { OnOk result (self.old.line < self.new.line) }
    {
        match self.rest.strip_prefix(line) {
            Some(rest) => {
                self.rest = rest;
                self.line += 1;
                Ok(())
            }
            None => Err(self.bad()),
        }
    }

    /// Compares the next lines with those of areas. Each is printed only where those before it agree.
    fn expect_areas(
        &mut self,
        line: &mut Vec<u8>,
        files: &Files,
        areas: &[Record],
    ) -> Result<(), Stop>
        requires room { self.old.line + length self.old.rest.now < 2 ^ 64 - 1 }
        ensures ok { (text before : List ℕ) → HasRead text before self.old
            → OnOk result (HasRead text (before ++ list_text files.now areas.now) self.new) }
        ensures bad { (text before : List ℕ) → HasRead text before self.old
            → IfErr result (IsBadAt text (before ++ list_text files.now areas.now)) }
        ensures shrinks { Shrinks self.old self.new }
        ensures shorter { OnOk result (length self.new.rest.now ≤ length self.old.rest.now) }
        ensures later { OnOk result (self.old.line ≤ self.new.line) }
    {
        for area in areas {
            line.clear();
            push_line(line, area, files)?;
            self.expect(line.as_slice())?;
        }
        Ok(())
    }

    /// Compares the next lines with those of the areas of an address space.
    fn expect_listed(
        &mut self,
        alloc: Global,
        line: &mut Vec<u8>,
        files: &Files,
        space: &PlainSpace<'_>,
    ) -> Result<(), Stop>
        requires room { self.old.line + length self.old.rest.now < 2 ^ 64 - 1 }
        ensures ok { (text before : List ℕ) → HasRead text before self.old
            → OnOk result (HasRead text (before ++ list_text files.now space.now.space.areas) self.new) }
        ensures bad { (text before : List ℕ) → HasRead text before self.old
            → IfErr result (IsBadAt text (before ++ list_text files.now space.now.space.areas)) }
        ensures shrinks { Shrinks self.old self.new }
        ensures shorter { OnOk result (length self.new.rest.now ≤ length self.old.rest.now) }
        ensures later { OnOk result (self.old.line ≤ self.new.line) }
    {
        let areas = space.copy_list(alloc)?;
        self.expect_areas(line, files, areas.items())
    }

    /// Compares the next lines with the areas of an address space: how many there are, and their lines.
    pub(crate) fn expect_maps(
        &mut self,
        alloc: Global,
        line: &mut Vec<u8>,
        files: &Files,
        space: &PlainSpace<'_>,
    ) -> Result<(), Stop>
        requires room { self.old.line + length self.old.rest.now < 2 ^ 64 - 1 }
        ensures ok { (text before : List ℕ) → HasRead text before self.old
            → OnOk result (HasRead text (before ++ maps_text files.now space.now.space.areas) self.new) }
        ensures bad { (text before : List ℕ) → HasRead text before self.old
            → IfErr result (IsBadAt text (before ++ maps_text files.now space.now.space.areas)) }
        ensures shrinks { Shrinks self.old self.new }
        ensures later { OnOk result (self.old.line ≤ self.new.line) }
    {
        line.clear();
        push_count(line, area_count(space))?;
        self.expect(line.as_slice())?;
        self.expect_listed(alloc, line, files, space)
    }

    /// Compares the next lines with those of an item: a line of the trace, a version, and an answer of an address space, whose list is
    /// asked for only where the item shows it.
    pub(crate) fn expect_item(
        &mut self,
        alloc: Global,
        line: &mut Vec<u8>,
        files: &Files,
        asked: &TraceLine,
        version: u64,
        answer: &Answer,
        space: &PlainSpace<'_>,
    ) -> Result<(), Stop>
        requires room { self.old.line + length self.old.rest.now < 2 ^ 64 - 1 }
        ensures ok { (text before : List ℕ) → HasRead text before self.old
            → OnOk result (HasRead text (before ++ (item_start asked.now version
            ++ result_text files.now (child_of asked.now.op) (content_of_answer space.now.space.areas answer.now))) self.new) }
        ensures bad { (text before : List ℕ) → HasRead text before self.old
            → IfErr result (IsBadAt text (before ++ (item_start asked.now version
            ++ result_text files.now (child_of asked.now.op) (content_of_answer space.now.space.areas answer.now)))) }
        ensures shrinks { Shrinks self.old self.new }
        ensures shorter { OnOk result (length self.new.rest.now < length self.old.rest.now) }
        ensures later { OnOk result (self.old.line < self.new.line) }
    {
        line.clear();
        push_start(line, asked, version)?;
        push_first(line, asked.op, answer, area_count(space))?;
        self.expect(line.as_slice())?;
        if shows_areas(asked.op, answer) {
            self.expect_listed(alloc, line, files, space)
        } else {
            Ok(())
        }
    }
}

/// The number between `L` and a space with which a text begins, if it begins so.
fn number_at(text: &[u8]) -> Option<u64>
    ensures printed { (line : TraceLine) (version : ℕ) (rest : List ℕ) → line.number < 2 ^ 64
        → text.now ≡ item_start line version ++ rest → result ≡ Some line.number }
    ensures told { IfSome result (TellsNumber text.now) }
{
    let digits = text.strip_prefix(b"L")?;
    let end = digits.iter().position(|byte| *byte == b' ')?;
    decimal_of_bytes(digits.split_at(end).0)
}

/// The number that a word of decimal digits is, if it is one.
fn decimal_of_bytes(word: &[u8]) -> Option<u64>
    ensures printed { (number : ℕ) → number < 2 ^ 64 → word.now ≡ decimal number → result ≡ Some number }
    ensures told { IfSome result (λ number. decimal_of word.now ≡ Some number) }
{
    match str::from_utf8(word) {
        Ok(text) => decimal_of(text),
        Err(_) => None,
    }
}

/// Whether the lines of the areas stand behind the first line of an item: behind that of a list, unless it is what a child begins with.
fn shows_areas(op: Op, answer: &Answer) -> bool
    ensures { (files : List FileRow) (areas : List Record)
        → more_text files (child_of op) (content_of_answer areas answer.now) ≡ (if result then list_text files areas else []) }
{
    match answer {
        Answer::List => match op {
            Op::Fork { .. } => false,
            Op::Call(_) | Op::Fault { .. } | Op::Maps => true,
        },
        Answer::Called(_, _) | Answer::Fault { .. } => false,
    }
}

/// Appends the rest of an item's first line: what it results in, or how many areas there are.
fn push_first(text: &mut Vec<u8>, op: Op, answer: &Answer, count: usize) -> Result<(), NoMemory>
    ensures { (areas : List Record) → length areas ≡ count
        → OnOk result (text.new.items ≡ text.old.items ++ first_text (child_of op) (content_of_answer areas answer.now)) }
{
    match (op, answer) {
        (Op::Fork { child }, Answer::List) => return push_forked(text, child, count),
        (_, Answer::List) => return push_count(text, count),
        (_, Answer::Called(_, reply)) => push_reply(text, *reply)?,
        (_, Answer::Fault { verdict, .. }) => push_verdict(text, *verdict)?,
    }
    Ok(text.push(b'\n')?)
}
