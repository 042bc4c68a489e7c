//! A trace while its lines are read.

ghost use Rattle.std.specs.Prelude.{◌≡◌, ◌≢◌, Err, IfErr, IfOk, map, is_some, nat_eq, vec_capacity};
ghost use Rattle.std.specs.List.{list_any};
ghost use Rattle.trace_reader.specs.Grammar.{nothing, address_limit, config_of, trace_so_far};
ghost use Rattle.text_lexer.specs.Reading.{Gives, GivesTested, ReadsAs, line_view};
ghost use Rattle.text_lexer.specs.Words.{words_of};
ghost use Rattle.trace_reader.specs.Reading.{HasRoomForWords, StaysIfBad, config_named, so_far};
ghost use Rattle.trace_reader.specs.Lines.{read_version, has_child, is_told, may_name, may_fork, names_rightly, forks_rightly, is_full, has_descriptor, with_header, with_line, with_limit, with_top, with_min, with_heap, with_file, after_setting, after_words, after_trace_line};
ghost use Rattle.trace_reader.specs.Settings.{with_path};
ghost use Rattle.trace_reader.specs.Values.{AreNumbered, is_call_op, is_maps, child_of};

use crate::limits::{MOST_FORKS, MOST_LINES, MOST_MAPS, MOST_NAMED};
use crate::operations::line_of;
use crate::settings::{FileFields, bound_of, fields_of, limit_of, with_path};
use crate::trace::{Lines, Op, Trace, TraceLine};
use mm_types::{ADDRESS_LIMIT, Config, FileRow, Files, MOST_FILES, NoMemory, WIDE_LIMIT};
use std::alloc::Global;
use text_lexer::{
    CallError, Cause, RawLine, begins_with_digit, is_comment, is_header, set_words,
    text_after_words, text_of,
};

/// The words of a `file` line before its path.
const WORDS_BEFORE_PATH: usize = 6;

/// The version of a trace, which says how wide its addresses are.
#[derive(Clone, Copy, Debug, PartialEq, Eq)]
pub(crate) enum Version {
    /// `vmatrace 1`: user memory ends at `ADDRESS_LIMIT`.
    Narrow,
    /// `vmatrace 2`: user memory ends at `WIDE_LIMIT`.
    Wide,
}

/// What the settings so far name.
#[derive(Clone, Copy, Debug, PartialEq, Eq)]
pub(crate) struct Settings {
    version: Version,
    /// What `limit areas` set.
    areas: Option<u32>,
    /// What `top` set, in bytes.
    top: Option<u64>,
    /// What `min` set, in bytes.
    min: Option<u64>,
    /// What `heap` set, in bytes.
    heap: Option<u64>,
}

/// A trace while its lines are read, one after another: what the lines so far say. A line costs no copy of those before it.
#[derive(Debug, Drop)]
pub struct TraceBuilder {
    settings: Settings,
    files: Vec<FileRow>,
    /// The lines with a thread, whose numbers rise.
    lines: Vec<TraceLine>,
    /// The children that the lines fork.
    children: Vec<u32>,
    /// How many of the lines are `maps`.
    maps: usize,
    /// How many of the lines name a line.
    named: usize,
}

impl TraceBuilder {
    /// Before the first line.
    pub fn new(alloc: Global) -> TraceBuilder
        ensures { so_far result ≡ nothing }
    {
        TraceBuilder {
            settings: Settings {
                version: Version::Narrow,
                areas: None,
                top: None,
                min: None,
                heap: None,
            },
            files: Vec::new(alloc),
            lines: Vec::new(alloc),
            children: Vec::new(alloc),
            maps: 0,
            named: 0,
        }
    }

    /// Adds a line: that of number 1 is the header, and each later one has a greater number. Its bytes are tested before its words. Those
    /// of a line below the header come into `words`, a list that serves for every line.
    ///
    /// `CallError::Bad` comes where the line is bad behind those so far, with its cause, and then nothing changes: another may be
    /// added in its place. `CallError::NoMemory` comes where memory runs out, and what the builder holds then is not known. Where
    /// `words` has room for the words of the line, it comes only where the line is good. The header takes no memory.
    #[tactic(auto, unfolding(crate::specs::Lines::after_trace_line))]
    pub fn add<'a>(
        &mut self,
        alloc: Global,
        words: &mut Vec<&'a str>,
        line: &RawLine<'a>,
    ) -> Result<(), CallError>
        requires { AreNumbered (so_far self.old).lines }
        ensures added { Gives (λ _. so_far self.new) result (after_trace_line (so_far self.old) (line_view line.now)) }
        ensures kept { StaysIfBad result (so_far self.old) (so_far self.new) }
        ensures tested { HasRoomForWords (vec_capacity words.old) (line_view line.now)
            → GivesTested (λ _. so_far self.new) result (after_trace_line (so_far self.old) (line_view line.now)) }
        ensures header { line.now.number ≡ 1 → result ≢ Err CallError.NoMemory }
    {
        let text = text_of(line)?;
        if line.number == 1 {
            return Ok(self.set_version(text)?);
        }
        set_words(words, text)?;
        self.add_words(alloc, line.number, text, words.as_slice())
    }

    /// Sets the version that the header names.
    #[tactic(auto, unfolding(crate::specs::Lines::with_header))]
    fn set_version(&mut self, text: &str) -> Result<(), Cause>
        ensures added { ReadsAs (λ _. so_far self.new) result (with_header (so_far self.old) (words_of text.now)) }
        ensures kept { IfErr result (λ _. so_far self.new ≡ so_far self.old) }
    {
        match version_of(text) {
            Some(version) => {
                self.settings.version = version;
                Ok(())
            }
            None => Err(Cause::Header),
        }
    }

    /// Adds a line below the header, unless it has no words or is a comment. All its tests come before it takes memory.
    #[tactic(auto, unfolding(crate::specs::Lines::after_words))]
    fn add_words(
        &mut self,
        alloc: Global,
        number: u64,
        text: &str,
        words: &[&str],
    ) -> Result<(), CallError>
        requires { AreNumbered self.old.lines.items }
        ensures added { GivesTested (λ _. so_far self.new) result
            (after_words (so_far self.old) number text.now (map (λ word. word.now) words.now)) }
        ensures kept { StaysIfBad result (so_far self.old) (so_far self.new) }
    {
        let [first, words @ ..] = words else {
            return Ok(());
        };
        if is_comment(first) {
            return Ok(());
        }
        if begins_with_digit(first) {
            let line = line_of(number, first, words)?;
            self.add_line(line)
        } else {
            self.add_setting(alloc, text, first, words)
        }
    }

    /// Adds a line with a thread, by its last tests in their order: the line that it names, the child, and how many there may be.
    #[tactic(auto, unfolding(crate::specs::Lines::with_line, crate::specs::Lines::with_one, crate::specs::Lines::is_full))]
    fn add_line(&mut self, line: TraceLine) -> Result<(), CallError>
        requires { AreNumbered self.old.lines.items }
        ensures added { GivesTested (λ _. so_far self.new) result (with_line (so_far self.old) line) }
        ensures kept { StaysIfBad result (so_far self.old) (so_far self.new) }
    {
        if !self.names_rightly(&line) {
            return Err(CallError::Bad(Cause::After));
        }
        if !self.forks_rightly(&line) {
            return Err(CallError::Bad(Cause::Child));
        }
        if self.is_full(&line) {
            return Err(CallError::Bad(Cause::TooMany));
        }
        if let Op::Fork { child } = line.op {
            self.children.push(child)?;
        }
        self.lines.push(line)?;
        if is_maps(&line.op) {
            self.maps += 1;
        }
        if line.after.is_some() {
            self.named += 1;
        }
        Ok(())
    }

    /// Whether a line names a line that it may name, where it names one.
    #[tactic(auto, unfolding(crate::specs::Lines::names_rightly, crate::specs::Lines::may_name))]
    fn names_rightly(&self, line: &TraceLine) -> bool
        requires { AreNumbered self.now.lines.items }
        ensures { result ≡ names_rightly (so_far self.now) line.now }
    {
        let Some(number) = line.after else {
            return true;
        };
        let children = self.children.as_slice();
        !has_child(children, line.thread)
            && has_told(self.lines.as_slice(), children, line.thread, number)
    }

    /// Whether a line forks a child that its thread may fork, where it forks.
    #[tactic(auto, unfolding(crate::specs::Lines::forks_rightly, crate::specs::Lines::may_fork))]
    fn forks_rightly(&self, line: &TraceLine) -> bool
        ensures { result ≡ forks_rightly (so_far self.now) line.now }
    {
        let Op::Fork { child } = line.op else {
            return true;
        };
        let children = self.children.as_slice();
        !has_child(children, line.thread)
            && child != line.thread
            && !has_child(children, child)
            && !has_thread(self.lines.as_slice(), child)
    }

    /// Whether there are as many lines as a trace may have, or as many of those that read the list, name a line or fork.
    #[tactic(auto, unfolding(crate::specs::Lines::is_full))]
    fn is_full(&self, line: &TraceLine) -> bool
        ensures { result ≡ is_full (so_far self.now) line.now }
    {
        MOST_LINES <= self.lines.len()
            || (is_maps(&line.op) && MOST_MAPS <= self.maps)
            || (line.after.is_some() && MOST_NAMED <= self.named)
            || (forks(&line.op) && MOST_FORKS <= self.children.len())
    }

    /// Adds a line that stands before the first with a thread.
    #[tactic(auto, unfolding(crate::specs::Lines::after_setting, crate::specs::Settings::read_file))]
    fn add_setting(
        &mut self,
        alloc: Global,
        text: &str,
        first: &str,
        words: &[&str],
    ) -> Result<(), CallError>
        ensures added { GivesTested (λ _. so_far self.new) result
            (after_setting (so_far self.old) text.now first.now (map (λ word. word.now) words.now)) }
        ensures kept { StaysIfBad result (so_far self.old) (so_far self.new) }
    {
        if !self.lines.is_empty() {
            return Err(CallError::Bad(Cause::Word));
        }
        match first {
            "limit" => Ok(self.set_limit(words)?),
            "top" => Ok(self.set_top(words)?),
            "min" => Ok(self.set_min(words)?),
            "heap" => Ok(self.set_heap(words)?),
            "file" => {
                let fields = fields_of(words)?;
                self.add_file(alloc, fields, text_after_words(text, WORDS_BEFORE_PATH))
            }
            _ => Err(CallError::Bad(Cause::Word)),
        }
    }

    /// Sets the most areas, once.
    #[tactic(auto, unfolding(crate::specs::Lines::with_limit))]
    fn set_limit(&mut self, words: &[&str]) -> Result<(), Cause>
        ensures added { ReadsAs (λ _. so_far self.new) result
            (with_limit (so_far self.old) (map (λ word. word.now) words.now)) }
        ensures kept { IfErr result (λ _. so_far self.new ≡ so_far self.old) }
    {
        if self.settings.areas.is_some() {
            return Err(Cause::Word);
        }
        self.settings.areas = Some(limit_of(words)?);
        Ok(())
    }

    /// Sets the address below which room is looked for, once.
    #[tactic(auto, unfolding(crate::specs::Lines::with_top))]
    fn set_top(&mut self, words: &[&str]) -> Result<(), Cause>
        ensures added { ReadsAs (λ _. so_far self.new) result (with_top (so_far self.old) (map (λ word. word.now) words.now)) }
        ensures kept { IfErr result (λ _. so_far self.new ≡ so_far self.old) }
    {
        if self.settings.top.is_some() {
            return Err(Cause::Word);
        }
        self.settings.top = Some(bound_of(words)?);
        Ok(())
    }

    /// Sets the lowest address that may be mapped, once.
    #[tactic(auto, unfolding(crate::specs::Lines::with_min))]
    fn set_min(&mut self, words: &[&str]) -> Result<(), Cause>
        ensures added { ReadsAs (λ _. so_far self.new) result (with_min (so_far self.old) (map (λ word. word.now) words.now)) }
        ensures kept { IfErr result (λ _. so_far self.new ≡ so_far self.old) }
    {
        if self.settings.min.is_some() {
            return Err(Cause::Word);
        }
        self.settings.min = Some(bound_of(words)?);
        Ok(())
    }

    /// Sets the address at which the heap begins, once.
    #[tactic(auto, unfolding(crate::specs::Lines::with_heap))]
    fn set_heap(&mut self, words: &[&str]) -> Result<(), Cause>
        ensures added { ReadsAs (λ _. so_far self.new) result (with_heap (so_far self.old) (map (λ word. word.now) words.now)) }
        ensures kept { IfErr result (λ _. so_far self.new ≡ so_far self.old) }
    {
        if self.settings.heap.is_some() {
            return Err(Cause::Word);
        }
        self.settings.heap = Some(bound_of(words)?);
        Ok(())
    }

    /// Adds a file, by its last tests in their order: no file before it has its descriptor, and there are fewer than a trace may have.
    /// Only then its path takes memory.
    #[tactic(auto, unfolding(crate::specs::Lines::with_file))]
    fn add_file(&mut self, alloc: Global, fields: FileFields, path: &str) -> Result<(), CallError>
        ensures added { GivesTested (λ _. so_far self.new) result (with_file (so_far self.old) (with_path fields path.now)) }
        ensures kept { StaysIfBad result (so_far self.old) (so_far self.new) }
    {
        if has_descriptor(self.files.as_slice(), fields.fd) {
            return Err(CallError::Bad(Cause::FileTwice));
        }
        if MOST_FILES <= self.files.len() {
            return Err(CallError::Bad(Cause::TooMany));
        }
        let file = with_path(alloc, fields, path)?;
        self.files.push(file)?;
        Ok(())
    }

    /// The lines with a thread so far, in their order.
    pub fn lines(&self) -> &[TraceLine]
        ensures { result.now ≡ (so_far self.now).lines }
    {
        self.lines.as_slice()
    }

    /// The configuration that the lines so far name, with a copy of their files. Fails only where memory runs out.
    #[tactic(auto, unfolding(crate::specs::Grammar::config_of))]
    pub fn config(&self, alloc: Global) -> Result<Config, NoMemory>
        ensures { IfOk result (λ config. config ≡ config_of (so_far self.now)) }
    {
        let mut files = Vec::new(alloc);
        for file in self.files.as_slice() {
            files.push(file.copy(alloc)?)?;
        }
        Ok(config_named(self.settings, Files::of(files)))
    }

    /// The trace that the lines so far are.
    #[tactic(auto, unfolding(crate::specs::Grammar::config_of))]
    pub fn build(self) -> Trace
        ensures { result ≡ trace_so_far (so_far self) }
    {
        Trace {
            config: config_named(self.settings, Files::of(self.files)),
            lines: Lines::of(self.lines),
        }
    }
}

/// The configuration that these settings name, with these files: the default where they name nothing.
#[tactic(auto, unfolding(crate::specs::Grammar::config_of))]
fn config_named(settings: Settings, files: Files) -> Config
    ensures { result ≡ config_named settings files }
{
    let mut config = Config::with_files(files);
    config.min = settings.min.unwrap_or(config.min);
    config.top = settings.top.unwrap_or(config.top);
    config.limit = address_limit(settings.version);
    config.areas = settings.areas.unwrap_or(config.areas);
    config.heap = settings.heap.unwrap_or(config.heap);
    config
}

/// The version that the text of the first line names: `vmatrace 1` or `vmatrace 2`.
#[tactic(auto, unfolding(crate::specs::Lines::read_version))]
fn version_of(text: &str) -> Option<Version>
    ensures { result ≡ read_version (words_of text.now) }
{
    if is_header(text, "vmatrace", "1") {
        Some(Version::Narrow)
    } else if is_header(text, "vmatrace", "2") {
        Some(Version::Wide)
    } else {
        None
    }
}

/// The address at which user memory ends, in bytes.
fn address_limit(version: Version) -> u64
    ensures { result ≡ address_limit version }
{
    match version {
        Version::Narrow => ADDRESS_LIMIT,
        Version::Wide => WIDE_LIMIT,
    }
}

/// Whether an operation reads the list of areas.
fn is_maps(op: &Op) -> bool
    ensures { result ≡ is_maps op.now }
{
    matches!(op, Op::Maps)
}

/// Whether an operation is a call.
fn is_call_op(op: &Op) -> bool
    ensures { result ≡ is_call_op op.now }
{
    matches!(op, Op::Call(_))
}

/// Whether an operation forks.
fn forks(op: &Op) -> bool
    ensures { result ≡ is_some (child_of op.now) }
{
    matches!(op, Op::Fork { .. })
}

/// Whether a thread is one of the children.
fn has_child(children: &[u32], thread: u32) -> bool
    ensures { result ≡ has_child children.now thread }
{
    children.iter().any(|child| *child == thread)
}

/// Whether a line is of this thread.
fn has_thread(lines: &[TraceLine], thread: u32) -> bool
    ensures { result ≡ list_any (λ line. nat_eq line.thread thread) lines.now }
{
    lines.iter().any(|line| line.thread == thread)
}

/// Whether the line of this number, found by halving, is one that a line of this thread may name.
fn has_told(lines: &[TraceLine], children: &[u32], thread: u32, number: u64) -> bool
    requires { AreNumbered lines.now }
    ensures { result ≡ list_any (is_told children.now thread number) lines.now }
{
    let place = lines.partition_point(|other| other.number < number);
    match lines.get(place) {
        Some(other) => is_told(children, thread, number, other),
        None => false,
    }
}

/// Whether a line has this number, is a call, and is of another thread than this one that is no child.
fn is_told(children: &[u32], thread: u32, number: u64, other: &TraceLine) -> bool
    ensures { result ≡ is_told children.now thread number other.now }
{
    other.number == number
        && is_call_op(&other.op)
        && other.thread != thread
        && !has_child(children, other.thread)
}

/// Whether one of the files has this descriptor.
#[tactic(auto, unfolding(crate::specs::Lines::has_descriptor))]
fn has_descriptor(files: &[FileRow], fd: i32) -> bool
    ensures { result ≡ has_descriptor files.now fd }
{
    files.iter().any(|file| file.fd == fd)
}
