//! The forms of a line.
ghost use Rattle.std.specs.Prelude.{◌<◌, IfOk};

use crate::fault::Fault;
use std::alloc::Global;

/// A line of the text.
#[derive(Debug, Drop)]
pub enum Line<'a> {
    /// One that is passed over.
    Passed,
    /// The first of a row, with its name.
    Row(&'a str),
    /// A part of the input.
    Input(Part),
    /// A run of the input.
    Run(Run),
    /// The last run once more, with this part behind the input.
    With(Part),
}

/// A part of an input: some bytes, repeated.
#[derive(Debug, Drop)]
pub struct Part {
    count: usize,
    bytes: Vec<u8>,
}

impl Part {
    /// Adds it to an input.
    pub fn add_to(&self, input: &mut Vec<u8>) -> Result<(), Fault> {
        for _ in 0..self.count {
            input.extend_from_slice(self.bytes.as_slice())?;
        }
        Ok(())
    }
}

/// How the input of a row is run.
#[derive(Debug, Drop)]
pub struct Run {
    /// The words of the command line.
    pub words: Vec<String>,
    /// The calls of the source that fail, counted from 0.
    pub failing_reads: Vec<u64>,
    /// The calls of the sink that fail, counted from 0.
    pub failing_writes: Vec<u64>,
    /// How many bytes of the input the source has, if not all.
    pub first: Option<usize>,
}

/// Reads a line.
pub fn read_line(alloc: Global, line: &str) -> Result<Line<'_>, Fault> {
    if line.is_empty() || line.starts_with('#') {
        return Ok(Line::Passed);
    }
    if let Some(name) = line.strip_prefix("row ")
        && !name.is_empty()
    {
        return Ok(Line::Row(name));
    }
    if let Some(rest) = line.strip_prefix("run") {
        return Ok(Line::Run(read_run(alloc, rest)?));
    }
    if let Some(rest) = line.strip_prefix("with ") {
        return Ok(Line::With(read_part(alloc, rest)?));
    }
    Ok(Line::Input(read_part(alloc, line)?))
}

/// Reads a part of an input.
fn read_part(alloc: Global, line: &str) -> Result<Part, Fault> {
    let (count, text) = counted(line);
    let bytes = read_text(alloc, text)?;
    Ok(Part { count, bytes })
}

/// The count before a text, or 1, and the text with its mark.
fn counted(line: &str) -> (usize, &str) {
    if let Some((count, text)) = line.split_once(' ')
        && let Ok(count) = count.parse::<usize>()
    {
        return (count, text);
    }
    (1, line)
}

/// The bytes of a text with its mark.
fn read_text(alloc: Global, text: &str) -> Result<Vec<u8>, Fault> {
    if let Some(whole) = rest_of(text, '|') {
        let mut bytes = Vec::from_slice(alloc, whole.as_bytes())?;
        bytes.push(b'\n')?;
        return Ok(bytes);
    }
    match rest_of(text, '+') {
        Some(rest) => read_escaped(alloc, rest.as_bytes()),
        None => Err(Fault::Form),
    }
}

/// What is behind a mark and a space. A mark may be alone.
fn rest_of(text: &str, mark: char) -> Option<&str> {
    let rest = text.strip_prefix(mark)?;
    if rest.is_empty() {
        return Some(rest);
    }
    rest.strip_prefix(' ')
}

/// The bytes of a text in which `\xHH` stands for one.
fn read_escaped(alloc: Global, text: &[u8]) -> Result<Vec<u8>, Fault> {
    let mut parts = text.split(|byte| *byte == b'\\');
    let mut bytes = Vec::from_slice(alloc, parts.next().unwrap_or(b""))?;
    for part in parts {
        let [b'x', high, low, rest @ ..] = part else {
            return Err(Fault::Byte);
        };
        bytes.push(digit(*high)? * 16 + digit(*low)?)?;
        bytes.extend_from_slice(rest)?;
    }
    Ok(bytes)
}

/// A hexadecimal digit.
fn digit(byte: u8) -> Result<u8, Fault>
    ensures { IfOk result (λ value. value < 16) }
{
    match byte {
        b'0'..=b'9' => Ok(byte - b'0'),
        b'a'..=b'f' => Ok(byte - b'a' + 10),
        _ => Err(Fault::Byte),
    }
}

/// The run of a line, by what is behind its `run`.
fn read_run(alloc: Global, rest: &str) -> Result<Run, Fault> {
    let Some((settings, words)) = rest.split_once(':') else {
        return Err(Fault::Form);
    };
    let mut run = Run {
        words: read_words(alloc, words)?,
        failing_reads: Vec::new(alloc),
        failing_writes: Vec::new(alloc),
        first: None,
    };
    let mut parts = settings.split(',');
    if parts.next() != Some("") {
        return Err(Fault::Form);
    }
    for setting in parts {
        read_setting(&mut run, setting)?;
    }
    Ok(run)
}

/// Reads one setting of a run, which is before its colon.
fn read_setting(run: &mut Run, setting: &str) -> Result<(), Fault> {
    if let Some(call) = between(setting, " read ", " fails") {
        run.failing_reads.push(call)?;
    } else if let Some(call) = between(setting, " write ", " fails") {
        run.failing_writes.push(call)?;
    } else if let Some(count) = between(setting, " first ", " bytes") {
        run.first = Some(count as usize);
    } else {
        return Err(Fault::Setting);
    }
    Ok(())
}

/// The number between two texts.
fn between(text: &str, front: &str, back: &str) -> Option<u64> {
    text.strip_prefix(front)?
        .strip_suffix(back)?
        .parse::<u64>()
        .ok()
}

/// Words, separated by spaces.
fn read_words(alloc: Global, text: &str) -> Result<Vec<String>, Fault> {
    let mut words = Vec::new(alloc);
    for word in text.split(' ') {
        match word {
            "" => {}
            "''" => words.push(String::new(alloc))?,
            _ => words.push(String::from_str(alloc, word)?)?,
        }
    }
    Ok(words)
}
