//! Inputs that are cut short or that break one rule, and inputs and outputs that move in pieces.
ghost use Rattle.std.specs.Prelude.{None};

use crate::running::words;
use io_edge::{Failed, GiveError, PlainGate, Sink, Source, SureSource};
use std::alloc::Global;
use std::process::Abort;
use std::sync::Wait;
use std::test::Fail;
use std::thread::Threads;
use vma_replay::{Cause, Status, replay};

/// A trace of two lines, of which each shorter beginning but the first line is no trace.
const SMALL: &[u8] = b"vmatrace 1\n0 munmap 0x10000 4096\n";

/// A source that keeps the lengths of the longest and of the shortest piece that it was asked to fill.
#[derive(Drop)]
struct NotingSource {
    inner: SureSource,
    longest: usize,
    shortest: usize,
}

impl Source for NotingSource {
    ghost seen = { λ _. record { left = None; faults = 0; just_failed = None } };

    fn take(&mut self, into: &mut [u8]) -> Result<usize, Failed> {
        self.longest = self.longest.max(into.len());
        self.shortest = self.shortest.min(into.len());
        self.inner.take(into)
    }
}

/// A sink that takes at most so many bytes at a call, and keeps what it took and how long each piece was.
#[derive(Drop)]
struct ShortSink {
    most: usize,
    bytes: Vec<u8>,
    pieces: Vec<usize>,
}

impl ShortSink {
    fn new(alloc: Global, most: usize) -> ShortSink {
        ShortSink {
            most,
            bytes: Vec::new(alloc),
            pieces: Vec::new(alloc),
        }
    }
}

impl Sink for ShortSink {
    ghost seen = { λ _. record { written = None; faults = 0; just_failed = None } };

    fn give(&mut self, piece: &[u8]) -> Result<usize, GiveError> {
        let count = piece.len().min(self.most.max(1));
        self.pieces.extend_from_slice(&[piece.len()])?;
        self.bytes.extend_from_slice(&piece[..count])?;
        Ok(count)
    }
}

/// What `serial` answers for a trace, with a sink that takes at most so many bytes at a call. Each piece of the trace that it asks for is of 65,536
/// bytes.
fn run<R: Threads + Wait + Sync + Abort>(
    rt: &R,
    alloc: Global,
    trace: &[u8],
    most: usize,
) -> Result<(Status, ShortSink), Fail> {
    let mut words = Vec::new(alloc);
    words.push(String::from_str(alloc, "serial")?)?;
    let mut source = NotingSource {
        inner: SureSource::new(Vec::from_slice(alloc, trace)?),
        longest: 0,
        shortest: usize::MAX,
    };
    let mut sink = ShortSink::new(alloc, most);
    let status = replay(rt, alloc, &words, &mut source, &mut sink, &PlainGate).status;
    assert_eq!(rt; source.longest, 65_536);
    assert_eq!(rt; source.shortest, 65_536);
    Ok((status, sink))
}

#[test]
fn tells_each_beginning_of_a_trace(rt: HostRuntime) -> Result<(), Fail> {
    for count in 0..SMALL.len() {
        let (status, sink) = run(&rt, rt.alloc(), &SMALL[..count], usize::MAX)?;
        let (line, cause) = match count {
            0 => (1, Cause::Header),
            1..11 => (1, Cause::NoEnd),
            _ => (2, Cause::NoEnd),
        };
        // The first line alone is a trace.
        let (answer, output): (Status, &[u8]) = if count == 11 {
            (Status::Done, b"maps 0\n")
        } else {
            (Status::Trace { line, cause }, b"")
        };
        assert_eq!(rt; status, answer, "{count} bytes");
        assert_eq!(rt; sink.bytes.as_slice(), output, "{count} bytes");
    }
    Ok(())
}

/// A trace of its first line and another text, so many times.
fn repeated(alloc: Global, text: &[u8], times: usize) -> Result<Vec<u8>, Fail> {
    let mut trace = Vec::from_slice(alloc, b"vmatrace 1\n")?;
    for _ in 0..times {
        trace.extend_from_slice(text)?;
    }
    Ok(trace)
}

#[test]
fn tells_the_line_that_breaks_a_rule(rt: HostRuntime) -> Result<(), Fail> {
    let alloc = rt.alloc();
    let mut long = repeated(alloc, b"#", 4097)?;
    long.push(b'\n')?;
    let traces = [
        (long, 2, Cause::TooLong),
        (repeated(alloc, b"0 maps\n# \xff\n", 1)?, 3, Cause::Utf8),
        (
            repeated(alloc, b"0 maps\nlimit areas 9\n", 1)?,
            3,
            Cause::Word,
        ),
        (repeated(alloc, b"0 maps\n", 65)?, 66, Cause::TooMany),
    ];
    for (trace, line, cause) in traces {
        let (status, sink) = run(&rt, alloc, trace.as_slice(), usize::MAX)?;
        assert_eq!(rt; status, Status::Trace { line, cause });
        assert!(rt; sink.pieces.is_empty());
    }
    let (status, _sink) = run(
        &rt,
        alloc,
        repeated(alloc, b"0 maps\n", 64)?.as_slice(),
        usize::MAX,
    )?;
    assert_eq!(rt; status, Status::Done);
    Ok(())
}

#[test]
fn gives_the_rest_of_a_piece(rt: HostRuntime) -> Result<(), Fail> {
    let output = b"L2 t0 v1 = 0\nmaps 0\n";
    let (status, sink) = run(&rt, rt.alloc(), SMALL, 1)?;
    assert_eq!(rt; status, Status::Done);
    assert_eq!(rt; sink.bytes.as_slice(), output.as_slice());
    // Each call is offered what is left.
    for (number, length) in sink.pieces.iter().enumerate() {
        assert_eq!(rt; number.checked_add(*length), Some(output.len()));
    }
    assert_eq!(rt; sink.pieces.len(), output.len());
    Ok(())
}

/// Whether each piece but the last has 65,536 bytes, and the last has no more.
fn are_whole(pieces: &[usize]) -> bool {
    match pieces {
        [front @ .., last] => front.iter().all(|piece| *piece == 65_536) && *last <= 65_536,
        [] => true,
    }
}

#[test]
fn each_job_gives_whole_pieces(rt: HostRuntime) -> Result<(), Fail> {
    let alloc = rt.alloc();
    let trace = repeated(alloc, b"0 fault 0x10000 r\n", 5000)?;
    // The parent's output fills no piece alone, nor does the child's.
    let mut forked = repeated(alloc, b"0 fault 0x10000 r\n", 1500)?;
    forked.extend_from_slice(b"0 fork 1\n")?;
    for _ in 0..1500 {
        forked.extend_from_slice(b"1 fault 0x10000 r\n")?;
    }
    let mut script = Vec::from_slice(alloc, b"vmasteps 1\nlock 1 1\nadd 0 0\nbegin\n")?;
    for _ in 0..2000 {
        script.extend_from_slice(b"mark 0\n")?;
    }
    let jobs: [(&[&str], &[u8], usize); 5] = [
        (&["threads"], trace.as_slice(), 3),
        (&["serial"], forked.as_slice(), 2),
        (&["threads"], forked.as_slice(), 2),
        (&["steps"], script.as_slice(), 2),
        (&["generate", "1000", "1"], b"", 1),
    ];
    for (list, input, count) in jobs {
        let mut source = SureSource::new(Vec::from_slice(alloc, input)?);
        let mut sink = ShortSink::new(alloc, usize::MAX);
        let words = words(alloc, list)?;
        let status = replay(&rt, alloc, &words, &mut source, &mut sink, &PlainGate).status;
        assert_eq!(rt; status, Status::Done);
        assert_eq!(rt; sink.pieces.len(), count);
        assert!(rt; are_whole(sink.pieces.as_slice()));
    }
    Ok(())
}
