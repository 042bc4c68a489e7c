//! Standard input and output beside a reader and a writer that fail: no clause says that an interruption is tried again, and nothing else.

use super::*;
use std::test::Fail;

/// A reader and a writer of which each call ends as the next of its ends says: so many bytes are moved, or an error. Behind the last it is
/// broken.
#[derive(Drop)]
struct Scripted {
    ends: Vec<Result<usize, ErrorKind>>,
    calls: usize,
}

impl Scripted {
    /// The most bytes that this call may move.
    fn next(&mut self) -> io::Result<usize> {
        let end = self.ends.get(self.calls).copied();
        self.calls = self.calls.saturating_add(1);
        match end.unwrap_or(Err(ErrorKind::BrokenPipe)) {
            Ok(most) => Ok(most),
            Err(kind) => Err(io::Error::from(kind)),
        }
    }
}

impl Read for Scripted {
    fn read(&mut self, into: &mut [u8]) -> io::Result<usize> {
        let count = self.next()?.min(into.len());
        into[..count].fill(b'v');
        Ok(count)
    }
}

impl Write for Scripted {
    fn write(&mut self, piece: &[u8]) -> io::Result<usize> {
        Ok(self.next()?.min(piece.len()))
    }

    fn flush(&mut self) -> io::Result<()> {
        Ok(())
    }
}

/// Three interruptions, a byte, nothing, what would block, and from then on a broken pipe.
fn broken_in_turn<R: AllocGlobal>(rt: &R) -> Result<Scripted, Fail> {
    let interrupted = Err(ErrorKind::Interrupted);
    Ok(Scripted {
        ends: vec![in rt.alloc();
            interrupted,
            interrupted,
            interrupted,
            Ok(1),
            Ok(0),
            Err(ErrorKind::WouldBlock),
        ]?,
        calls: 0,
    })
}

/// Only an interruption is tried again. A read of no byte is the end, and a write of none a fault.
#[test]
fn interruptions_alone_are_tried_again(rt: HostRuntime) -> Result<(), Fail> {
    let mut source = StdSource::new(broken_in_turn(&rt)?);
    let mut piece = [0u8; 4];
    assert_eq!(rt; source.take(&mut piece), Ok(1));
    assert_eq!(rt; piece, *b"v\0\0\0");
    assert_eq!(rt; (source.input.calls, source.calls.faults), (4, 0));
    assert_eq!(rt; source.take(&mut piece), Ok(0));
    assert_eq!(rt; source.take(&mut piece), Err(Failed));
    assert_eq!(rt; source.take(&mut piece), Err(Failed));
    assert_eq!(rt; (source.input.calls, source.calls.faults), (7, 2));

    let mut sink = StdSink::new(broken_in_turn(&rt)?);
    assert_eq!(rt; sink.give(b"maps"), Ok(1));
    assert_eq!(rt; (sink.output.calls, sink.calls.faults), (4, 0));
    assert_eq!(rt; sink.give(b"aps"), Err(GiveError::Failed));
    assert_eq!(rt; sink.give(b"aps"), Err(GiveError::Failed));
    assert_eq!(rt; sink.give(b"aps"), Err(GiveError::Failed));
    assert_eq!(rt; (sink.output.calls, sink.calls.faults), (7, 3));
    Ok(())
}
