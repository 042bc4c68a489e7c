//! Reads and writes that fail.

use crate::running::words;
use io_edge::{MOST_AT_A_CALL, MemSink, MemSource, PlainGate};
use std::test::Fail;
use vma_replay::{Status, replay};

/// A trace that maps two pages, which a `MemSource` gives in two calls: the third tells its end.
const TRACE: &[u8] =
    b"vmatrace 1\n0 mmap 0 8192 PROT_READ|PROT_WRITE MAP_PRIVATE|MAP_ANONYMOUS -1 0\n";

/// What is given for it, which a `MemSink` takes in two calls.
const OUTPUT: &[u8] =
    b"L2 t0 v1 = 0x7ffff7ffd000\nmaps 1\n7ffff7ffd000-7ffff7fff000 rw-p 00000000 00:00 0 \n";

/// A script in which a call may not mark the slot that a reader holds, which a `MemSource` gives in one call: the second tells its end.
const SCRIPT: &[u8] = b"vmasteps 1\nlock 1 1\nadd 0 0\nbegin\nmark 0\n";

/// What is given for it, which a `MemSink` takes in two calls.
const TEXT: &[u8] =
    b"L3 found 0 | S 2 M 0:0/1\nL4 ok | S 3 M 0:0/1\nL5 refused 2 ReadersLeft 1 | S 3 M 0:0/1\n";

/// A call that is never reached.
const NONE: u64 = 9;

/// Each call of the source and of the sink fails in turn, of a trace and of a script. A failing read leaves nothing given, a failing write
/// the beginning that was given before it, and a call that is not reached all.
#[test]
fn each_failing_read_and_write_is_told(rt: HostRuntime) -> Result<(), Fail> {
    let runs: [(&str, &[u8], u64, u64, Status, &[u8]); 13] = [
        ("serial", TRACE, 0, NONE, Status::ReadFault, b""),
        ("serial", TRACE, 1, NONE, Status::ReadFault, b""),
        ("serial", TRACE, 2, NONE, Status::ReadFault, b""),
        ("serial", TRACE, 3, NONE, Status::Done, OUTPUT),
        ("serial", TRACE, NONE, 0, Status::WriteFault, b""),
        (
            "serial",
            TRACE,
            NONE,
            1,
            Status::WriteFault,
            &OUTPUT[..MOST_AT_A_CALL],
        ),
        ("serial", TRACE, NONE, 2, Status::Done, OUTPUT),
        ("steps", SCRIPT, 0, NONE, Status::ReadFault, b""),
        ("steps", SCRIPT, 1, NONE, Status::ReadFault, b""),
        ("steps", SCRIPT, 2, NONE, Status::Done, TEXT),
        ("steps", SCRIPT, NONE, 0, Status::WriteFault, b""),
        (
            "steps",
            SCRIPT,
            NONE,
            1,
            Status::WriteFault,
            &TEXT[..MOST_AT_A_CALL],
        ),
        ("steps", SCRIPT, NONE, 2, Status::Done, TEXT),
    ];
    for (mode, input, read, write, answer, given) in runs {
        let words = words(rt.alloc(), &[mode])?;
        let mut source = MemSource::new(
            Vec::from_slice(rt.alloc(), input)?,
            vec![in rt.alloc(); read]?,
        );
        let mut sink = MemSink::new(rt.alloc(), vec![in rt.alloc(); write]?);
        let status = replay(&rt, rt.alloc(), &words, &mut source, &mut sink, &PlainGate).status;
        assert_eq!(rt; status, answer, "{mode}, read {read}, write {write}");
        assert_eq!(rt; sink.bytes(), given, "{mode}, read {read}, write {write}");
    }
    Ok(())
}
