//! Faults while both tables are written by hand, which no caller of this crate can do.

mod bench;
mod leaf;
mod row;

ghost use Rattle.std.specs.Prelude.{◌≡◌, []};

use crate::{Fast, Miss};
use bench::Bench;
use mm_types::{
    ADDRESS_LIMIT, Access, Call, Config, DEFAULT_MIN, DEFAULT_TOP, Files, MAP_ANONYMOUS,
    MAP_PRIVATE, MmapArgs, PAGE_SIZE, Page, Prot, Verdict,
};
use std::alloc::Global;
use std::process::Abort;
use std::test::Fail;

/// The page that a first mapping of one page is given.
const PAGE: Page = Page(0x7_ffff_7ffe);

/// A page that is not mapped, though the tree pairs a slot with it.
const OTHER: Page = Page(0x1_0000);

/// The row of a slot without an area.
const DETACHED: [u64; 4] = [0; 4];

/// The row of the first mapping.
const ROW: [u64; 4] = [0x7_ffff_7ffe_803b, 0x7_ffff_7fff, 0, 0];

/// A slot that the tree pairs with two pages: it is detached, marked in a call that maps one of them, serves this one alone, and
/// is detached again after a call that unmaps it.
#[test]
fn a_slot_is_marked_serves_and_is_detached(rt: HostRuntime) -> Result<(), Fail> {
    let alloc = rt.alloc();
    let mut bench = Bench::open(&rt, alloc, config(alloc))?;
    assert_eq!(rt;
        bench.fault(PAGE),
        Fast::Miss(Miss::Elsewhere { row: DETACHED })
    );
    let (mut bench, marked) = called(&rt, bench.call(alloc, mapping(), PAGE)?);
    assert_eq!(rt; marked, Fast::Miss(Miss::Marked { seq: 3 }));
    let Fast::Answer {
        verdict: Verdict::Served { area, index },
        version,
    } = bench.fault(PAGE)
    else {
        panic!(rt; "the page is not served")
    };
    assert_eq!(rt;
        (area.span.lo, area.span.hi, index, version),
        (PAGE.0, PAGE.0 + 1, 0, 1)
    );
    assert_eq!(rt;
        bench.fault(OTHER),
        Fast::Miss(Miss::Elsewhere { row: ROW })
    );
    let unmapping = Call::Munmap {
        addr: PAGE.0 * PAGE_SIZE,
        len: PAGE_SIZE,
    };
    let (mut bench, marked) = called(&rt, bench.call(alloc, unmapping, PAGE)?);
    assert_eq!(rt; marked, Fast::Miss(Miss::Marked { seq: 5 }));
    assert_eq!(rt;
        bench.fault(PAGE),
        Fast::Miss(Miss::Elsewhere { row: DETACHED })
    );
    Ok(())
}

/// An address space of at most one area, with no files.
fn config(alloc: Global) -> Config
    ensures areas { result.areas ≡ 1 }
    ensures files { result.files ≡ [] }
{
    Config {
        min: DEFAULT_MIN,
        top: DEFAULT_TOP,
        limit: ADDRESS_LIMIT,
        areas: 1,
        files: Files::of(Vec::new(alloc)),
        heap: 0,
    }
}

/// Maps a page of private anonymous memory where the caller leaves its place open.
fn mapping() -> Call {
    Call::Mmap(MmapArgs {
        addr: 0,
        len: PAGE_SIZE,
        prot: Prot {
            read: true,
            write: true,
            exec: false,
        },
        flags: MAP_PRIVATE | MAP_ANONYMOUS,
        fd: -1,
        offset: 0,
    })
}

/// What a call left.
fn called<R: Abort>(rt: &R, made: Option<(Bench, Fast)>) -> (Bench, Fast) {
    let Some(made) = made else {
        panic!(rt; "no call was made")
    };
    made
}
