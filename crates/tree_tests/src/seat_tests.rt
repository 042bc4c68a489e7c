//! One reader of a table of rows under the lock, and one call.
ghost use Rattle.std.specs.Prelude.{◌≡◌, [], IfSome, slice_get, Some};

mod entering;

use self::entering::{enter_held, row_of};
use area_model::{is_ready, model_step};
use mm_types::{
    ADDRESS_LIMIT, AreaList, Call, Config, Counters, DEFAULT_MIN, DEFAULT_TOP, Entry, Files,
    MAP_ANONYMOUS, MAP_PRIVATE, MmapArgs, NoMemory, Prot, Reply, Slot,
};
use std::alloc::Global;
use std::process::Abort;
use vma_lock::{ReaderSeat, VmaTable};

/// The row of the page of private anonymous memory that a first mapping is given.
const ROW: [u64; 4] = [0x7_ffff_7ffe_803b, 0x7_ffff_7fff, 0, 0];

/// A call waits for the reader of a slot, and a later look of the reader validates the row that the call wrote.
#[test]
fn the_writer_waits_for_a_reader(rt: HostRuntime) -> Result<(), NoMemory> {
    let alloc = rt.alloc();
    let config = config(alloc);
    assert!(rt; config.valid());
    let (table, mut writer, seats) = VmaTable::new(alloc, &config, 1)?;
    let Some(mut seat) = first_seat(seats) else {
        panic!(rt; "there is no reader")
    };
    assert_eq!(rt; table.add(&mut seat, Slot(0)), 0);
    let empty = AreaList::of(Vec::new(alloc));
    let counters = Counters::opening(&config);
    assert!(rt; is_ready(&config, counters, &empty));
    let call = mapping();
    let stepped = model_step(alloc, &config, counters, &empty, &call)?;
    let Some(row) = row_of(&stepped.list) else {
        panic!(rt; "the list has other areas")
    };
    assert_eq!(rt; row, ROW);
    assert_eq!(rt; stepped.reply, Reply::Addr(0x7fff_f7ff_e000));
    let entry = Entry {
        caller: 0,
        call,
        reply: stepped.reply,
    };
    let left = enter_held(&rt, &table, &mut writer, &mut seat, entry, row);
    assert_eq!(rt; left, 1);
    let found = table.add(&mut seat, Slot(0));
    assert_eq!(rt; found, 3);
    let seq = table.look(&mut seat);
    assert_eq!(rt; seq, 4);
    if found != seq {
        assert_eq!(rt; table.read_row(&mut seat), ROW);
        table.sub(&mut seat);
    }
    Ok(())
}

/// An address space of at most four areas, with no files.
fn config(alloc: Global) -> Config
    ensures { result.files ≡ [] }
{
    Config {
        min: DEFAULT_MIN,
        top: DEFAULT_TOP,
        limit: ADDRESS_LIMIT,
        areas: 4,
        files: Files::of(Vec::new(alloc)),
        heap: 0,
    }
}

/// Maps a page of private anonymous memory where the caller leaves its place open.
fn mapping() -> Call {
    Call::Mmap(MmapArgs {
        addr: 0,
        len: 4096,
        prot: Prot {
            read: true,
            write: true,
            exec: false,
        },
        flags: MAP_PRIVATE | MAP_ANONYMOUS,
        fd: -1,
        offset: 0,
    })
}

/// The first of some readers.
fn first_seat(mut seats: Vec<ReaderSeat>) -> Option<ReaderSeat>
    ensures { IfSome result (λ seat. slice_get seats.items 0 ≡ Some seat) }
{
    if seats.is_empty() {
        None
    } else {
        Some(seats.swap_remove(0))
    }
}
