use crate::area::{Access, AreaList, Page, Prot, Record, Verdict};
use crate::config::{Config, MOST_FILES};

/// The errors of the calls, by their names in errno(3).
#[derive(Clone, Copy, Debug, PartialEq, Eq)]
pub enum Errno {
    Eperm,
    Ebadf,
    Enomem,
    Eacces,
    Efault,
    Eexist,
    Einval,
    Eoverflow,
}

/// The arguments of mmap(2). `addr`, `len` and `offset` are in bytes, and `flags` are the bits of its `MAP_` names.
#[derive(Clone, Copy, Debug, PartialEq, Eq)]
pub struct MmapArgs {
    pub addr: u64,
    pub len: u64,
    pub prot: Prot,
    pub flags: u32,
    pub fd: i32,
    pub offset: u64,
}

/// A call that may change the areas: mmap(2), munmap(2), mprotect(2), mremap(2), brk(2), mseal(2), or a fault that grows an
/// area. Addresses and lengths are in bytes.
#[derive(Clone, Copy, Debug, PartialEq, Eq)]
pub enum Call {
    Mmap(MmapArgs),
    Munmap {
        addr: u64,
        len: u64,
    },
    Mprotect {
        addr: u64,
        len: u64,
        prot: Prot,
    },
    Mremap {
        old: u64,
        old_len: u64,
        new_len: u64,
        flags: u32,
        new: u64,
    },
    /// A page fault below an area that grows downwards (`MAP_GROWSDOWN` of mmap(2)).
    Touch {
        page: Page,
        access: Access,
    },
    Brk {
        addr: u64,
    },
    Mseal {
        addr: u64,
        len: u64,
        flags: u64,
    },
}

/// What a call returns: an address, zero, or an error; or the area that a fault grew.
#[derive(Clone, Copy, Debug, PartialEq, Eq)]
pub enum Reply {
    Addr(u64),
    Zero,
    Refused(Errno),
    /// The area after it grew, and the page of its object that serves the fault: 0, since it is private anonymous memory.
    Grown { area: Record, index: u64 },
}

/// What calls keep besides the areas.
#[derive(Clone, Copy, Debug, PartialEq, Eq)]
pub struct Counters {
    /// How many objects are numbered: the files, and each shared anonymous mapping.
    pub objects: u32,
    /// The break of brk(2): the address at which the heap ends, in bytes.
    pub brk: u64,
}

impl Counters {
    ghost use Rattle.std.specs.Prelude.{◌≡◌, ◌≤◌, length};
    ghost use Rattle.mm_types.specs.Config.{counters_at_opening};

    /// The counters of an address space without a call: the files are numbered, and the heap is empty.
    pub fn opening(config: &Config) -> Counters
        requires { length config.now.files ≤ MOST_FILES }
        ensures { result ≡ counters_at_opening config.now }
    {
        Counters {
            objects: config.files.items().len() as u32,
            brk: config.heap,
        }
    }
}

/// One entry of a journal: who called, the call, and its reply.
#[derive(Clone, Copy, Debug, PartialEq, Eq)]
pub struct Entry {
    pub caller: u32,
    pub call: Call,
    pub reply: Reply,
}

/// A read that a caller made. Its version is the number of journal entries before it.
#[derive(Debug, Drop)]
pub enum Seen {
    Fault {
        version: u64,
        page: Page,
        access: Access,
        verdict: Verdict,
    },
    Maps {
        version: u64,
        list: AreaList,
    },
}
