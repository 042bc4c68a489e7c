//! What histories are made of that are worked out by hand.

use history::{Content, Item};
use mm_types::{
    Access, Attr, Call, MAP_ANONYMOUS, MAP_FIXED, MAP_PRIVATE, MmapArgs, Page, Prot, Record, Reply,
    Span, Verdict,
};

/// Reads alone.
pub(crate) const READ: Prot = Prot {
    read: true,
    write: false,
    exec: false,
};

/// Reads and writes.
pub(crate) const WRITE: Prot = Prot {
    read: true,
    write: true,
    exec: false,
};

/// Private memory at an address.
pub(crate) fn mmap(addr: u64, len: u64, prot: Prot, more: u32) -> Call {
    Call::Mmap(MmapArgs {
        addr,
        len,
        prot,
        flags: MAP_PRIVATE | MAP_ANONYMOUS | MAP_FIXED | more,
        fd: -1,
        offset: 0,
    })
}

/// Private memory on these pages.
pub(crate) fn area(lo: u64, hi: u64, prot: Prot, grows: bool) -> Record {
    Record {
        span: Span { lo, hi },
        attr: Attr {
            prot,
            most: Prot {
                read: true,
                write: true,
                exec: true,
            },
            shared: false,
            grows,
            sealed: false,
            heap: false,
        },
        object: 0,
        offset: 0,
    }
}

pub(crate) fn item(caller: u32, version: u64, content: Content) -> Item {
    Item {
        caller,
        version,
        content,
    }
}

pub(crate) fn called(caller: u32, version: u64, call: Call, reply: Reply) -> Item {
    item(caller, version, Content::Called(call, reply))
}

/// A fault by which nothing grows.
pub(crate) fn faulted(
    caller: u32,
    version: u64,
    page: u64,
    access: Access,
    verdict: Verdict,
) -> Item {
    let page = Page(page);
    item(
        caller,
        version,
        Content::Fault {
            page,
            access,
            verdict,
        },
    )
}
