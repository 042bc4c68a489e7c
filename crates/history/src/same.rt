//! Whether two values are the same, field by field: a derived `==` says as much, but for values with so many fields it is not proved
//! at once that what is equal is the same.
ghost use Rattle.std.specs.Prelude.{◌≡◌, ◌↔◌, IsTrue};

use mm_types::{Attr, Call, MmapArgs, Prot, Record, Reply, Verdict};

/// Whether two calls are the same.
pub(crate) fn same_call(a: &Call, b: &Call) -> bool
    ensures { IsTrue result ↔ (a.now ≡ b.now) }
{
    match (a, b) {
        (Call::Mmap(args), Call::Mmap(other_args)) => same_args(args, other_args),
        (
            Call::Munmap { addr, len },
            Call::Munmap {
                addr: other_addr,
                len: other_len,
            },
        ) => { addr == other_addr && len == other_len }
        (
            Call::Mprotect { addr, len, prot },
            Call::Mprotect {
                addr: other_addr,
                len: other_len,
                prot: other_prot,
            },
        ) => addr == other_addr && len == other_len && same_prot(prot, other_prot),
        (
            Call::Mremap {
                old,
                old_len,
                new_len,
                flags,
                new,
            },
            _,
        ) => is_mremap(b, *old, *old_len, *new_len, *flags, *new),
        (
            Call::Touch { page, access },
            Call::Touch {
                page: other_page,
                access: other_access,
            },
        ) => page == other_page && access == other_access,
        (Call::Brk { addr }, Call::Brk { addr: other_addr }) => addr == other_addr,
        (Call::Mseal { addr, len, flags }, _) => is_mseal(b, *addr, *len, *flags),
        _ => false,
    }
}

/// Whether a call is mremap(2) with these arguments.
fn is_mremap(call: &Call, old: u64, old_len: u64, new_len: u64, flags: u32, new: u64) -> bool
    ensures { IsTrue result ↔ (Call.Mremap old old_len new_len flags new ≡ call.now) }
{
    match call {
        Call::Mremap {
            old: other_old,
            old_len: other_old_len,
            new_len: other_new_len,
            flags: other_flags,
            new: other_new,
        } => {
            old == *other_old
                && old_len == *other_old_len
                && new_len == *other_new_len
                && flags == *other_flags
                && new == *other_new
        }
        _ => false,
    }
}

/// Whether a call is mseal(2) with these arguments.
fn is_mseal(call: &Call, addr: u64, len: u64, flags: u64) -> bool
    ensures { IsTrue result ↔ (Call.Mseal addr len flags ≡ call.now) }
{
    match call {
        Call::Mseal {
            addr: other_addr,
            len: other_len,
            flags: other_flags,
        } => addr == *other_addr && len == *other_len && flags == *other_flags,
        _ => false,
    }
}

/// Whether two replies are the same.
pub(crate) fn same_reply(a: &Reply, b: &Reply) -> bool
    ensures { IsTrue result ↔ (a.now ≡ b.now) }
{
    match (a, b) {
        (Reply::Addr(addr), Reply::Addr(other_addr)) => addr == other_addr,
        (Reply::Zero, Reply::Zero) => true,
        (Reply::Refused(errno), Reply::Refused(other_errno)) => errno == other_errno,
        (
            Reply::Grown { area, index },
            Reply::Grown {
                area: other_area,
                index: other_index,
            },
        ) => same_area(area, other_area) && index == other_index,
        _ => false,
    }
}

/// Whether two verdicts are the same.
pub(crate) fn same_verdict(a: &Verdict, b: &Verdict) -> bool
    ensures { IsTrue result ↔ (a.now ≡ b.now) }
{
    match (a, b) {
        (
            Verdict::Served { area, index },
            Verdict::Served {
                area: other_area,
                index: other_index,
            },
        ) => { same_area(area, other_area) && index == other_index }
        (Verdict::MapErr, Verdict::MapErr)
        | (Verdict::AccErr, Verdict::AccErr)
        | (Verdict::BusErr, Verdict::BusErr) => true,
        _ => false,
    }
}

/// Whether two lists of areas are the same.
pub(crate) fn same_list(a: &[Record], b: &[Record]) -> bool
    ensures { IsTrue result ↔ (a.now ≡ b.now) }
{
    if a.len() != b.len() {
        return false;
    }
    for place in 0..a.len() {
        if !same_area(&a[place], &b[place]) {
            return false;
        }
    }
    true
}

/// Whether two areas are the same.
fn same_area(a: &Record, b: &Record) -> bool
    ensures { IsTrue result ↔ (a.now ≡ b.now) }
{
    a.span == b.span && same_attr(&a.attr, &b.attr) && a.object == b.object && a.offset == b.offset
}

/// Whether two sets of attributes are the same.
fn same_attr(a: &Attr, b: &Attr) -> bool
    ensures { IsTrue result ↔ (a.now ≡ b.now) }
{
    same_prot(&a.prot, &b.prot)
        && same_prot(&a.most, &b.most)
        && a.shared == b.shared
        && a.grows == b.grows
        && a.sealed == b.sealed
        && a.heap == b.heap
}

/// Whether two protections are the same.
fn same_prot(a: &Prot, b: &Prot) -> bool
    ensures { IsTrue result ↔ (a.now ≡ b.now) }
{
    a == b
}

/// Whether the arguments of two calls of mmap(2) are the same.
fn same_args(a: &MmapArgs, b: &MmapArgs) -> bool
    ensures { IsTrue result ↔ (a.now ≡ b.now) }
{
    a.addr == b.addr
        && a.len == b.len
        && same_prot(&a.prot, &b.prot)
        && a.flags == b.flags
        && a.fd == b.fd
        && a.offset == b.offset
}
