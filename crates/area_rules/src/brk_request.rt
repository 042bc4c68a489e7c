//! brk(2): the pages between two breaks, and the areas of the heap.
ghost use Rattle.std.specs.Prelude.{◌≡◌, ◌||◌, nat_eq, nat_lt};
ghost use Rattle.area_rules.specs.Brk.{pages_between, heap_area};

use crate::mmap_request::EVERY_ACCESS;
use crate::tables::pages_of;
use mm_types::{Attr, Config, Prot, Record, Span};

/// Whether there is no heap, or the address lies below it: the break then stays.
pub fn is_below_heap(config: &Config, addr: u64) -> bool
    ensures { result ≡ (nat_eq config.now.heap 0 || nat_lt addr config.now.heap) }
{
    config.heap == 0 || addr < config.heap
}

/// The pages between two breaks, each rounded up to a page. The breaks are in bytes.
pub fn pages_between(low: u64, high: u64) -> Span
    ensures { result ≡ pages_between low high }
{
    Span {
        lo: pages_of(low),
        hi: pages_of(high),
    }
}

/// The area of the heap on these pages: private anonymous memory to read and write.
#[tactic(auto, unfolding(crate::specs::Brk::heap_area))]
pub fn heap_area(span: Span) -> Record
    ensures { result ≡ heap_area span }
{
    Record {
        span,
        attr: Attr {
            prot: Prot {
                read: true,
                write: true,
                exec: false,
            },
            most: EVERY_ACCESS,
            shared: false,
            grows: false,
            sealed: false,
            heap: true,
        },
        object: 0,
        offset: 0,
    }
}
