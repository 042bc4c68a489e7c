//! What the tests give a space to begin with.

ghost use Rattle.std.specs.Prelude.{◌≡◌};

use mm_types::{ADDRESS_LIMIT, Config, DEFAULT_MIN, DEFAULT_TOP, Files, Prot};
use std::alloc::Global;

pub(crate) const READ: Prot = Prot {
    read: true,
    write: false,
    exec: false,
};

pub(crate) const READ_WRITE: Prot = Prot {
    read: true,
    write: true,
    exec: false,
};

/// An address space of at most so many areas, with no files and no heap.
pub(crate) fn config(alloc: Global, areas: u32) -> Config
    ensures { result.areas ≡ areas }
{
    Config {
        min: DEFAULT_MIN,
        top: DEFAULT_TOP,
        limit: ADDRESS_LIMIT,
        areas,
        files: Files::of(Vec::new(alloc)),
        heap: 0,
    }
}
