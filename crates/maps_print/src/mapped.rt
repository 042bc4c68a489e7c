ghost use Rattle.std.specs.Prelude.{◌≡◌};
ghost use Rattle.mm_types.specs.MapsText.{backing};

use mm_types::{Files, Record};
use std::marker::Model;

/// What the kernel shows for memory of the heap of brk(2).
const HEAP_NAME: &str = "[heap]";

/// What the kernel shows for a shared anonymous object, which is a file of its own that was deleted.
const SHARED_NAME: &str = "/dev/zero (deleted)";

/// What an area maps: a device, an inode and a name.
#[derive(Drop)]
pub(crate) struct Mapped<'a> {
    pub major: u32,
    pub minor: u32,
    pub inode: u64,
    pub name: &'a [u8],
}

impl<'a> Model for Mapped<'a> {
    ghost use Rattle.mm_types.specs.MapsText.{Backing};

    ghost Value = { Backing };

    ghost view = { λ m. record { major = m.major; minor = m.minor; inode = m.inode; name = m.name.now } };
}

impl<'a> Mapped<'a> {
    /// What an area maps: private anonymous memory, which may be part of the heap, a file, or shared anonymous memory.
    #[tactic(auto, unfolding(mm_types::specs::MapsText::backing))]
    pub(crate) fn of(files: &'a Files, area: &Record) -> Mapped<'a>
        ensures { result ≡ backing files.now area.now }
    {
        let object = area.object;
        if object == 0 {
            return Mapped {
                major: 0,
                minor: 0,
                inode: 0,
                name: if area.attr.heap { HEAP_NAME } else { "" }.as_bytes(),
            };
        }
        match files.items().get(object as usize - 1) {
            Some(file) => Mapped {
                major: file.major,
                minor: file.minor,
                inode: file.inode,
                name: file.path.as_str().as_bytes(),
            },
            None => Mapped {
                major: 0,
                minor: 1,
                inode: u64::from(object),
                name: SHARED_NAME.as_bytes(),
            },
        }
    }
}
