//! The bits of mmap(2), mprotect(2) and mremap(2), as Linux numbers them.
ghost use Rattle.std.specs.Prelude.{◌≡◌};
ghost use Rattle.mm_types.specs.Flags.{has_flag};

/// Pages may be read.
pub const PROT_READ: u32 = 0x1;

/// Pages may be written.
pub const PROT_WRITE: u32 = 0x2;

/// Pages may be executed.
pub const PROT_EXEC: u32 = 0x4;

/// Share the mapping.
pub const MAP_SHARED: u32 = 0x1;

/// Keep the mapping private.
pub const MAP_PRIVATE: u32 = 0x2;

/// Place the mapping exactly, over what is there.
pub const MAP_FIXED: u32 = 0x10;

/// Map no file.
pub const MAP_ANONYMOUS: u32 = 0x20;

/// The area grows downwards where a page right below it is touched.
pub const MAP_GROWSDOWN: u32 = 0x100;

/// Ignored by Linux, and here.
pub const MAP_DENYWRITE: u32 = 0x800;

/// Ignored by Linux, and here.
pub const MAP_EXECUTABLE: u32 = 0x1000;

/// Reserve no swap space; it changes nothing here.
pub const MAP_NORESERVE: u32 = 0x4000;

/// Make the pages at once; it changes nothing here.
pub const MAP_POPULATE: u32 = 0x8000;

/// The mapping serves as a stack; it changes nothing here.
pub const MAP_STACK: u32 = 0x2_0000;

/// Place the mapping exactly, unless something is there.
pub const MAP_FIXED_NOREPLACE: u32 = 0x10_0000;

/// The area may move.
pub const MREMAP_MAYMOVE: u32 = 1;

/// The area moves to the given address.
pub const MREMAP_FIXED: u32 = 2;

/// The area moves and its old place stays mapped; refused here.
pub const MREMAP_DONTUNMAP: u32 = 4;

/// Whether a flag is set.
pub fn has_flag(flags: u32, flag: u32) -> bool
    ensures { result ≡ has_flag flags flag }
{
    flags & flag != 0
}
