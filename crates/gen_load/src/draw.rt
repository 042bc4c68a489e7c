//! What each number of a load draws.

ghost use Rattle.std.specs.Prelude.{◌≡◌};
ghost use Rattle.trace_reader.specs.Fields.{prot_of_bits};
ghost use Rattle.trace_reader.specs.LineTexts.{prot_word};
ghost use Rattle.gen_load.specs.Loads.{kind_of, drawn_thread, drawn_address, length_of, prot_bits_of, new_length_of};

use mm_types::PAGE_SIZE;

/// The lowest address of an operation, in bytes.
pub const FIRST_ADDRESS: u64 = 0x1000_0000;

/// How many pages have operations, from the first address on.
const PAGES: u64 = 0x1_0000;

/// How many draws there are: one is a number of 31 bits.
pub(crate) const DRAWS: u64 = 0x8000_0000;

/// The kinds of operation: three ways to map, exactly at an address, near it and where there is room, and then to unmap, to protect,
/// to move, to read and to write.
#[derive(Clone, Copy, Debug, PartialEq, Eq)]
pub(crate) enum Kind {
    MapExactly,
    MapNear,
    MapAnywhere,
    Unmap,
    Protect,
    Move,
    Read,
    Write,
}

/// What a line asks for, as 31 bits.
#[derive(Clone, Copy, Debug, PartialEq, Eq)]
pub(crate) struct Draw(pub(crate) u64);

impl Draw {
    /// Which kind of operation it is.
    #[tactic(auto, unfolding(crate::specs::Loads::kind_at))]
    pub(crate) fn kind(self) -> Kind
        ensures { result ≡ kind_of self.0 }
    {
        match self.0 % 8 {
            0 => Kind::MapExactly,
            1 => Kind::MapNear,
            2 => Kind::MapAnywhere,
            3 => Kind::Unmap,
            4 => Kind::Protect,
            5 => Kind::Move,
            6 => Kind::Read,
            _ => Kind::Write,
        }
    }

    /// Its thread.
    pub(crate) fn thread(self) -> u64
        ensures { result ≡ drawn_thread self.0 }
    {
        self.0 / 8 % 4
    }

    /// Its address, in bytes.
    pub(crate) fn address(self) -> u64
        ensures { result ≡ drawn_address self.0 }
    {
        FIRST_ADDRESS + PAGE_SIZE * (self.0 / 32 % PAGES)
    }

    /// Its length, in bytes.
    pub(crate) fn length(self) -> u64
        ensures { result ≡ length_of self.0 }
    {
        PAGE_SIZE * (1 + (self.0 >> 21) % 16)
    }

    /// The length to which it moves an area, in bytes.
    pub(crate) fn new_length(self) -> u64
        ensures { result ≡ new_length_of self.0 }
    {
        PAGE_SIZE * (1 + (self.0 >> 28) % 8)
    }

    /// The names of the accesses that it allows, as `flag_table` prints them.
    pub(crate) fn prot(self) -> &'static str
        ensures { result.now ≡ prot_word (prot_of_bits (prot_bits_of self.0)) }
    {
        match (self.0 >> 25) % 8 {
            0 => "PROT_NONE",
            1 => "PROT_READ",
            2 => "PROT_WRITE",
            3 => "PROT_READ|PROT_WRITE",
            4 => "PROT_EXEC",
            5 => "PROT_READ|PROT_EXEC",
            6 => "PROT_WRITE|PROT_EXEC",
            _ => "PROT_READ|PROT_WRITE|PROT_EXEC",
        }
    }
}
