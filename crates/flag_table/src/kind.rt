//! The rows of the three tables.

ghost use Rattle.std.specs.Prelude.{◌≡◌, ◌<◌, true, false, drop, length, nat_eq, MatchOption};
ghost use Rattle.std.specs.List.{starts_with};
ghost use Rattle.flag_table.specs.Reading.{is_first_word, is_word_end};

use mm_types::{
    MAP_ANONYMOUS, MAP_DENYWRITE, MAP_EXECUTABLE, MAP_FIXED, MAP_FIXED_NOREPLACE, MAP_GROWSDOWN,
    MAP_NORESERVE, MAP_POPULATE, MAP_PRIVATE, MAP_SHARED, MAP_STACK, MREMAP_DONTUNMAP,
    MREMAP_FIXED, MREMAP_MAYMOVE, PROT_EXEC, PROT_READ, PROT_WRITE,
};

/// Calls a macro on the rows of a table, each a name and its bit, in the order in which they are printed.
macro_rules! rows {
    (Prot, $with:ident, $given:tt) => {
        $with!($given, "PROT_READ" = PROT_READ, "PROT_WRITE" = PROT_WRITE, "PROT_EXEC" = PROT_EXEC)
    };
    (Map, $with:ident, $given:tt) => {
        $with!(
            $given,
            "MAP_SHARED" = MAP_SHARED,
            "MAP_PRIVATE" = MAP_PRIVATE,
            "MAP_FIXED" = MAP_FIXED,
            "MAP_ANONYMOUS" = MAP_ANONYMOUS,
            "MAP_GROWSDOWN" = MAP_GROWSDOWN,
            "MAP_DENYWRITE" = MAP_DENYWRITE,
            "MAP_EXECUTABLE" = MAP_EXECUTABLE,
            "MAP_NORESERVE" = MAP_NORESERVE,
            "MAP_POPULATE" = MAP_POPULATE,
            "MAP_STACK" = MAP_STACK,
            "MAP_FIXED_NOREPLACE" = MAP_FIXED_NOREPLACE
        )
    };
    (Mremap, $with:ident, $given:tt) => {
        $with!($given, "MREMAP_MAYMOVE" = MREMAP_MAYMOVE, "MREMAP_FIXED" = MREMAP_FIXED, "MREMAP_DONTUNMAP" = MREMAP_DONTUNMAP)
    };
}

/// The bits of the rows.
macro_rules! bits {
    ($given:tt, $($name:literal = $bit:ident),*) => {
        [$($bit),*]
    };
}

/// The bit of the row whose name is the first word of a text, and what follows the name.
macro_rules! bit_ahead {
    ($text:ident, $($name:literal = $bit:ident),*) => {{
        $(if let Some(rest) = after_name($text, $name) {
            return Some(($bit, rest));
        })*
        None
    }};
}

/// The name of the row with this bit, or the empty text.
macro_rules! name_with {
    ($wanted:ident, $($name:literal = $bit:ident),*) => {
        match $wanted {
            $($bit => $name,)*
            _ => "",
        }
    };
}

/// What follows a name that is the first word of a text: nothing, or a bar and more.
#[tactic(auto, unfolding(crate::specs::Reading::is_first_word))]
fn after_name<'a>(text: &'a str, name: &str) -> Option<&'a str>
    requires { 0 < length name.now }
    ensures { MatchOption result (is_first_word text.now name.now ≡ false)
        (λ rest. (is_first_word text.now name.now ≡ true) × (rest.now ≡ drop (length name.now) text.now)) }
{
    let rest = after_prefix(text, name)?;
    if is_word_end(rest) { Some(rest) } else { None }
}

/// Whether a word ends before these bytes: there are none, or a bar stands first.
#[tactic(auto, unfolding(crate::specs::Reading::is_word_end))]
fn is_word_end(text: &str) -> bool
    ensures { result ≡ is_word_end text.now }
{
    match text.as_bytes() {
        [] => true,
        [first, ..] => *first == b'|',
    }
}

/// What follows a name with which a text begins. The last byte of the name is compared first, which tells most names apart.
fn after_prefix<'a>(text: &'a str, name: &str) -> Option<&'a str>
    requires { 0 < length name.now }
    ensures { MatchOption result (starts_with nat_eq text.now name.now ≡ false)
        (λ rest. (starts_with nat_eq text.now name.now ≡ true) × (rest.now ≡ drop (length name.now) text.now)) }
{
    if text.len() < name.len() {
        return None;
    }
    let last = name.len() - 1;
    if text.as_bytes()[last] != name.as_bytes()[last] {
        return None;
    }
    text.strip_prefix(name)
}

/// Which table it is.
#[derive(Clone, Copy, Debug, PartialEq, Eq)]
pub enum Kind {
    Prot,
    Map,
    Mremap,
}

/// The bits of the accesses, in the order of their table.
pub const PROT_BITS: [u32; 3] = rows!(Prot, bits, ());

/// The bits of the flags of mmap(2), in the order of their table.
pub const MAP_BITS: [u32; 11] = rows!(Map, bits, ());

/// The bits of the flags of mremap(2), in the order of their table.
pub const MREMAP_BITS: [u32; 3] = rows!(Mremap, bits, ());

#[tactic(auto, unfolding(crate::specs::Tables::prot_flags, crate::specs::Tables::map_flags, crate::specs::Tables::mremap_flags, crate::specs::Reading::bit_ahead, crate::specs::Tables::name_with_bit))]
impl Kind {
    ghost use Rattle.std.specs.Prelude.{◌≡◌, MatchOption, Some, None};
    ghost use Rattle.flag_table.specs.Tables.{name_with_bit};
    ghost use Rattle.flag_table.specs.Kinds.{table_of_kind};
    ghost use Rattle.flag_table.specs.Reading.{bit_ahead, is_zero};

    /// The bit of the flag whose name is the first word of a text, and what follows the name. The text is compared in place, with no
    /// search for the end of a word.
    pub fn bit_ahead(self, text: &str) -> Option<(u32, &str)>
        ensures { MatchOption result (bit_ahead (table_of_kind self).rows text.now ≡ None)
            (λ found. bit_ahead (table_of_kind self).rows text.now ≡ Some (found.0, found.1.now)) }
    {
        match self {
            Kind::Prot => rows!(Prot, bit_ahead, text),
            Kind::Map => rows!(Map, bit_ahead, text),
            Kind::Mremap => rows!(Mremap, bit_ahead, text),
        }
    }

    /// The name of the flag with this bit, or the empty text where no flag has it.
    pub fn name_with(self, bit: u32) -> &'static str
        ensures { result.now ≡ name_with_bit (table_of_kind self).rows bit }
    {
        match self {
            Kind::Prot => rows!(Prot, name_with, bit),
            Kind::Map => rows!(Map, name_with, bit),
            Kind::Mremap => rows!(Mremap, name_with, bit),
        }
    }

    /// Whether a text is `0`, or the name that stands for no flag.
    #[tactic(auto, unfolding(crate::specs::Reading::is_zero))]
    pub fn is_zero(self, text: &str) -> bool
        ensures { result ≡ is_zero (table_of_kind self) text.now }
    {
        text == "0" || text == self.zero_name()
    }

    /// The name that stands for no flag.
    pub fn zero_name(self) -> &'static str
        ensures { result.now ≡ (table_of_kind self).zero }
    {
        match self {
            Kind::Prot => "PROT_NONE",
            Kind::Map | Kind::Mremap => "0",
        }
    }
}
