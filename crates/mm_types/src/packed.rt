//! Areas as rows of four words, for a table whose words are written and read one by one.

ghost use Rattle.std.specs.Prelude.{◌≡◌, ◌≢◌, ◌<◌, ◌≤◌, ◌+◌, ◌^◌, ℕ, List, [], ◌∷◌, All, length, Some, None};
ghost use Rattle.mm_types.specs.declared.area.Record.{Record};
ghost use Rattle.mm_types.specs.Packed.{packed, unpacked, prot_bits, attr_bits, has_bit, prot_at, attr_of, is_attached};
ghost use Rattle.mm_types.specs.Records.{IsValid};

use crate::area::{Attr, Prot, Record, Span};
use crate::validity::is_valid;

/// The bit of the first word that is set in the row of an area, and not in a detached row.
const ATTACHED: u64 = 1 << 15;

/// The bits of the first word that are never set, 10 to 14.
const UNUSED: u64 = 0b1_1111 << 10;

/// The bit of the first word from which on the first page stands.
const LO_PLACE: u32 = 16;

/// The words of an area, which are never all 0.
#[tactic(auto, unfolding(crate::specs::Packed::packed))]
pub fn pack(area: &Record) -> [u64; 4]
    requires { IsValid area.now }
    ensures { result ≡ packed area.now }
{
    let first = attr_bits(&area.attr) | ATTACHED | (area.span.lo << LO_PLACE);
    [first, area.span.hi, u64::from(area.object), area.offset]
}

/// The valid area that has these words: `None` for a detached row, whose words are 0, and for words of no valid area.
#[tactic(auto, unfolding(crate::specs::Packed::unpacked))]
pub fn unpack(words: &[u64; 4]) -> Option<Record>
    ensures { result ≡ unpacked words.now }
{
    let [first, hi, object, offset] = *words;
    let object = u32::try_from(object).ok()?;
    let area = Record {
        span: Span {
            lo: first >> LO_PLACE,
            hi,
        },
        attr: attr_of(first),
        object,
        offset,
    };
    (is_attached(first) && is_valid(&area)).then_some(area)
}

/// The bits of a protection.
#[tactic(auto, unfolding(crate::specs::Packed::prot_bits))]
fn prot_bits(prot: Prot) -> u64
    ensures value { result ≡ prot_bits prot }
    ensures below { result < 2 ^ 3 }
{
    u64::from(prot.read) | (u64::from(prot.write) << 1) | (u64::from(prot.exec) << 2)
}

/// The bits of attributes.
#[tactic(auto, unfolding(crate::specs::Packed::attr_bits))]
fn attr_bits(attr: &Attr) -> u64
    ensures value { result ≡ attr_bits attr.now }
    ensures below { result < 2 ^ 10 }
{
    prot_bits(attr.prot)
        | (prot_bits(attr.most) << 3)
        | (u64::from(attr.shared) << 6)
        | (u64::from(attr.grows) << 7)
        | (u64::from(attr.sealed) << 8)
        | (u64::from(attr.heap) << 9)
}

/// Whether a bit of a word is set.
fn has_bit(word: u64, place: u32) -> bool
    requires { place < 64 }
    ensures { result ≡ has_bit word place }
{
    (word >> place) & 1 == 1
}

/// The protection whose bits stand in a word from a place on.
#[tactic(auto, unfolding(crate::specs::Packed::prot_at))]
fn prot_at(word: u64, place: u32) -> Prot
    requires { place + 2 < 64 }
    ensures { result ≡ prot_at word place }
{
    Prot {
        read: has_bit(word, place),
        write: has_bit(word, place + 1),
        exec: has_bit(word, place + 2),
    }
}

/// The attributes whose bits stand in a word.
#[tactic(auto, unfolding(crate::specs::Packed::attr_of))]
fn attr_of(word: u64) -> Attr
    ensures { result ≡ attr_of word }
{
    Attr {
        prot: prot_at(word, 0),
        most: prot_at(word, 3),
        shared: has_bit(word, 6),
        grows: has_bit(word, 7),
        sealed: has_bit(word, 8),
        heap: has_bit(word, 9),
    }
}

/// Whether the first word of a row is that of an area.
#[tactic(auto, unfolding(crate::specs::Packed::is_attached))]
fn is_attached(word: u64) -> bool
    ensures { result ≡ is_attached word }
{
    word & (ATTACHED | UNUSED) == ATTACHED
}

/// Packing and unpacking undo each other on valid areas whose object's number has 32 bits. A detached row is no area. The
/// words of a valid area are four numbers of 64 bits.
pub fn packing_is_undone()
    ensures read_back { (area : Record) → IsValid area → area.object < 2 ^ 32 → unpacked (packed area) ≡ Some area }
    ensures written_back { (words : List ℕ) (area : Record) → unpacked words ≡ Some area
        → (packed area ≡ words) × IsValid area × (area.object < 2 ^ 32) }
    ensures refused { (words : List ℕ) (area : Record) → unpacked words ≡ None → IsValid area → area.object < 2 ^ 32
        → packed area ≢ words }
    ensures detached { unpacked (0 ∷ 0 ∷ 0 ∷ 0 ∷ []) ≡ None }
    ensures four_words { (area : Record) → length (packed area) ≡ 4 }
    ensures words_fit { (area : Record) → IsValid area → area.object < 2 ^ 32 → All (λ word. word < 2 ^ 64) (packed area) }
{}
