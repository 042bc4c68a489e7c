//! mmap(2): the tests of its request in their order, and the area that it maps.
ghost use Rattle.std.specs.Prelude.{◌≡◌, ◌<◌, ◌≤◌, ◌+◌, ◌-◌, ◌^◌, IfSome, length, List, nat_lt, not, true};
ghost use Rattle.std.specs.Prelude.{option_copied, ◌&&◌, ◌*◌};
ghost use Rattle.mm_types.specs.Config.{IsValidConfig};
ghost use Rattle.mm_types.specs.declared.area.Record.{Record};
ghost use Rattle.mm_types.specs.declared.config.TheConstants.{MOST_FILES, PAGE_SIZE};
ghost use Rattle.mm_types.specs.Rows.{first_row};
ghost use Rattle.area_rules.specs.Tables.{is_aligned, pages_of};
ghost use Rattle.area_rules.specs.Mmap.{is_anonymous, is_shared, grows_down, is_noreplace, is_fixed, file_of, file_place};
ghost use Rattle.area_rules.specs.Mmap.{object_of, lacks_file, overflows_offset, has_no_sharing, cannot_grow, denies};
ghost use Rattle.area_rules.specs.Mmap.{is_denied, is_taken, most_of, most_allowed, object_mapped};
ghost use Rattle.area_rules.specs.Mmap.{objects_after, new_area, mmap_rows};

use crate::tables::{end_of, is_aligned, pages_of};
use area_list::page_of;
use mm_types::{
    Attr, Config, Errno, FileRow, MAP_ANONYMOUS, MAP_FIXED, MAP_FIXED_NOREPLACE, MAP_GROWSDOWN,
    MAP_PRIVATE, MAP_SHARED, MmapArgs, Prot, Record, Span, has_flag,
};

/// The greatest byte that a mapping of a file may end at: 2^63 - 1, the greatest offset of a file.
const LAST_OFFSET: u128 = 0x7fff_ffff_ffff_ffff;

/// Every access.
pub(crate) const EVERY_ACCESS: Prot = Prot {
    read: true,
    write: true,
    exec: true,
};

/// Whether no file is mapped.
fn is_anonymous(args: &MmapArgs) -> bool
    ensures { result ≡ is_anonymous args.now }
{
    has_flag(args.flags, MAP_ANONYMOUS)
}

/// Whether the mapping is shared.
fn is_shared(args: &MmapArgs) -> bool
    ensures { result ≡ is_shared args.now }
{
    has_flag(args.flags, MAP_SHARED)
}

/// Whether the area is to grow downwards.
fn grows_down(args: &MmapArgs) -> bool
    ensures { result ≡ grows_down args.now }
{
    has_flag(args.flags, MAP_GROWSDOWN)
}

/// Whether the call keeps what is mapped: MAP_FIXED_NOREPLACE.
pub fn is_noreplace(args: &MmapArgs) -> bool
    ensures { result ≡ is_noreplace args.now }
{
    has_flag(args.flags, MAP_FIXED_NOREPLACE)
}

/// Whether the place is the address itself: MAP_FIXED or MAP_FIXED_NOREPLACE.
#[tactic(auto, unfolding(crate::specs::Mmap::is_fixed))]
pub fn is_fixed(args: &MmapArgs) -> bool
    ensures { result ≡ is_fixed args.now }
{
    has_flag(args.flags, MAP_FIXED) || is_noreplace(args)
}

/// The file of a descriptor.
fn file_of(files: &[FileRow], fd: i32) -> Option<&FileRow>
    ensures { option_copied result ≡ file_of files.now fd }
{
    files.iter().find(|file| file.fd == fd)
}

/// Whether the descriptor is no file's, and one is wanted.
#[tactic(auto, unfolding(crate::specs::Mmap::lacks_file))]
fn lacks_file(config: &Config, args: &MmapArgs) -> bool
    ensures { result ≡ lacks_file config.now args.now }
{
    !is_anonymous(args) && file_of(config.files.items(), args.fd).is_none()
}

/// Whether the range would end past 2^63 - 1 of the file.
#[tactic(auto, unfolding(crate::specs::Mmap::overflows_offset))]
fn overflows_offset(args: &MmapArgs) -> bool
    ensures { result ≡ overflows_offset args.now }
{
    !is_anonymous(args) && LAST_OFFSET < end_of(args.offset, args.len)
}

/// Whether both or none of the two ways of sharing are named.
#[tactic(auto, unfolding(crate::specs::Mmap::has_no_sharing))]
fn has_no_sharing(args: &MmapArgs) -> bool
    ensures { result ≡ has_no_sharing args.now }
{
    is_shared(args) == has_flag(args.flags, MAP_PRIVATE)
}

/// Whether what is to grow would not be private anonymous memory.
#[tactic(auto, unfolding(crate::specs::Mmap::cannot_grow))]
fn cannot_grow(args: &MmapArgs) -> bool
    ensures { result ≡ cannot_grow args.now }
{
    grows_down(args) && (!is_anonymous(args) || is_shared(args))
}

/// Whether the file is not open for what the mapping wants of it.
fn denies(args: &MmapArgs, file: &FileRow) -> bool
    ensures { result ≡ denies args.now file.now }
{
    !file.read || (is_shared(args) && args.prot.write && !file.write)
}

/// Whether a file is wanted that is not open for it.
#[tactic(auto, unfolding(crate::specs::Mmap::is_denied))]
fn is_denied(config: &Config, args: &MmapArgs) -> bool
    ensures { result ≡ is_denied config.now args.now }
{
    if is_anonymous(args) {
        return false;
    }
    match file_of(config.files.items(), args.fd) {
        Some(file) => denies(args, file),
        None => false,
    }
}

/// Whether the fixed place is not aligned.
fn is_unaligned(args: &MmapArgs) -> bool
    ensures { result ≡ (is_fixed args.now && not (is_aligned args.now.addr)) }
{
    is_fixed(args) && !is_aligned(args.addr)
}

/// Whether the fixed place is below the lowest address that may be mapped.
fn is_too_low(config: &Config, args: &MmapArgs) -> bool
    ensures { result ≡ (is_fixed args.now && nat_lt args.now.addr config.now.min) }
{
    is_fixed(args) && args.addr < config.min
}

/// Whether the fixed place ends past the limit.
fn is_past_limit(config: &Config, args: &MmapArgs) -> bool
    ensures { result ≡ (is_fixed args.now
        && nat_lt config.now.limit (args.now.addr + PAGE_SIZE * pages_of args.now.len)) }
{
    is_fixed(args) && u128::from(config.limit) < end_of(args.addr, args.len)
}

/// The first test of mmap(2)'s request that refuses it. The last test asks whether the call keeps what is mapped and a page
/// of its range is; whoever has the list of areas answers that as `taken`, which is true only of a call that keeps what is
/// mapped.
#[tactic(auto, unfolding(crate::specs::Mmap::mmap_rows))]
pub fn mmap_refusal(config: &Config, args: &MmapArgs, taken: bool) -> Option<Errno>
    requires { taken ≡ true → is_noreplace args.now ≡ true }
    ensures { (areas : List Record) → taken ≡ is_taken areas args.now
        → result ≡ first_row (mmap_rows config.now areas args.now) }
{
    if !is_aligned(args.offset) {
        return Some(Errno::Einval);
    }
    if lacks_file(config, args) {
        return Some(Errno::Ebadf);
    }
    if args.len == 0 {
        return Some(Errno::Einval);
    }
    if page_of(config.limit) < pages_of(args.len) {
        return Some(Errno::Enomem);
    }
    if overflows_offset(args) {
        return Some(Errno::Eoverflow);
    }
    if has_no_sharing(args) {
        return Some(Errno::Einval);
    }
    if cannot_grow(args) {
        return Some(Errno::Einval);
    }
    if is_denied(config, args) {
        return Some(Errno::Eacces);
    }
    if is_unaligned(args) {
        return Some(Errno::Einval);
    }
    if is_too_low(config, args) {
        return Some(Errno::Eperm);
    }
    if is_past_limit(config, args) {
        return Some(Errno::Enomem);
    }
    taken.then_some(Errno::Eexist)
}

/// The place of a descriptor among the files.
#[tactic(auto, unfolding(crate::specs::Mmap::file_place))]
fn file_place(files: &[FileRow], fd: i32) -> Option<usize>
    ensures value { result ≡ file_place files.now fd }
    ensures within { IfSome result (λ place. place < length files.now) }
{
    files.iter().position(|file| file.fd == fd)
}

/// The object number of a descriptor: its file's place, counted from 1.
#[tactic(auto, unfolding(crate::specs::Mmap::object_of))]
fn object_of(files: &[FileRow], fd: i32) -> Option<u32>
    requires { length files.now ≤ MOST_FILES }
    ensures { result ≡ object_of files.now fd }
{
    let place = file_place(files, fd)?;
    Some(place as u32 + 1)
}

/// What may be allowed later on a file: every access, but no writing through a shared mapping of a file that is not
/// open for it.
fn most_of(shared: bool, file: &FileRow) -> Prot
    ensures { result ≡ most_of shared file.now }
{
    Prot {
        read: true,
        write: !shared || file.write,
        exec: true,
    }
}

/// The most that mprotect(2) may allow later.
#[tactic(auto, unfolding(crate::specs::Mmap::most_allowed))]
fn most_allowed(config: &Config, args: &MmapArgs) -> Prot
    ensures { result ≡ most_allowed config.now args.now }
{
    if is_anonymous(args) {
        return EVERY_ACCESS;
    }
    match file_of(config.files.items(), args.fd) {
        Some(file) => most_of(is_shared(args), file),
        None => EVERY_ACCESS,
    }
}

/// The object that is mapped: the next shared anonymous one, none, or a file.
#[tactic(auto, using(area_list::proofs::Finding::map_or_same), unfolding(crate::specs::Mmap::object_mapped))]
fn object_mapped(config: &Config, objects: u32, args: &MmapArgs) -> u32
    requires valid { IsValidConfig config.now }
    requires room { objects < 2 ^ 32 - 1 }
    ensures { result ≡ object_mapped config.now objects args.now }
{
    if is_anonymous(args) {
        return if is_shared(args) { objects + 1 } else { 0 };
    }
    match object_of(config.files.items(), args.fd) {
        Some(object) => object,
        None => 0,
    }
}

/// How many objects are numbered after a call of mmap(2) that succeeds, where so many were before it.
#[tactic(auto, unfolding(crate::specs::Mmap::objects_after))]
pub fn objects_numbered(objects: u32, args: &MmapArgs) -> u32
    requires { objects < 2 ^ 32 - 1 }
    ensures { result ≡ objects_after objects args.now }
{
    if is_anonymous(args) && is_shared(args) {
        objects + 1
    } else {
        objects
    }
}

/// The new area of a call of mmap(2) that begins at this page. `objects` is how many objects were numbered before it.
#[tactic(auto, unfolding(crate::specs::Mmap::new_area))]
pub fn new_area(config: &Config, objects: u32, args: &MmapArgs, start: u64) -> Record
    requires valid { IsValidConfig config.now }
    requires room { objects < 2 ^ 32 - 1 }
    requires low { start < 2 ^ 52 }
    ensures { result ≡ new_area config.now objects args.now start }
{
    Record {
        span: Span {
            lo: start,
            hi: start + pages_of(args.len),
        },
        attr: Attr {
            prot: args.prot,
            most: most_allowed(config, args),
            shared: is_shared(args),
            grows: grows_down(args),
            sealed: false,
            heap: false,
        },
        object: object_mapped(config, objects, args),
        offset: if is_anonymous(args) {
            0
        } else {
            page_of(args.offset)
        },
    }
}
