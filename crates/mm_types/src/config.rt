ghost use Rattle.std.specs.Prelude.{◌≡◌, ◌≢◌, ◌↔◌, ◌≤◌, IsTrue, IfOk, AllPairs, Any};
ghost use Rattle.mm_types.specs.Config.{IsBound, IsValidConfig, default_config, rows_for, slots_for};

use crate::files::{FileRow, Files};
use crate::memory::NoMemory;
use std::alloc::Global;

/// The bytes of a page.
pub const PAGE_SIZE: u64 = 4096;

/// The end of all addresses, 2^64.
pub const ADDRESSES_END: u128 = 1 << 64;

/// The most pages that an object may have, 2^51 - 1.
pub const MOST_OBJECT_PAGES: u64 = (1 << 51) - 1; // offsets are below 2^63 bytes

/// The address at which user memory ends, in bytes, where addresses are not wide: one page below 2^47.
pub const ADDRESS_LIMIT: u64 = 0x7fff_ffff_f000;

/// The address at which user memory ends where addresses of five levels of page tables are allowed, in bytes: one page below
/// 2^56.
pub const WIDE_LIMIT: u64 = 0xff_ffff_ffff_f000;

/// The page at or below which each area ends, 2^45.
pub const MOST_AREA_END: u64 = 1 << 45;

/// The lowest address that may be mapped, where a trace names no other: the kernel's default `mmap_min_addr`.
pub const DEFAULT_MIN: u64 = 0x1_0000;

/// The address below which room is looked for first, where a trace names no other, in bytes.
pub const DEFAULT_TOP: u64 = 0x7fff_f7ff_f000;

/// The most areas that an address space may be allowed, the kernel's default `max_map_count`.
pub const MOST_AREAS: u32 = 65530;

/// The most files of a trace.
pub const MOST_FILES: usize = 1024;

/// What an address space is opened with. `min`, `top`, `limit` and `heap` are addresses in bytes.
#[derive(Debug, Drop)]
pub struct Config {
    /// The lowest address that a call may map: `mmap_min_addr`.
    pub min: u64,
    /// Below this address the kernel looks for room first: `mmap_base`.
    pub top: u64,
    /// The end of user memory: `ADDRESS_LIMIT` or `WIDE_LIMIT`.
    pub limit: u64,
    /// The most areas: `max_map_count`.
    pub areas: u32,
    /// The files that may be mapped.
    pub files: Files,
    /// The address at which the heap of brk(2) begins, or 0 where there is none.
    pub heap: u64,
}

impl Config {
    /// The configuration with these files that has the defaults in all else.
    #[tactic(auto, unfolding(crate::specs::Config::default_config))]
    pub fn with_files(files: Files) -> Config
        ensures { result ≡ default_config files }
    {
        Config {
            min: DEFAULT_MIN,
            top: DEFAULT_TOP,
            limit: ADDRESS_LIMIT,
            areas: MOST_AREAS,
            files,
            heap: 0,
        }
    }

    /// A copy, with its files.
    pub fn copy(&self, alloc: Global) -> Result<Config, NoMemory>
        ensures { IfOk result (λ copy. copy ≡ self.now) }
    {
        Ok(Config {
            files: self.files.copy(alloc)?,
            ..*self
        })
    }

    /// Whether an address space may be opened with it.
    pub fn valid(&self) -> bool
        ensures { IsTrue result ↔ IsValidConfig self.now }
    {
        let files = self.files.items();
        is_bound(self.min)
            && is_bound(self.top)
            && (self.heap == 0 || is_bound(self.heap))
            && (self.limit == ADDRESS_LIMIT || self.limit == WIDE_LIMIT)
            && 0 < self.areas
            && self.areas <= MOST_AREAS
            && files.len() <= MOST_FILES
            && has_distinct_fds(files)
    }
}

/// Whether an address may bound the memory of a configuration: a whole number of pages, from the second page up to
/// `ADDRESS_LIMIT`.
fn is_bound(address: u64) -> bool
    ensures { IsTrue result ↔ IsBound address }
{
    address % PAGE_SIZE == 0 && PAGE_SIZE <= address && address <= ADDRESS_LIMIT
}

/// How many rows the nodes of the trees of at most so many areas take.
pub fn rows_for(areas: u32) -> u32
    requires { areas ≤ MOST_AREAS }
    ensures { result ≡ rows_for areas }
{
    // 4 areas / 9 + 9 for the present tree, as many for the next, 40 for the store that runs, and some more: area_tree counts them
    areas + 128
}

/// How many slots show at most so many areas while a call changes them.
pub fn slots_for(areas: u32) -> u32
    requires { areas ≤ MOST_AREAS }
    ensures { result ≡ slots_for areas }
{
    // those of the list, and as many as a call can add before the slots that it takes away are free again
    2 * areas + 2
}

fn has_distinct_fds(files: &[FileRow]) -> bool
    ensures { IsTrue result ↔ AllPairs (λ a b. a.fd ≢ b.fd) files.now }
{
    for (place, file) in files.iter().enumerate() {
        if shares_fd(&files[..place], file) {
            return false;
        }
    }
    true
}

fn shares_fd(files: &[FileRow], file: &FileRow) -> bool
    ensures { IsTrue result ↔ Any (λ other. other.fd ≡ file.now.fd) files.now }
{
    files.iter().any(|other| other.fd == file.fd)
}
