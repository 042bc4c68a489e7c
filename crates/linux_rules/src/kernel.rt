use mm_types::Config;

/// What the versions do differently. Each switch is named for what a version does that has it; specs/Versions.antt says which have it.
#[derive(Clone, Copy, Debug, PartialEq, Eq)]
pub struct Rules {
    /// mm/mprotect.c after 6.1: mprotect to unwritable memory uncharges private anonymous memory that was never written.
    pub unaccounts: bool,
    /// arch/x86/kernel/sys_x86_64.c after 6.1: searches end at the lowest address for hints.
    pub search_has_min: bool,
    /// fs/proc/task_mmu.c since 6.6: `[heap]` names what overlaps the heap, and no longer what only touches it.
    pub heap_is_strict: bool,
    /// mm/mmap.c and include/linux/mman.h since 6.7: anonymous memory of a multiple of 2 MiB is aligned, and `MAP_STACK` is a flag of the
    /// area.
    pub aligns_anonymous: bool,
    /// mm/mmap.c since 6.12: mmap removes what it replaces only once memory is charged.
    pub replaces_last: bool,
    /// mm/vma.c since 6.16: a written area joins one that was never written, from either side.
    pub merges_unfaulted: bool,
    /// mm/mremap.c since 6.17: mremap tests in a new order, and moves several areas.
    pub moves_several: bool,
    /// mm/mremap.c and mm/vma.c, 6.1 from 6.1.190, 6.12 from 6.12.100, and since 7.0: a copy of `MREMAP_DONTUNMAP` stays apart from its
    /// source.
    pub keeps_copies_apart: bool,
    /// mm/mremap.c, 6.15 and 6.16: what `MREMAP_DONTUNMAP` leaves is no longer accounted.
    pub loses_accounts: bool,
    /// mm/mseal.c, 6.17 up to 6.18.15: mseal goes on from a stale address.
    pub has_stale_seal: bool,
    /// mm/mseal.c since 6.10: there is mseal.
    pub has_mseal: bool,
    /// mm/mremap.c, after 6.18 (7.2 has it): every mremap is tested against the greatest number of areas, and one that moves needs room
    /// for fewer.
    pub limits_each_mremap: bool,
    /// mm/mmap.c, after 6.1: a copy of `MREMAP_DONTUNMAP` that stays apart from its source may join its other neighbour.
    pub joins_beside_source: bool,
    /// mm/mremap.c, 6.16: mremap to a place tests the limit before it looks for the area.
    pub limits_before_lookup: bool,
    /// mm/vma.c, 6.16 and 6.17: what mremap moves joins an area that was never written, and then counts as never written.
    pub loses_written: bool,
}

/// What the kernel has at the address of `[vsyscall]`.
#[derive(Clone, Copy, Debug, PartialEq, Eq)]
pub enum Vsyscall {
    /// `vsyscall=none`: nothing.
    Absent,
    /// `vsyscall=xonly`: a page that may be executed.
    Xonly,
    /// `vsyscall=emulate`: a page that may be read and executed.
    Emulate,
}

/// What a machine and its settings decide.
#[derive(Clone, Copy, Debug, PartialEq, Eq)]
pub struct Machine {
    /// `CONFIG_LSM_MMAP_MIN_ADDR`, as a page.
    pub lowest_built: u64,
    /// Pages of memory and of swap space, for `vm.overcommit_memory` 0.
    pub memory: u64,
    /// `RLIMIT_STACK`, in bytes.
    pub stack: u64,
    /// The processor has protection keys.
    pub has_keys: bool,
    /// `transparent_hugepage/enabled` is `always`.
    pub huge_always: bool,
    /// The files' system aligns mappings to 2 MiB.
    pub files_are_huge: bool,
    /// The page at the address of `[vsyscall]`.
    pub vsyscall: Vsyscall,
}

/// A kernel: its rules, its machine, and what a trace sets.
#[derive(Debug, Drop)]
pub struct Kernel {
    pub rules: Rules,
    pub machine: Machine,
    pub config: Config,
}
