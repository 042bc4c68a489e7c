//! Laws over the constants: empty functions whose contracts are proved.

ghost use Rattle.std.specs.Prelude.{◌≡◌, ◌-◌, ◌^◌};
ghost use Rattle.mm_types.specs.declared.config.TheConstants.{PAGE_SIZE, ADDRESS_LIMIT, WIDE_LIMIT, ADDRESSES_END, MOST_AREA_END, MOST_OBJECT_PAGES, DEFAULT_MIN, DEFAULT_TOP, MOST_AREAS, MOST_FILES};
ghost use Rattle.mm_types.specs.declared.flags.TheConstants.{PROT_READ, PROT_WRITE, PROT_EXEC, MAP_SHARED, MAP_PRIVATE, MAP_FIXED, MAP_ANONYMOUS};
ghost use Rattle.mm_types.specs.declared.flags.TheConstants.{MAP_GROWSDOWN, MAP_DENYWRITE, MAP_EXECUTABLE, MAP_NORESERVE, MAP_POPULATE, MAP_STACK};
ghost use Rattle.mm_types.specs.declared.flags.TheConstants.{MAP_FIXED_NOREPLACE, MREMAP_MAYMOVE, MREMAP_FIXED, MREMAP_DONTUNMAP};

/// The numbers of the profile. User memory ends one page below 2^47, or one below 2^56 where addresses are wide, and the lowest
/// address that may be mapped is that of page 16, where a trace names no other.
pub fn profile_numbers()
    ensures page { PAGE_SIZE ≡ 4096 }
    ensures limit { ADDRESS_LIMIT ≡ 2 ^ 47 - 4096 }
    ensures wide_limit { WIDE_LIMIT ≡ 2 ^ 56 - 4096 }
    ensures addresses { ADDRESSES_END ≡ 2 ^ 64 }
    ensures area_end { MOST_AREA_END ≡ 2 ^ 45 }
    ensures object_pages { MOST_OBJECT_PAGES ≡ 2 ^ 51 - 1 }
    ensures min { DEFAULT_MIN ≡ 65536 }
    ensures top { DEFAULT_TOP ≡ 0x7fff_f7ff_f000 }
    ensures areas { MOST_AREAS ≡ 65530 }
    ensures files { MOST_FILES ≡ 1024 }
{}

/// The flags have the bits that Linux gives them.
pub fn flag_bits()
    ensures read { PROT_READ ≡ 0x1 }
    ensures write { PROT_WRITE ≡ 0x2 }
    ensures exec { PROT_EXEC ≡ 0x4 }
    ensures shared { MAP_SHARED ≡ 0x1 }
    ensures private { MAP_PRIVATE ≡ 0x2 }
    ensures fixed { MAP_FIXED ≡ 0x10 }
    ensures anonymous { MAP_ANONYMOUS ≡ 0x20 }
    ensures growsdown { MAP_GROWSDOWN ≡ 0x100 }
    ensures denywrite { MAP_DENYWRITE ≡ 0x800 }
    ensures executable { MAP_EXECUTABLE ≡ 0x1000 }
    ensures noreserve { MAP_NORESERVE ≡ 0x4000 }
    ensures populate { MAP_POPULATE ≡ 0x8000 }
    ensures stack { MAP_STACK ≡ 0x2_0000 }
    ensures noreplace { MAP_FIXED_NOREPLACE ≡ 0x10_0000 }
    ensures may_move { MREMAP_MAYMOVE ≡ 1 }
    ensures moved { MREMAP_FIXED ≡ 2 }
    ensures dontunmap { MREMAP_DONTUNMAP ≡ 4 }
{}
