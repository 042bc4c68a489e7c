//! Laws over the definitions: empty functions whose contracts are proved.

ghost use Rattle.std.specs.Prelude.{◌≡◌, ◌≤◌, ◌^◌, ℕ, length, codes, Ok};
ghost use Rattle.mm_types.specs.declared.flags.TheConstants.{MREMAP_MAYMOVE};
ghost use Rattle.flag_table.specs.Tables.{map_flags, mremap_flags};
ghost use Rattle.flag_table.specs.Printing.{printed};
ghost use Rattle.trace_reader.specs.Grammar.{trace_of};
ghost use Rattle.gen_load.specs.declared.draw.TheConstants.{FIRST_ADDRESS, DRAWS};
ghost use Rattle.gen_load.specs.declared.loading.TheConstants.{MOST_OPERATIONS};
ghost use Rattle.gen_load.specs.Loads.{exactly, anywhere, load_trace, load_text};

/// The text of a load is a trace: its reader gives the lines of the load, one for each operation.
pub fn loads_are_traces()
    ensures read { (count seed : ℕ) → count ≤ MOST_OPERATIONS → trace_of (load_text count seed) ≡ Ok (load_trace count seed) }
    ensures count { (count seed : ℕ) → length (load_trace count seed).lines ≡ count }
{}

/// The flags of a load, in the words of their tables.
#[tactic(auto, unfolding(flag_table::specs::Tables::map_flags, flag_table::specs::Tables::mremap_flags, flag_table::specs::Printing::printed))]
pub fn flags_are_printed()
    ensures exactly { printed map_flags exactly ≡ codes "MAP_PRIVATE|MAP_FIXED|MAP_ANONYMOUS" }
    ensures anywhere { printed map_flags anywhere ≡ codes "MAP_PRIVATE|MAP_ANONYMOUS" }
    ensures may_move { printed mremap_flags MREMAP_MAYMOVE ≡ codes "MREMAP_MAYMOVE" }
{}

/// Which draws there are, the lowest address, and how large a load may be.
pub fn generator_numbers()
    ensures draws { DRAWS ≡ 2 ^ 31 }
    ensures first { FIRST_ADDRESS ≡ 0x10000000 }
    ensures most { MOST_OPERATIONS ≡ 400000 }
{}
