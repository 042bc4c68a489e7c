//! Laws of the definitions. Each is the contract of a function that does nothing.

ghost use Rattle.std.specs.Prelude.{◌≡◌, ◌≢◌, ◌<◌, ◌≤◌, ◌+◌, ◌-◌, ◌*◌, ◌↔◌, ℕ, min, nat_eq, List, [], ◌∷◌, ◌++◌, true, false, All, length, take, if◌then◌else◌, None, Some, option_map, IsSomeAnd};
ghost use Rattle.mm_types.specs.declared.area.Span.{Span};
ghost use Rattle.mm_types.specs.declared.area.Prot.{Prot};
ghost use Rattle.mm_types.specs.declared.area.Record.{Record};
ghost use Rattle.mm_types.specs.declared.call.Call.{Call};
ghost use Rattle.mm_types.specs.declared.call.Call.TheVariants.{Mmap};
ghost use Rattle.mm_types.specs.declared.call.Entry.{Entry};
ghost use Rattle.mm_types.specs.declared.call.MmapArgs.{MmapArgs};
ghost use Rattle.mm_types.specs.declared.call.Reply.TheVariants.{Addr};
ghost use Rattle.mm_types.specs.declared.config.Config.{Config};
ghost use Rattle.mm_types.specs.declared.config.TheConstants.{PAGE_SIZE};
ghost use Rattle.mm_types.specs.Config.{IsValidConfig};
ghost use Rattle.area_list.specs.Areas.{IsCanonical, IsSound, page_of, has_page, index_of, page_map};
ghost use Rattle.area_rules.specs.Tables.{AddressSpace, pages_of};
ghost use Rattle.area_rules.specs.Growing.{AreGrowersPrivate};
ghost use Rattle.area_rules.specs.Munmap.{range_of};
ghost use Rattle.area_rules.specs.Mprotect.{stop_of, protected_prefix, IsStop, prefix_of};
ghost use Rattle.area_rules.specs.declared.mremap_request.MremapArgs.{MremapArgs};
ghost use Rattle.area_rules.specs.Mremap.{old_range, moved_list, remaps_seal, mremap};
ghost use Rattle.area_list.specs.Areas.{overlap};
ghost use Rattle.area_list.specs.declared.attributes.AttrChange.TheVariants.{Protection};
ghost use Rattle.area_list.specs.Attributes.{changed_page};
ghost use Rattle.area_rules.specs.Laws.{moved_range, IsMove, MapsShared};
ghost use Rattle.area_rules.specs.Steps.{step, IsReady, opening, after, IsLegalJournal};

/// mprotect(2) changes the pages of its range before the first that is not mapped or may not have the protection, and
/// leaves the only canonical list with that map of pages.
pub fn protect_changes_the_prefix()
    ensures stop { (prot : Prot) (range : Span) (areas : List Record) (stop : ℕ) → range.lo ≤ range.hi
        → IsStop prot range areas stop ↔ (stop ≡ stop_of prot range areas) }
    ensures prefix_canonical { (end : ℕ) (prot : Prot) (range : Span) (areas : List Record) → range.lo ≤ range.hi
        → IsCanonical end areas → IsCanonical end (protected_prefix prot range areas) }
    ensures prefix_pages { (end : ℕ) (prot : Prot) (range : Span) (areas : List Record) (page : ℕ) → range.lo ≤ range.hi
        → IsCanonical end areas
        → page_map (protected_prefix prot range areas) page
        ≡ (if has_page (prefix_of prot range areas) page then option_map (changed_page (Protection prot)) (page_map areas page)
        else page_map areas page) }
    ensures only { (end : ℕ) (prot : Prot) (range : Span) (areas : List Record) (others : List Record)
        → range.lo ≤ range.hi → IsCanonical end areas → IsCanonical end others
        → ((page : ℕ) → page_map others page
        ≡ (if has_page (prefix_of prot range areas) page then option_map (changed_page (Protection prot)) (page_map areas page)
        else page_map areas page))
        → others ≡ protected_prefix prot range areas }
{}

/// Where mremap(2) moves a range, it leaves the moved list, unless that is too long or the call would change sealed pages. The new
/// range shares no page with the old one. The pages of the old range are unmapped. Those of the new one are mapped to the
/// attributes and the object of the area, by ascending index from that of the old range's first page on, so each page that stays
/// is mapped to what it was mapped to before. All other pages are as before.
pub fn move_carries_the_pages()
    ensures canonical { (config : Config) (areas : List Record) (area : Record) (args : MremapArgs) (start : ℕ)
        → IsMove config areas area args start → IsCanonical (page_of config.limit) (moved_list areas area args start) }
    ensures made { (config : Config) (space : AddressSpace) (area : Record) (args : MremapArgs) (start : ℕ)
        → IsMove config space.areas area args start → length (moved_list space.areas area args start) ≤ config.areas
        → remaps_seal space.areas args ≡ false → mremap config space args ≡ record {
          space = record space { areas = moved_list space.areas area args start };
          reply = Addr (PAGE_SIZE * start);
        } }
    ensures beside { (config : Config) (areas : List Record) (area : Record) (args : MremapArgs) (start : ℕ)
        → IsMove config areas area args start → overlap (old_range args) (moved_range args start) ≡ false }
    ensures left { (config : Config) (areas : List Record) (area : Record) (args : MremapArgs) (start page : ℕ)
        → IsMove config areas area args start → has_page (old_range args) page ≡ true
        → page_map (moved_list areas area args start) page ≡ None }
    ensures reached { (config : Config) (areas : List Record) (area : Record) (args : MremapArgs) (start page : ℕ)
        → IsMove config areas area args start → has_page (moved_range args start) page ≡ true
        → page_map (moved_list areas area args start) page ≡ Some (record {
          attr = area.attr;
          object = area.object;
          index = if nat_eq area.object 0 then 0 else index_of area (page_of args.old) + (page - start);
        }) }
    ensures carried { (config : Config) (areas : List Record) (area : Record) (args : MremapArgs) (start count : ℕ)
        → IsMove config areas area args start → count < min (pages_of args.old_len) (pages_of args.new_len)
        → page_map (moved_list areas area args start) (start + count) ≡ page_map areas (page_of args.old + count) }
    ensures others { (config : Config) (areas : List Record) (area : Record) (args : MremapArgs) (start page : ℕ)
        → IsMove config areas area args start → has_page (old_range args) page ≡ false
        → has_page (moved_range args start) page ≡ false
        → page_map (moved_list areas area args start) page ≡ page_map areas page }
{}

/// A step keeps all that it is taken over but the room for one more object: the list sound, the objects counted, of which it numbers
/// at most one, what may grow private anonymous memory, and the break at or below the limit.
pub fn step_keeps_soundness()
    ensures sound { (config : Config) (space : AddressSpace) (call : Call) → IsReady config space
        → IsSound config (step config space call).space.areas }
    ensures counted { (config : Config) (space : AddressSpace) (call : Call) → IsReady config space
        → length config.files ≤ space.objects
        → All (λ area. area.object ≤ (step config space call).space.objects) (step config space call).space.areas }
    ensures objects { (config : Config) (space : AddressSpace) (call : Call)
        → (space.objects ≤ (step config space call).space.objects)
        × ((step config space call).space.objects ≤ space.objects + 1) }
    ensures private { (config : Config) (space : AddressSpace) (call : Call) → IsReady config space
        → AreGrowersPrivate (step config space call).space.areas }
    ensures bounded { (config : Config) (space : AddressSpace) (call : Call) → IsReady config space
        → (step config space call).space.brk ≤ config.limit }
{}

/// A mapping of shared anonymous memory that succeeds maps a new object from its first page on. The object's number is
/// the counter after the call, and no area before the call has it.
pub fn new_object_is_fresh()
    ensures counter { (config : Config) (space : AddressSpace) (args : MmapArgs) (address : ℕ)
        → MapsShared config space args address → (step config space (Mmap args)).space.objects ≡ space.objects + 1 }
    ensures fresh { (config : Config) (space : AddressSpace) (args : MmapArgs) (address : ℕ) → IsReady config space
        → MapsShared config space args address
        → All (λ area. area.object ≢ (step config space (Mmap args)).space.objects) space.areas }
    ensures pages { (config : Config) (space : AddressSpace) (args : MmapArgs) (address page : ℕ) → IsReady config space
        → MapsShared config space args address → has_page (range_of address args.len) page ≡ true
        → IsSomeAnd (page_map (step config space (Mmap args)).space.areas page)
        (λ mapped. (mapped.object ≡ (step config space (Mmap args)).space.objects)
        × (mapped.index ≡ page - page_of address)) }
{}

/// After a legal journal, and after each prefix of it, the list is sound and a step may be taken; the files stay counted.
/// That the journal is legal is not needed. So many calls leave the counter of objects, of 32 bits, room for one more.
pub fn legal_journal_is_sound()
    ensures ready { (config : Config) (journal : List Entry) → IsValidConfig config
        → length journal ≤ 3000000000 → IsReady config (after config journal) }
    ensures prefixes { (config : Config) (journal : List Entry) (count : ℕ) → IsValidConfig config
        → length journal ≤ 3000000000 → IsReady config (after config (take count journal)) }
    ensures files { (config : Config) (journal : List Entry)
        → length config.files ≤ (after config journal).objects }
{}

/// The address space after a journal, and whether it is legal, entry by entry.
pub fn journal_laws()
    ensures none { (config : Config) → after config [] ≡ opening config }
    ensures more { (config : Config) (journal : List Entry) (entry : Entry)
        → after config (journal ++ entry ∷ []) ≡ (step config (after config journal) entry.call).space }
    ensures legal_none { (config : Config) → IsLegalJournal config [] }
    ensures legal_more { (config : Config) (journal : List Entry) (entry : Entry) → IsLegalJournal config (journal ++ entry ∷ [])
        ↔ (IsLegalJournal config journal × (entry.reply ≡ (step config (after config journal) entry.call).reply)) }
    ensures legal_prefix { (config : Config) (journal : List Entry) (count : ℕ) → IsLegalJournal config journal
        → IsLegalJournal config (take count journal) }
{}
