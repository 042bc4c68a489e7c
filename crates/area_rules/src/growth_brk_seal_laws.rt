//! Laws of growth, of brk(2) and of mseal(2). Each is the contract of a function that does nothing.
ghost use Rattle.std.specs.Prelude.{◌≡◌, ◌≢◌, ◌<◌, ◌+◌, ◌⊎◌, ◌↔◌, ℕ, List, true, false, if◌then◌else◌, None, Some, option_map, IsSomeAnd};
ghost use Rattle.mm_types.specs.declared.area.Access.{Access};
ghost use Rattle.mm_types.specs.declared.area.Page.{Page};
ghost use Rattle.mm_types.specs.declared.area.Record.{Record};
ghost use Rattle.mm_types.specs.declared.area.Span.{Span};
ghost use Rattle.mm_types.specs.declared.call.Call.{Call};
ghost use Rattle.mm_types.specs.declared.call.Call.TheVariants.{Touch, Brk, Mseal};
ghost use Rattle.mm_types.specs.declared.call.Errno.TheVariants.{Efault};
ghost use Rattle.mm_types.specs.declared.call.Reply.TheVariants.{Refused, Zero, Addr};
ghost use Rattle.mm_types.specs.declared.config.Config.{Config};
ghost use Rattle.area_list.specs.declared.attributes.AttrChange.TheVariants.{Seal};
ghost use Rattle.area_list.specs.Attributes.{changed_page};
ghost use Rattle.area_list.specs.Areas.{MappedPage, IsCanonical, page_of, has_page, page_map};
ghost use Rattle.area_rules.specs.Accesses.{permits};
ghost use Rattle.area_rules.specs.Brk.{pages_between};
ghost use Rattle.area_rules.specs.Growing.{grows};
ghost use Rattle.area_rules.specs.Laws.{IsGrownReply, heap_page, after_brk, HasPageWith, IsSealed};
ghost use Rattle.area_rules.specs.Mseal.{has_hole};
ghost use Rattle.area_rules.specs.Munmap.{range_of};
ghost use Rattle.area_rules.specs.Seals.{has_sealed};
ghost use Rattle.area_rules.specs.Steps.{step, IsReady};
ghost use Rattle.area_rules.specs.Tables.{AddressSpace, pages_of};

/// A touch that grows maps the touched page, which was free, and keeps every other page: the page is mapped as the one above it
/// is, to private anonymous memory that grows and allows the access. The reply is an area that has the page. A touch that does
/// not grow is refused, and changes nothing.
pub fn growth_maps_one_page()
    ensures free { (config : Config) (space : AddressSpace) (page : Page) (access : Access)
        → grows config space.areas page.0 access ≡ true → page_map space.areas page.0 ≡ None }
    ensures above { (config : Config) (space : AddressSpace) (page : Page) (access : Access) → IsReady config space
        → grows config space.areas page.0 access ≡ true
        → IsSomeAnd (page_map space.areas (page.0 + 1))
        (λ mapped. (mapped.attr.grows ≡ true) × (permits mapped.attr.prot access ≡ true) × (mapped.object ≡ 0)) }
    ensures grown { (config : Config) (space : AddressSpace) (page : Page) (access : Access) → IsReady config space
        → grows config space.areas page.0 access ≡ true
        → page_map (step config space (Touch page access)).space.areas page.0 ≡ page_map space.areas (page.0 + 1) }
    ensures others { (config : Config) (space : AddressSpace) (page : Page) (access : Access) (other : ℕ)
        → IsReady config space → grows config space.areas page.0 access ≡ true → other ≢ page.0
        → page_map (step config space (Touch page access)).space.areas other ≡ page_map space.areas other }
    ensures reply { (config : Config) (space : AddressSpace) (page : Page) (access : Access) → IsReady config space
        → grows config space.areas page.0 access ≡ true
        → IsGrownReply (step config space (Touch page access)).space.areas page.0 (step config space (Touch page access)).reply }
    ensures refused { (config : Config) (space : AddressSpace) (page : Page) (access : Access)
        → grows config space.areas page.0 access ≡ false
        → step config space (Touch page access) ≡ record { space = space; reply = Refused Efault } }
{}

/// A call of brk(2) that is ready maps the pages that a higher break takes, which were free, to the heap, and unmaps those that a lower break gives back.
/// All other pages stay. Its reply is the break after it: the address, or the break before where nothing changes. No other call
/// moves the break.
pub fn brk_changes_the_pages_between()
    ensures raised { (config : Config) (space : AddressSpace) (addr page : ℕ) → IsReady config space
        → pages_of space.brk < pages_of (after_brk config space addr).brk
        → page_map (after_brk config space addr).areas page
        ≡ (if has_page (pages_between space.brk (after_brk config space addr).brk) page then Some heap_page
        else page_map space.areas page) }
    ensures free { (config : Config) (space : AddressSpace) (addr page : ℕ)
        → pages_of space.brk < pages_of (after_brk config space addr).brk
        → has_page (pages_between space.brk (after_brk config space addr).brk) page ≡ true → page_map space.areas page ≡ None }
    ensures lowered { (config : Config) (space : AddressSpace) (addr page : ℕ)
        → pages_of (after_brk config space addr).brk < pages_of space.brk
        → page_map (after_brk config space addr).areas page
        ≡ (if has_page (pages_between (after_brk config space addr).brk space.brk) page then None else page_map space.areas page) }
    ensures kept { (config : Config) (space : AddressSpace) (addr : ℕ)
        → pages_of (after_brk config space addr).brk ≡ pages_of space.brk
        → (after_brk config space addr).areas ≡ space.areas }
    ensures asked { (config : Config) (space : AddressSpace) (addr : ℕ)
        → ((after_brk config space addr).brk ≡ addr) ⊎ (after_brk config space addr ≡ space) }
    ensures reply { (config : Config) (space : AddressSpace) (addr : ℕ)
        → (step config space (Brk addr)).reply ≡ Addr (after_brk config space addr).brk }
    ensures others { (config : Config) (space : AddressSpace) (call : Call) → ((addr : ℕ) → call ≢ Brk addr)
        → (step config space call).space.brk ≡ space.brk }
{}

/// mseal(2) seals the pages of its range, all mapped, where it answers zero and the range is not empty, and keeps every other
/// page. Its list is the only canonical one with that map of pages. Else it changes nothing.
pub fn mseal_seals_the_range()
    ensures pages { (config : Config) (space : AddressSpace) (addr len flags page : ℕ) → IsReady config space
        → (step config space (Mseal addr len flags)).reply ≡ Zero → len ≢ 0
        → page_map (step config space (Mseal addr len flags)).space.areas page
        ≡ (if has_page (range_of addr len) page then option_map (changed_page Seal) (page_map space.areas page)
        else page_map space.areas page) }
    ensures mapped { (config : Config) (space : AddressSpace) (addr len flags page : ℕ)
        → (step config space (Mseal addr len flags)).reply ≡ Zero → has_page (range_of addr len) page ≡ true
        → page_map space.areas page ≢ None }
    ensures kept { (config : Config) (space : AddressSpace) (addr len flags : ℕ)
        → ((step config space (Mseal addr len flags)).reply ≢ Zero) ⊎ (len ≡ 0)
        → (step config space (Mseal addr len flags)).space ≡ space }
    ensures only { (config : Config) (space : AddressSpace) (addr len flags : ℕ) (others : List Record) → IsReady config space
        → (step config space (Mseal addr len flags)).reply ≡ Zero → len ≢ 0 → IsCanonical (page_of config.limit) others
        → ((page : ℕ) → page_map others page
        ≡ (if has_page (range_of addr len) page then option_map (changed_page Seal) (page_map space.areas page)
        else page_map space.areas page))
        → others ≡ (step config space (Mseal addr len flags)).space.areas }
{}

/// No call that is ready changes a sealed page.
pub fn sealed_pages_stay()
    ensures { (config : Config) (space : AddressSpace) (call : Call) (page : ℕ) (mapped : MappedPage) → IsReady config space
        → page_map space.areas page ≡ Some mapped → mapped.attr.sealed ≡ true
        → page_map (step config space call).space.areas page ≡ Some mapped }
{}

/// A span has a sealed area where one of its pages is sealed, and a hole where one of its pages is not mapped.
pub fn seals_and_holes_are_of_pages()
    ensures sealed { (end : ℕ) (span : Span) (areas : List Record) → span.lo < span.hi → IsCanonical end areas
        → (has_sealed span areas ≡ true) ↔ HasPageWith (IsSealed areas) span }
    ensures hole { (span : Span) (areas : List Record)
        → (has_hole span areas ≡ true) ↔ HasPageWith (λ page. page_map areas page ≡ None) span }
{}
