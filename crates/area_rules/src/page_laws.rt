//! Laws of the pages that calls change. Each is the contract of a function that does nothing.
ghost use Rattle.std.specs.Prelude.{◌≡◌, ◌≢◌, ◌<◌, ◌≤◌, ◌+◌, ℕ, true, false, if◌then◌else◌, None, Some, option_map};
ghost use Rattle.mm_types.specs.declared.area.Prot.{Prot};
ghost use Rattle.mm_types.specs.declared.call.Call.{Call};
ghost use Rattle.mm_types.specs.declared.call.Call.TheVariants.{Mmap, Munmap, Mprotect, Mremap};
ghost use Rattle.mm_types.specs.declared.call.MmapArgs.{MmapArgs};
ghost use Rattle.mm_types.specs.declared.call.Reply.TheVariants.{Addr, Zero};
ghost use Rattle.mm_types.specs.declared.config.Config.{Config};
ghost use Rattle.mm_types.specs.Rows.{first_row};
ghost use Rattle.area_list.specs.declared.attributes.AttrChange.TheVariants.{Protection};
ghost use Rattle.area_list.specs.Areas.{page_of, has_page, overlap, page_map};
ghost use Rattle.area_list.specs.Attributes.{changed_page};
ghost use Rattle.area_rules.specs.Mprotect.{mprotect_rows, prefix_of};
ghost use Rattle.area_rules.specs.Munmap.{range_of};
ghost use Rattle.area_rules.specs.Pages.{is_about, mmap_page, runs_on};
ghost use Rattle.area_rules.specs.Steps.{step, IsReady};
ghost use Rattle.area_rules.specs.Tables.{AddressSpace, is_refusal, pages_of};

/// A call of any kind that is ready keeps each page that it is not about, with any reply. One that is refused changes nothing, but for
/// an mprotect(2), which may stop in its range.
pub fn calls_change_only_their_pages()
    ensures others { (config : Config) (space : AddressSpace) (call : Call) (page : ℕ) → IsReady config space
        → is_about space call (step config space call).reply page ≡ false
        → page_map (step config space call).space.areas page ≡ page_map space.areas page }
    ensures refused { (config : Config) (space : AddressSpace) (call : Call)
        → is_refusal (step config space call).reply ≡ true → ((addr len : ℕ) (prot : Prot) → call ≢ Mprotect addr len prot)
        → (step config space call).space ≡ space }
{}

/// munmap(2) that answers zero unmaps the pages of its range, and keeps every other page. With any other reply it changes nothing.
pub fn munmap_changes_its_pages()
    ensures pages { (config : Config) (space : AddressSpace) (addr len page : ℕ)
        → (step config space (Munmap addr len)).reply ≡ Zero
        → page_map (step config space (Munmap addr len)).space.areas page
        ≡ (if has_page (range_of addr len) page then None else page_map space.areas page) }
    ensures kept { (config : Config) (space : AddressSpace) (addr len : ℕ)
        → (step config space (Munmap addr len)).reply ≢ Zero → (step config space (Munmap addr len)).space ≡ space }
{}

/// mprotect(2) that is ready and answers zero gives the pages of its range, all mapped, the protection, and keeps all else of them
/// and every other page. Where no test answers, also with an error, the pages before its stop have it, and
/// these alone. Else it changes nothing.
pub fn mprotect_changes_its_pages()
    ensures pages { (config : Config) (space : AddressSpace) (addr len : ℕ) (prot : Prot) (page : ℕ) → IsReady config space
        → (step config space (Mprotect addr len prot)).reply ≡ Zero
        → page_map (step config space (Mprotect addr len prot)).space.areas page
        ≡ (if has_page (range_of addr len) page then option_map (changed_page (Protection prot)) (page_map space.areas page)
        else page_map space.areas page) }
    ensures mapped { (config : Config) (space : AddressSpace) (addr len : ℕ) (prot : Prot) (page : ℕ)
        → (step config space (Mprotect addr len prot)).reply ≡ Zero → has_page (range_of addr len) page ≡ true
        → page_map space.areas page ≢ None }
    ensures stopped { (config : Config) (space : AddressSpace) (addr len : ℕ) (prot : Prot) (page : ℕ) → IsReady config space
        → first_row (mprotect_rows config space.areas addr len prot) ≡ None
        → page_map (step config space (Mprotect addr len prot)).space.areas page
        ≡ (if has_page (prefix_of prot (range_of addr len) space.areas) page
        then option_map (changed_page (Protection prot)) (page_map space.areas page)
        else page_map space.areas page) }
    ensures kept { (config : Config) (space : AddressSpace) (addr len : ℕ) (prot : Prot)
        → first_row (mprotect_rows config space.areas addr len prot) ≢ None
        → (step config space (Mprotect addr len prot)).space ≡ space }
{}

/// mmap(2) that is ready and answers an address maps the pages from there on to what was asked for, and keeps every other page.
/// With any other reply it changes nothing.
pub fn mmap_changes_its_pages()
    ensures pages { (config : Config) (space : AddressSpace) (args : MmapArgs) (address page : ℕ) → IsReady config space
        → (step config space (Mmap args)).reply ≡ Addr address
        → page_map (step config space (Mmap args)).space.areas page
        ≡ (if has_page (range_of address args.len) page
        then Some (mmap_page config space.objects args (page_of address) page)
        else page_map space.areas page) }
    ensures kept { (config : Config) (space : AddressSpace) (args : MmapArgs)
        → ((address : ℕ) → (step config space (Mmap args)).reply ≢ Addr address)
        → (step config space (Mmap args)).space ≡ space }
{}

/// mremap(2) that is ready and answers an address, which is where the range was or shares no page with it: each page there that the
/// old range had too is mapped to what that page of the old range was mapped to, and those past the old length go on as its
/// first page. The other pages of the old range are not mapped, and every other page is as before. With any other reply it
/// changes nothing.
pub fn mremap_changes_its_pages()
    ensures carried { (config : Config) (space : AddressSpace) (old old_len new_len flags new address count : ℕ)
        → IsReady config space → (step config space (Mremap old old_len new_len flags new)).reply ≡ Addr address
        → count < pages_of old_len → count < pages_of new_len
        → page_map (step config space (Mremap old old_len new_len flags new)).space.areas (page_of address + count)
        ≡ page_map space.areas (page_of old + count) }
    ensures added { (config : Config) (space : AddressSpace) (old old_len new_len flags new address count : ℕ)
        → IsReady config space → (step config space (Mremap old old_len new_len flags new)).reply ≡ Addr address
        → pages_of old_len ≤ count → count < pages_of new_len
        → page_map (step config space (Mremap old old_len new_len flags new)).space.areas (page_of address + count)
        ≡ option_map (runs_on count) (page_map space.areas (page_of old)) }
    ensures left { (config : Config) (space : AddressSpace) (old old_len new_len flags new address page : ℕ)
        → IsReady config space → (step config space (Mremap old old_len new_len flags new)).reply ≡ Addr address
        → has_page (range_of old old_len) page ≡ true → has_page (range_of address new_len) page ≡ false
        → page_map (step config space (Mremap old old_len new_len flags new)).space.areas page ≡ None }
    ensures others { (config : Config) (space : AddressSpace) (old old_len new_len flags new address page : ℕ)
        → IsReady config space → (step config space (Mremap old old_len new_len flags new)).reply ≡ Addr address
        → has_page (range_of old old_len) page ≡ false → has_page (range_of address new_len) page ≡ false
        → page_map (step config space (Mremap old old_len new_len flags new)).space.areas page ≡ page_map space.areas page }
    ensures beside { (config : Config) (space : AddressSpace) (old old_len new_len flags new address : ℕ)
        → IsReady config space → (step config space (Mremap old old_len new_len flags new)).reply ≡ Addr address
        → page_of address ≢ page_of old → overlap (range_of old old_len) (range_of address new_len) ≡ false }
    ensures mapped { (config : Config) (space : AddressSpace) (old old_len new_len flags new address : ℕ)
        → (step config space (Mremap old old_len new_len flags new)).reply ≡ Addr address
        → page_map space.areas (page_of old) ≢ None }
    ensures kept { (config : Config) (space : AddressSpace) (old old_len new_len flags new : ℕ)
        → ((address : ℕ) → (step config space (Mremap old old_len new_len flags new)).reply ≢ Addr address)
        → (step config space (Mremap old old_len new_len flags new)).space ≡ space }
{}
