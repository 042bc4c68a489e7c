//! Laws of the definitions. Each is the contract of a function that does nothing.

ghost use Rattle.std.specs.Prelude.{◌≡◌, ◌<◌, ◌≤◌, ℕ, List, All, if◌then◌else◌, None, Some, option_map};
ghost use Rattle.mm_types.specs.declared.area.Span.{Span};
ghost use Rattle.mm_types.specs.declared.area.Record.{Record};
ghost use Rattle.mm_types.specs.Records.{IsValid};
ghost use Rattle.area_list.specs.declared.attributes.AttrChange.{AttrChange};
ghost use Rattle.area_list.specs.Attributes.{changed_page};
ghost use Rattle.area_list.specs.Areas.{Neighbours, IsCanonical, has_page, mapped_page, page_map};
ghost use Rattle.area_list.specs.Changes.{cut, merge, put, changed_list};
ghost use Rattle.area_list.specs.Laws.{AllMayBecome};

/// A cut keeps a list canonical, and unmaps exactly the pages of the span.
pub fn cut_unmaps_the_span()
    ensures canonical { (end : ℕ) (span : Span) (areas : List Record) → span.lo < span.hi → IsCanonical end areas
        → IsCanonical end (cut span areas) }
    ensures pages { (end : ℕ) (span : Span) (areas : List Record) (page : ℕ) → span.lo < span.hi → IsCanonical end areas
        → page_map (cut span areas) page ≡ (if has_page span page then None else page_map areas page) }
{}

/// Merging makes a list in order canonical, and keeps what each page is mapped to.
pub fn merge_keeps_pages()
    ensures canonical { (end : ℕ) (areas : List Record) → All IsValid areas → All (λ area. area.span.hi ≤ end) areas
        → Neighbours (λ a b. a.span.hi ≤ b.span.lo) areas → IsCanonical end (merge areas) }
    ensures pages { (areas : List Record) (page : ℕ) → All IsValid areas → Neighbours (λ a b. a.span.hi ≤ b.span.lo) areas
        → page_map (merge areas) page ≡ page_map areas page }
{}

/// A put keeps a list canonical, and maps exactly the pages of the new area anew.
pub fn put_maps_the_span()
    ensures canonical { (end : ℕ) (area : Record) (areas : List Record) → IsValid area → area.span.hi ≤ end
        → IsCanonical end areas → IsCanonical end (put area areas) }
    ensures pages { (end : ℕ) (area : Record) (areas : List Record) (page : ℕ) → IsValid area → area.span.hi ≤ end
        → IsCanonical end areas
        → page_map (put area areas) page ≡ (if has_page area.span page then Some (mapped_page page area) else page_map areas page) }
{}

/// There is at most one canonical list for each map of pages.
pub fn page_map_determines_list()
    ensures { (end : ℕ) (areas : List Record) (others : List Record) → IsCanonical end areas → IsCanonical end others
        → ((page : ℕ) → page_map areas page ≡ page_map others page) → areas ≡ others }
{}

/// New attributes keep a list canonical where those of the mapped pages of the span may change so, and change exactly these
/// pages.
pub fn new_attributes_change_the_span()
    ensures canonical { (end : ℕ) (change : AttrChange) (span : Span) (areas : List Record) → span.lo ≤ span.hi
        → IsCanonical end areas → AllMayBecome change span areas → IsCanonical end (changed_list change span areas) }
    ensures pages { (end : ℕ) (change : AttrChange) (span : Span) (areas : List Record) (page : ℕ) → span.lo ≤ span.hi
        → IsCanonical end areas → AllMayBecome change span areas
        → page_map (changed_list change span areas) page
        ≡ (if has_page span page then option_map (changed_page change) (page_map areas page) else page_map areas page) }
{}
