ghost use Rattle.std.specs.Prelude.{◌≡◌, ◌≤◌, false, length, All};
ghost use Rattle.area_rules.specs.Placement.{place_low, place_high};
ghost use Rattle.split_merge.specs.Finding.{first_from, last_before};
ghost use Rattle.split_merge.specs.PageNumbers.{page_number};

use mm_types::{Page, Record};

/// A list of areas, however it is kept, and the four numbers of a valid configuration by which it goes.
pub trait Areas {
    ghost use Rattle.std.specs.Prelude.{ℕ, List};
    ghost use Rattle.mm_types.specs.declared.area.Record.{Record};
    ghost use Rattle.area_rules.specs.declared.placement.Bounds.{Bounds};

    /// The areas, in order.
    ghost list: { Self → List Record };

    /// The pages between which areas are placed.
    ghost bounds: { Self → Bounds };

    /// The most areas that the list may have.
    ghost most: { Self → ℕ };

    /// How many areas there are.
    fn count(&self) -> u64
        ensures { result ≡ length (list self.now) };

    /// The first area that ends above the page.
    fn from(&self, page: Page) -> Option<Record>
        ensures { result ≡ first_from (list self.now) page.0 };

    /// The last area that begins below the page.
    fn before(&self, page: Page) -> Option<Record>
        ensures { result ≡ last_before (list self.now) page.0 };

    /// Where so many pages go that name no place: as high as there is room below the top, else as low as there is room from the
    /// floor on.
    fn place(&self, len: u64) -> Option<Page>
        requires { 1 ≤ len }
        ensures { page_number result ≡ place_low (bounds self.now) (list self.now) len };

    /// Where so many pages go whose hint asks for memory above the usual window: as high as there is room below the limit.
    fn place_high(&self, len: u64) -> Option<Page>
        requires { 1 ≤ len }
        ensures { page_number result ≡ place_high (bounds self.now) (list self.now) len };

    /// Whether an area may be sealed: false only where none is, so that calls of a process that seals nothing pay nothing for
    /// seals.
    fn may_be_sealed(&self) -> bool
        ensures { result ≡ false → All (λ area. area.attr.sealed ≡ false) (list self.now) };
}
