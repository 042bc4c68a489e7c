//! Searches among areas of one page each.
ghost use Rattle.std.specs.Prelude.{◌≡◌, false, [], IfOk};
ghost use Rattle.tree_tests.specs.Rows.{IsWide, IsRow};

use area_tree::SpanTree;
use mm_types::{NoMemory, Page, Slot, Span};
use node_slots::{MayCount, NodeTable};
use std::alloc::Global;
use std::process::Abort;

/// How many areas there are.
const AREAS: u32 = 17;

/// The page where the tree ends.
const LIMIT: u64 = 0x7_ffff_ffff;

/// A tree without pairs, and the leave to count.
fn open(alloc: Global) -> Result<(SpanTree, MayCount), NoMemory>
    ensures wide { IfOk result (λ opened. IsWide opened.0) }
    ensures still { IfOk result (λ opened. opened.0.changed ≡ false) }
    ensures empty { IfOk result (λ opened. opened.0.pairs ≡ []) }
{
    let (_nodes, mut writer, _seats) = NodeTable::new(alloc, AREAS + 128, 2 * AREAS + 2, 1)?;
    let may = writer.may_count();
    let tree = SpanTree::new(AREAS, Page(LIMIT), writer)?;
    Ok((tree, may))
}

/// Stores areas of one page at pages 16, 18 and on to 48, with slots 0 to 16.
fn store_row(tree: &mut SpanTree, may: MayCount)
    requires { IsRow tree.old 0 }
    ensures { IsRow tree.new 17 }
{
    for place in 0..17 {
        let page = 16 + 2 * u64::from(place);
        tree.store(
            may,
            Span {
                lo: page,
                hi: page + 1,
            },
            Some(Slot(place)),
        );
    }
}

/// Looks for so many free pages from one page up to another.
fn look(
    rt: &impl Abort,
    tree: &SpanTree,
    may: MayCount,
    window: (u64, u64, u64),
    greatest: Option<u64>,
    least: Option<u64>,
)
    requires { IsWide tree.now }
{
    let (len, lo, hi) = window;
    assert!(rt; len > 0 && hi <= LIMIT);
    let mut reads = may.begin();
    assert_eq!(rt; tree.highest(len, lo, hi, &mut reads), greatest.map(Page));
    assert_eq!(rt; tree.lowest(len, lo, hi, &mut reads), least.map(Page));
}

/// Looks for the areas beside a page.
fn look_beside(
    rt: &impl Abort,
    tree: &SpanTree,
    may: MayCount,
    page: u64,
    before: Option<u32>,
    next: Option<u32>,
) {
    let mut reads = may.begin();
    assert_eq!(rt; tree.before_slot(Page(page), &mut reads), before.map(Slot));
    assert_eq!(rt; tree.next_slot(Page(page), &mut reads), next.map(Slot));
}

/// All pages of a tree without pairs are free. Between each two areas of another one page is.
#[test]
fn free_pages_and_areas(rt: HostRuntime) -> Result<(), NoMemory> {
    let (mut tree, may) = open(rt.alloc())?;
    look(&rt, &tree, may, (2, 16, 49), Some(47), Some(16));
    look(&rt, &tree, may, (34, 16, 49), None, None);
    look_beside(&rt, &tree, may, 49, None, None);
    tree.prepare(&rt, may);
    store_row(&mut tree, may);
    look(&rt, &tree, may, (1, 16, 49), Some(47), Some(17));
    look(&rt, &tree, may, (2, 16, 49), None, None);
    look(&rt, &tree, may, (2, 1, LIMIT), Some(LIMIT - 2), Some(1));
    look_beside(&rt, &tree, may, 16, None, Some(0));
    look_beside(&rt, &tree, may, 36, Some(9), Some(10));
    look_beside(&rt, &tree, may, u64::MAX, Some(16), None);
    Ok(())
}
