//! A fault before anything is mapped.

ghost use Rattle.std.specs.Prelude.{IfOk};
ghost use Rattle.fault_path.specs.Passes.{SitsAtTables};

use fault_path::{Fast, FaultView, Miss, Pass};
use mm_types::{Access, Config, Files, NoMemory, Page};
use std::alloc::Global;
use std::process::Abort;
use std::test::Fail;

/// The page that a first mapping of one page is given.
const PAGE: Page = Page(0x7_ffff_7ffe);

/// Tree 0 has no area: the fault misses without a look.
#[test]
fn the_first_tree_has_no_area(rt: HostRuntime) -> Result<(), Fail> {
    let (view, mut pass) = first_tree(&rt, rt.alloc())?;
    let fast = view.fault_fast(&mut pass, PAGE, Access::Read);
    assert_eq!(rt; fast, Fast::Miss(Miss::NoArea { tree: 0 }));
    assert_eq!(rt; (pass.version(), pass.looks(), pass.walks()), (0, 0, 1));
    Ok(())
}

/// The tables of an address space of at most one area, with no files, before anything is published, and a pass.
fn first_tree<R: Abort>(rt: &R, alloc: Global) -> Result<(FaultView, Pass), NoMemory>
    ensures { IfOk result (λ made. SitsAtTables made.0 made.1) }
{
    let mut config = Config::with_files(Files::of(Vec::new(alloc)));
    config.areas = 1;
    assert!(rt; config.valid());
    let (view, mut passes, _writer, _nodes) = FaultView::make(alloc, &config, &[9])?;
    let Some(pass) = passes.pop() else {
        panic!(rt; "there is no pass")
    };
    Ok((view, pass))
}
