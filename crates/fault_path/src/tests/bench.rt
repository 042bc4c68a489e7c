//! Both tables with one pass, written by hand: an address space of at most one area, which lies in slot 0.
ghost use Rattle.std.specs.Prelude.{◌≡◌, ◌<◌, ◌≤◌, ◌^◌, ◌++◌, ◌∷◌, [], length, None, IfOk, IfSome};
ghost use Rattle.mm_types.specs.Config.{IsValidConfig};
ghost use Rattle.area_rules.specs.Steps.{step, after};
ghost use Rattle.lock_core.specs.Facts.{list_after};
ghost use Rattle.vma_lock.specs.Views.{opened_lock_view};
ghost use Rattle.vma_lock.specs.Seats.{lock_sight, journal, slots, HasNoOpenCall};
ghost use Rattle.fault_path.specs.Internal.Small.{AreOthersDetached, ShowsOneArea, IsBetweenCalls};
ghost use Rattle.fault_path.specs.Passes.{SitsAtTables, IsNewWriter};
ghost use Rattle.fault_path.specs.Internal.Benches.{IsEntryMade};

use super::leaf::publish_leaf;
use super::row::row_of;
use crate::{Fast, FaultView, Pass};
use area_model::{is_ready, model_step};
use mm_types::{Access, AreaList, Call, Config, Counters, Entry, NoMemory, Page, Slot};
use node_slots::NodeWriter;
use std::alloc::Global;
use std::process::Abort;
use vma_lock::WriterSeat;

/// The caller of the calls that are made by hand, which has no pass.
const NOBODY: u32 = 64;

/// Where the one entry of the published tree ends.
const END: Page = Page(0x8_0000_0000);

/// The tables, a pass, and the writer of areas with the list and the counters after its journal.
#[derive(Drop)]
pub(super) struct Bench {
    pub(super) view: FaultView,
    pub(super) config: Config,
    pub(super) pass: Pass,
    pub(super) writer: WriterSeat,
    pub(super) list: AreaList,
    pub(super) counters: Counters,
    pub ghost sits: { SitsAtTables view pass },
    pub ghost table_is: { writer.seat.table_id ≡ view.table },
    pub ghost config_is: { config ≡ (lock_sight writer).config },
    pub ghost kept: { IsBetweenCalls (lock_sight writer) list counters },
}

impl Bench {
    /// No call was made, and a tree is published that pairs each page below an end with slot 0.
    pub(super) fn open<R: Abort>(rt: &R, alloc: Global, config: Config) -> Result<Bench, NoMemory>
        requires areas { config.areas ≡ 1 }
        requires files { config.files ≡ [] }
    {
        assert!(rt; config.valid());
        let (view, pass, writer, mut nodes) = make(rt, alloc, &config)?;
        assert!(rt; publish_leaf(&view.nodes, &mut nodes, END).is_some());
        let counters = Counters::opening(&config);
        Ok(Bench {
            view,
            config,
            pass,
            writer,
            list: AreaList::of(Vec::new(alloc)),
            counters,
        })
    }

    /// A fault of the pass, to read.
    pub(super) fn fault(&mut self, page: Page) -> Fast {
        self.view.fault_fast(&mut self.pass, page, Access::Read)
    }

    /// Makes a call, in the middle of which the pass faults at a page, and gives this fault. No call is made where the list would
    /// have more areas than one, or another than private anonymous memory.
    pub(super) fn call(
        self,
        alloc: Global,
        call: Call,
        page: Page,
    ) -> Result<Option<(Bench, Fast)>, NoMemory> {
        if self.writer.version() >= 1000 || !is_ready(&self.config, self.counters, &self.list) {
            return Ok(None);
        }
        let stepped = model_step(alloc, &self.config, self.counters, &self.list, &call)?;
        let Some(row) = row_of(&stepped.list) else {
            return Ok(None);
        };
        let entry = Entry {
            caller: NOBODY,
            call,
            reply: stepped.reply,
        };
        let Bench {
            view,
            config,
            mut pass,
            mut writer,
            list: _,
            counters: _,
        } = self;
        let Some(fast) = enter(&view, &mut pass, &mut writer, entry, row, page) else {
            return Ok(None);
        };
        let bench = Bench {
            view,
            config,
            pass,
            writer,
            list: stepped.list,
            counters: stepped.counters,
        };
        Ok(Some((bench, fast)))
    }
}

/// New tables with a pass and their writers.
fn make<R: Abort>(
    rt: &R,
    alloc: Global,
    config: &Config,
) -> Result<(FaultView, Pass, WriterSeat, NodeWriter), NoMemory>
    requires config { IsValidConfig config.now }
    ensures pass { IfOk result (λ made. SitsAtTables made.0 made.1) }
    ensures tables { IfOk result (λ made. (made.2.seat.table_id ≡ made.0.table) × (made.3.writer_state.seat.table_id ≡ made.0.nodes)
        × (made.0.config ≡ config.now) × (made.0.callers ≡ 1)) }
    ensures writer { IfOk result (λ made. lock_sight made.2 ≡ opened_lock_view config.now 1) }
    ensures nodes { IfOk result (λ made. IsNewWriter config.now 1 made.3) }
{
    let (view, mut passes, writer, nodes) = FaultView::make(alloc, config, &[9])?;
    let Some(pass) = passes.pop() else {
        panic!(rt; "there is no pass")
    };
    Ok((view, pass, writer, nodes))
}

/// A whole call on slot 0: it is marked, a pass faults at a page, the slot is written, and the entry is made. None where the slot is
/// held.
fn enter(
    view: &FaultView,
    pass: &mut Pass,
    writer: &mut WriterSeat,
    entry: Entry,
    row: [u64; 4],
    page: Page,
) -> Option<Fast>
    requires pass { SitsAtTables view.now pass.old }
    requires table { writer.old.seat.table_id ≡ view.now.table }
    requires closed { HasNoOpenCall writer.old × ((lock_sight writer.old).turn ≡ None) }
    requires caller { 64 ≤ entry.caller }
    requires room { length (journal writer.old) < 2 ^ 31 }
    requires reply { entry.reply ≡ (step (lock_sight writer.old).config (after (lock_sight writer.old).config (journal writer.old)) entry.call).reply }
    requires slots { AreOthersDetached (slots writer.old) }
    requires shows { ShowsOneArea (list_after (lock_sight writer.old).config (journal writer.old ++ entry ∷ [])) row }
    ensures pass { SitsAtTables view.now pass.new }
    ensures table { writer.new.seat.table_id ≡ view.now.table }
    ensures entered { IfSome result (λ fast. IsEntryMade (lock_sight writer.old) (lock_sight writer.new) entry) }
{
    view.table.begin(writer);
    let Ok(()) = view.table.try_mark(writer, Slot(0)) else {
        return None;
    };
    let fast = view.fault_fast(pass, page, Access::Read);
    view.table.write_row(writer, Slot(0), row);
    view.table.end(writer, entry);
    Some(fast)
}
