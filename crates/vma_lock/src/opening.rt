ghost use Rattle.std.specs.Prelude.{◌≡◌, ◌≤◌, ◌<◌, ℕ, IfOk, length, slice_get, Some};
ghost use Rattle.mm_types.specs.Config.{IsValidConfig};
ghost use Rattle.vma_lock.specs.declared.seats.ReaderSeat.{ReaderSeat as Reader};
ghost use Rattle.vma_lock.specs.Opening.{first_words};
ghost use Rattle.vma_lock.specs.Views.{opened_lock_view, new_lock_reader, after_lock_reader};
ghost use Rattle.vma_lock.specs.Seats.{table_config, IsOfVmaTable, WritesVmaTable, lock_view, lock_sight};

use crate::rule::NewReader;
use crate::seats::{ReaderSeat, VmaTable, WriterSeat};
use crate::words::word_count;
use atomic_table::Table;
use mm_types::{Config, NoMemory, slots_for};
use std::alloc::Global;
use std::sync::Arc;

/// The sequence of a new table: even, since no call runs, and not 0, which is the lock sequence of a slot that was never marked.
pub const FIRST_SEQ: u64 = 2;

impl VmaTable {
    /// Makes a table with its writer and so many readers, the first of caller 0. No call was made, each row is
    /// detached, and each reader has its turn.
    pub fn new(
        alloc: Global,
        config: &Config,
        readers: u32,
    ) -> Result<(VmaTable, WriterSeat, Vec<ReaderSeat>), NoMemory>
        requires config { IsValidConfig config.now }
        requires readers { (1 ≤ readers) × (readers ≤ 64) }
        ensures table { IfOk result (λ made. table_config made.0 ≡ config.now) }
        ensures writer { IfOk result (λ made. WritesVmaTable made.1 made.0 × (lock_sight made.1 ≡ opened_lock_view config.now readers)) }
        ensures seats { IfOk result (λ made. length made.2.items ≡ readers) }
        ensures fresh { IfOk result (λ made. (caller : ℕ) (seat : Reader) → slice_get made.2.items caller ≡ Some seat → IsOfVmaTable seat made.0 × (lock_view seat ≡ new_lock_reader (opened_lock_view config.now caller))) }
    {
        let mut words = vec![in alloc; 0; word_count(config)]?;
        words[0] = FIRST_SEQ;
        VmaTable::of_words(alloc, words.as_slice(), config, readers)
    }

    /// The same, copied from words that are made already.
    pub fn of_words(
        alloc: Global,
        words: &[u64],
        config: &Config,
        readers: u32,
    ) -> Result<(VmaTable, WriterSeat, Vec<ReaderSeat>), NoMemory>
        requires config { IsValidConfig config.now }
        requires readers { (1 ≤ readers) × (readers ≤ 64) }
        requires words { words.now ≡ first_words config.now }
        ensures table { IfOk result (λ made. table_config made.0 ≡ config.now) }
        ensures writer { IfOk result (λ made. WritesVmaTable made.1 made.0 × (lock_sight made.1 ≡ opened_lock_view config.now readers)) }
        ensures seats { IfOk result (λ made. length made.2.items ≡ readers) }
        ensures fresh { IfOk result (λ made. (caller : ℕ) (seat : Reader) → slice_get made.2.items caller ≡ Some seat → IsOfVmaTable seat made.0 × (lock_view seat ≡ new_lock_reader (opened_lock_view config.now caller))) }
    {
        let (table, mut writer) = open(alloc, words, config)?;
        let mut seats = Vec::with_capacity(alloc, readers as usize)?;
        for caller in 0..readers {
            seats.push(table.new_reader(&mut writer, caller))?;
        }
        Ok((table, writer, seats))
    }

    /// The next reader.
    fn new_reader(&self, writer: &mut WriterSeat, caller: u32) -> ReaderSeat
        requires table { WritesVmaTable writer.old self.now }
        requires caller { (caller ≡ (lock_sight writer.old).writer_state.made) × (caller < 64) }
        ensures table { WritesVmaTable writer.new self.now × IsOfVmaTable result self.now }
        ensures writer { lock_sight writer.new ≡ after_lock_reader (lock_sight writer.old) }
        ensures view { lock_view result ≡ new_lock_reader (lock_sight writer.old) }
    {
        let version = writer.version();
        let seat = self.table.shared.split_seat::<NewReader>(&mut writer.seat);
        ReaderSeat {
            seat,
            caller,
            slot: 0,
            looks: 0,
            version,
        }
    }
}

/// A table with no reader.
fn open(alloc: Global, words: &[u64], config: &Config) -> Result<(VmaTable, WriterSeat), NoMemory>
    requires config { IsValidConfig config.now }
    requires words { words.now ≡ first_words config.now }
    ensures table { IfOk result (λ made. table_config made.0 ≡ config.now) }
    ensures writer { IfOk result (λ made. WritesVmaTable made.1 made.0 × (lock_sight made.1 ≡ opened_lock_view config.now 0)) }
{
    let slots = slots_for(config.areas) as usize;
    let (table, seat) = Table::of_words(alloc, words, config)?;
    let table = VmaTable {
        table: Arc::new(alloc, table)?,
    };
    let writer = WriterSeat {
        seat,
        table: VmaTable {
            table: Arc::try_clone(&table.table)?,
        },
        seq: FIRST_SEQ,
        marks: vec![in alloc; 0; slots]?,
        turn: None,
    };
    Ok((table, writer))
}
