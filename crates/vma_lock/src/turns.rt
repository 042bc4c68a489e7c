ghost use Rattle.std.specs.Prelude.{◌≡◌, ◌≢◌, ℕ, length, IfOk, true, None, Some};
ghost use Rattle.lock_core.specs.declared.stage.Stage.TheVariants.{Out};
ghost use Rattle.lock_core.specs.Core.{StartsWith};
ghost use Rattle.vma_lock.specs.Views.{without_turn, lent_at, heard_at, lock_joined_at, returned_at};
ghost use Rattle.area_rules.specs.Journals.{calls_by};
ghost use Rattle.vma_lock.specs.Seats.{table_config, IsOfVmaTable, WritesVmaTable, lock_view, seen, stage, HasTurn, lock_sight, journal, HasNoOpenCall, is_turn_of, met_turn, kept_turn, greeted_at, Meets};

use crate::rule::{Heard, Joined, Lent, Noted, Returned, Settled, TurnNoted};
use crate::seats::{ReaderSeat, VmaTable, WriterSeat};
use mm_types::NoMemory;
use std::sync::Arc;

impl WriterSeat {
    /// How many entries the journal has.
    pub fn version(&self) -> u64
        ensures { result ≡ length (journal self.now) }
    {
        self.seq / 2 - 1
    }

    /// The sequence: odd while a call is open.
    pub fn sequence(&self) -> u64
        ensures { result ≡ (lock_sight self.now).writer_state.seq }
    {
        self.seq
    }

    /// Another handle of the writer's table.
    pub fn table(&self) -> Result<VmaTable, NoMemory>
        ensures { IfOk result (λ table. WritesVmaTable self.now table × (table_config table ≡ (lock_sight self.now).config)) }
    {
        Ok(VmaTable {
            table: Arc::try_clone(&self.table.table)?,
        })
    }
}

impl VmaTable {
    /// Lends a reader's turn to the writer. The writer learns that the reader has seen a beginning of the journal that
    /// has every entry of its caller.
    pub fn lend(&self, writer: &mut WriterSeat, seat: &mut ReaderSeat)
        requires tables { WritesVmaTable writer.old self.now × IsOfVmaTable seat.old self.now }
        requires closed { HasNoOpenCall writer.old }
        requires turn { HasTurn seat.old }
        requires free { (lock_sight writer.old).turn ≡ None }
        ensures tables { WritesVmaTable writer.new self.now × IsOfVmaTable seat.new self.now }
        ensures seat { lock_view seat.new ≡ without_turn (lock_view seat.old) }
        ensures writer { lock_sight writer.new ≡ lent_at (lock_sight writer.old) (lock_view seat.old) }
        ensures seen { StartsWith (journal writer.old) (seen seat.old) }
        ensures own { calls_by (lock_view seat.old).caller (journal writer.old) ≡ calls_by (lock_view seat.old).caller (seen seat.old) }
    {
        let shared = &self.table.shared;
        let note = shared.split_seat::<TurnNoted>(&mut seat.seat);
        writer.turn = Some(seat.caller);
        shared.join_seat::<Lent>(&mut writer.seat, note);
        shared.load::<Settled>(&mut writer.seat, 0);
    }

    /// A reader meets the writer: it has then seen exactly the writer's journal, and has its turn again if the writer
    /// had it.
    pub fn meet(&self, writer: &mut WriterSeat, seat: &mut ReaderSeat)
        requires tables { WritesVmaTable writer.old self.now × IsOfVmaTable seat.old self.now }
        ensures tables { WritesVmaTable writer.new self.now × IsOfVmaTable seat.new self.now }
        ensures seat { Meets (lock_view seat.old) (journal writer.old) (met_turn (lock_sight writer.old) (lock_view seat.old)) (lock_view seat.new) }
        ensures writer { lock_sight writer.new ≡ record (lock_sight writer.old) { turn = kept_turn (lock_sight writer.old) (lock_view seat.old); joined = journal writer.old } }
        ensures seen { StartsWith (journal writer.old) (seen seat.old) }
        ensures own { is_turn_of (lock_view seat.old).caller (lock_sight writer.old).turn ≢ true
            → (caller : ℕ) → (lock_view seat.old).turn ≡ Some caller → calls_by caller (journal writer.old) ≡ calls_by caller (seen seat.old) }
    {
        self.greet(writer, seat);
        self.look(seat);
        self.learn_from_reader(writer, seat);
    }

    /// The writer shows a reader what it has seen, and gives its turn back if it has it.
    fn greet(&self, writer: &mut WriterSeat, seat: &mut ReaderSeat)
        requires { WritesVmaTable writer.old self.now × IsOfVmaTable seat.old self.now }
        ensures tables { WritesVmaTable writer.new self.now × IsOfVmaTable seat.new self.now }
        ensures seat { lock_view seat.new ≡ greeted_at (lock_view seat.old) (lock_sight writer.old) }
        ensures writer { lock_sight writer.new ≡ record (lock_sight writer.old) { turn = kept_turn (lock_sight writer.old) (lock_view seat.old) } }
    {
        if is_turn_of(writer.turn, seat.caller) {
            self.give_back_turn(writer, seat);
        } else {
            self.show_reader(writer, seat);
        }
    }

    /// The writer shows a reader what it has seen, and gives its turn away.
    fn give_back_turn(&self, writer: &mut WriterSeat, seat: &mut ReaderSeat)
        requires { WritesVmaTable writer.old self.now × IsOfVmaTable seat.old self.now }
        ensures tables { WritesVmaTable writer.new self.now × IsOfVmaTable seat.new self.now }
        ensures seat { lock_view seat.new ≡ returned_at (lock_view seat.old) (lock_sight writer.old) }
        ensures writer { lock_sight writer.new ≡ without_turn (lock_sight writer.old) }
    {
        let shared = &self.table.shared;
        writer.turn = None;
        let note = shared.split_seat::<TurnNoted>(&mut writer.seat);
        shared.join_seat::<Returned>(&mut seat.seat, note);
        seat.version = seat.version.max(writer.version());
    }

    /// The writer shows a reader what it has seen.
    fn show_reader(&self, writer: &mut WriterSeat, seat: &mut ReaderSeat)
        requires { WritesVmaTable writer.old self.now × IsOfVmaTable seat.old self.now }
        ensures tables { WritesVmaTable writer.new self.now × IsOfVmaTable seat.new self.now }
        ensures seat { lock_view seat.new ≡ lock_joined_at (lock_view seat.old) (lock_sight writer.old) }
        ensures writer { lock_sight writer.new ≡ lock_sight writer.old }
    {
        let shared = &self.table.shared;
        let note = shared.split_seat::<Noted>(&mut writer.seat);
        shared.join_seat::<Joined>(&mut seat.seat, note);
        seat.version = seat.version.max(writer.version());
    }

    /// The writer learns what a reader has seen, which is a beginning of the journal.
    fn learn_from_reader(&self, writer: &mut WriterSeat, seat: &mut ReaderSeat)
        requires { WritesVmaTable writer.old self.now × IsOfVmaTable seat.old self.now }
        ensures tables { WritesVmaTable writer.new self.now × IsOfVmaTable seat.new self.now }
        ensures seat { lock_view seat.new ≡ lock_view seat.old }
        ensures writer { lock_sight writer.new ≡ heard_at (lock_sight writer.old) (lock_view seat.old) }
        ensures seen { StartsWith (journal writer.old) (seen seat.old) }
    {
        let shared = &self.table.shared;
        let note = shared.split_seat::<Noted>(&mut seat.seat);
        shared.join_seat::<Heard>(&mut writer.seat, note);
        shared.load::<Settled>(&mut writer.seat, 0);
    }

    /// Joins another reader into one, which has then seen the longer of both lists. A turn that the other has ends.
    pub fn join(&self, seat: &mut ReaderSeat, other: ReaderSeat)
        requires tables { IsOfVmaTable seat.old self.now × IsOfVmaTable other self.now }
        requires free { stage other ≡ Out }
        ensures table { IsOfVmaTable seat.new self.now }
        ensures view { lock_view seat.new ≡ lock_joined_at (lock_view seat.old) (lock_view other) }
        ensures old { StartsWith (seen seat.new) (seen seat.old) }
        ensures other { StartsWith (seen seat.new) (seen other) }
        ensures own { (caller : ℕ) → (lock_view seat.old).turn ≡ Some caller → calls_by caller (seen seat.new) ≡ calls_by caller (seen seat.old) }
    {
        let shared = &self.table.shared;
        let ReaderSeat {
            seat: taken,
            caller: _,
            slot: _,
            looks: _,
            version,
        } = other;
        shared.join_seat::<Joined>(&mut seat.seat, taken);
        seat.version = seat.version.max(version);
        shared.load::<Settled>(&mut seat.seat, 0);
    }
}

/// Whether it is a caller's turn.
fn is_turn_of(turn: Option<u32>, caller: u32) -> bool
    ensures { result ≡ is_turn_of caller turn }
{
    match turn {
        Some(other) => other == caller,
        None => false,
    }
}
