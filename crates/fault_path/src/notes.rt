//! Notes: what one caller tells another.
ghost use Rattle.std.specs.Prelude.{◌≡◌, length};
ghost use Rattle.lock_core.specs.Core.{StartsWith};
ghost use Rattle.lock_core.specs.Events.{longer};
ghost use Rattle.fault_path.specs.Passes.{pass_config, seen_by, made_by, looks_of, IsLater};
ghost use Rattle.fault_path.specs.Notes.{WroteNote};

use crate::pass::Pass;
use crate::view::FaultView;
use std::marker::Model;
use vma_lock::NoteSeat;

/// What a caller has seen, on its way to another.
#[derive(Drop)]
pub struct Note {
    seat: NoteSeat,
}

impl Model for Note {
    ghost use Rattle.area_rules.specs.Steps.{IsLegalJournal};
    ghost use Rattle.vma_lock.specs.Seats.{told};
    ghost use Rattle.fault_path.specs.Notes.{NoteView};

    ghost Value = { NoteView };

    ghost view = { λ n. record { table = n.seat.seat.table_id; config = (told n.seat).config; seen = (told n.seat).seen } };

    ghost invariant = { λ n. IsLegalJournal (told n.seat).config (told n.seat).seen };
}

impl Note {
    /// How many entries of the journal it has seen.
    pub fn version(&self) -> u64
        ensures { result ≡ length self.now.seen }
    {
        self.seat.version()
    }
}

impl FaultView {
    /// A note of what a pass has seen.
    pub fn tell(&self, pass: &mut Pass) -> Note
        requires { pass.old.reader.seat.table_id ≡ self.now.table }
        ensures later { IsLater pass.old pass.new }
        ensures same { pass.new ≡ record pass.old { reader = pass.new.reader } }
        ensures seen { seen_by pass.new ≡ seen_by pass.old }
        ensures looks { looks_of pass.new ≡ looks_of pass.old }
        ensures note { WroteNote pass.old result }
    {
        pass.facts();
        let seat = self.table.split(&mut pass.reader);
        Note { seat }
    }

    /// A pass takes a note: it has then seen the longer of both lists, each of which begins it.
    pub fn hear(&self, pass: &mut Pass, note: Note)
        requires tables { (pass.old.reader.seat.table_id ≡ self.now.table) × (note.table ≡ self.now.table) }
        requires configs { note.config ≡ pass_config pass.old }
        ensures later { IsLater pass.old pass.new }
        ensures seen { seen_by pass.new ≡ longer (seen_by pass.old) note.seen }
        ensures note { StartsWith (seen_by pass.new) note.seen }
        ensures own { made_by pass.new ≡ made_by pass.old }
        ensures looks { looks_of pass.new ≡ looks_of pass.old }
        ensures same { pass.new ≡ record pass.old { reader = pass.new.reader } }
    {
        let Note { seat } = note;
        self.table.take_note(&mut pass.reader, seat);
    }
}
