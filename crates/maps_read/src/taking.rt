//! What is taken of a maps text, line by line.

ghost use Rattle.std.specs.Prelude.{◌≡◌, ◌≤◌, ◌<◌, true, length, Err, IsOk, IsSome};
ghost use Rattle.text_lexer.specs.Reading.{Gives};
ghost use Rattle.mm_types.specs.declared.config.TheConstants.{MOST_FILES};
ghost use Rattle.maps_read.specs.FileLines.{first_line_of_file};
ghost use Rattle.maps_read.specs.Retracing.{nothing_taken, may_map, areas_with, with_next_file, with_file_taken, with_line_taken};
ghost use Rattle.maps_read.specs.Internal.Taking.{AreLinesTaken, may_take, what_taken};

use crate::MapsLine;
use crate::areas::{area_of, is_text_of, may_map};
use crate::file_lines::{FIRST_DESCRIPTOR, are_one_file, file_place, files_opened};
use mm_types::{Files, MOST_FILES, NoMemory, Record};
use std::alloc::Global;
use text_lexer::{CallError, Cause};

/// What was taken of the lines so far.
#[derive(Drop)]
pub(crate) struct Taken<'a> {
    /// The lines that show a file first.
    pub(crate) named: Vec<&'a MapsLine>,
    /// For each of them its file.
    opened: Vec<Files>,
    /// The areas of all lines.
    pub(crate) areas: Vec<Record>,
}

impl<'a> Taken<'a> {
    /// Before the first line.
    pub(crate) fn new(alloc: Global) -> Taken<'a>
        ensures { what_taken result ≡ nothing_taken }
    {
        Taken {
            named: Vec::new(alloc),
            opened: Vec::new(alloc),
            areas: Vec::new(alloc),
        }
    }

    /// Takes a line, which has this text, or says that it is not ours. Memory may run out only where the line may be mapped, or its file
    /// is one more.
    #[tactic(auto, unfolding(crate::specs::Retracing::with_line_taken))]
    pub(crate) fn add(
        &mut self,
        alloc: Global,
        line: &'a MapsLine,
        text: &[u8],
    ) -> Result<(), CallError>
        requires { AreLinesTaken (what_taken self.old) }
        ensures line { Gives (λ _. what_taken self.new) result (with_line_taken (what_taken self.old) line.now text.now) }
        ensures memory { result ≡ Err CallError.NoMemory → may_take (what_taken self.old) line.now ≡ true }
    {
        if line.name.as_str().is_empty() {
            let none = Files::of(Vec::new(alloc));
            return push_area(alloc, &mut self.areas, &none, 0, line, text);
        }
        let place = self.place_of(alloc, line)?;
        let object = place as u32 + 1;
        push_area(
            alloc,
            &mut self.areas,
            &self.opened[place],
            object,
            line,
            text,
        )
    }

    /// The place of the file of a line, which is taken where the line shows it first. Memory does not run out for a file of a line so
    /// far, nor where there is no room for one more.
    #[tactic(auto, unfolding(crate::specs::Retracing::with_file_taken))]
    fn place_of(&mut self, alloc: Global, line: &'a MapsLine) -> Result<usize, CallError>
        requires { AreLinesTaken (what_taken self.old) }
        ensures place { Gives (λ place. (what_taken self.new, place)) result (with_file_taken (what_taken self.old) line.now) }
        ensures memory { result ≡ Err CallError.NoMemory → length self.old.named.items < MOST_FILES }
        ensures known { IsSome (first_line_of_file (what_taken self.old).named line.now) → IsOk result }
    {
        match file_place(&self.named, line) {
            Some(place) => Ok(place),
            None => {
                let place = self.named.len();
                match self.add_file(alloc, line) {
                    Ok(()) => Ok(place),
                    Err(error) => Err(error),
                }
            }
        }
    }

    /// Takes the file of a line that shows it first. Where there is no room for one more, memory does not run out.
    #[tactic(auto, unfolding(crate::specs::Retracing::with_next_file))]
    fn add_file(&mut self, alloc: Global, line: &'a MapsLine) -> Result<(), CallError>
        requires { AreLinesTaken (what_taken self.old) }
        ensures file { Gives (λ _. what_taken self.new) result (with_next_file (what_taken self.old) line.now) }
        ensures memory { result ≡ Err CallError.NoMemory → length self.old.named.items < MOST_FILES }
    {
        let place = self.named.len();
        if MOST_FILES <= place {
            return Err(CallError::Bad(Cause::NotOurs));
        }
        let fd = FIRST_DESCRIPTOR + place as u32;
        let files = match files_opened(alloc, fd, line) {
            Ok(files) => files,
            Err(NoMemory) => return Err(CallError::NoMemory),
        };
        if !are_one_file(fd, files.items()) {
            return Err(CallError::Bad(Cause::NotOurs));
        }
        self.named.push(line)?;
        self.opened.push(files)?;
        Ok(())
    }
}

/// Appends the area of a line that shows these files, none or one, or says that the line is not ours. Only a line that may be mapped
/// takes memory.
#[tactic(auto, unfolding(crate::specs::Retracing::areas_with, crate::specs::Retracing::is_ours))]
fn push_area(
    alloc: Global,
    areas: &mut Vec<Record>,
    files: &Files,
    object: u32,
    line: &MapsLine,
    text: &[u8],
) -> Result<(), CallError>
    requires files { length files.now ≤ 1 }
    requires object { object ≤ MOST_FILES }
    ensures area { Gives (λ _. areas.new.items) result (areas_with areas.old.items files.now object line.now text.now) }
    ensures memory { result ≡ Err CallError.NoMemory → may_map areas.old.items object line.now ≡ true }
{
    if !may_map(areas, object, line) {
        return Err(CallError::Bad(Cause::NotOurs));
    }
    let shows = match is_text_of(alloc, files, line, text) {
        Ok(shows) => shows,
        Err(NoMemory) => return Err(CallError::NoMemory),
    };
    if shows {
        areas.push(area_of(object, line))?;
        Ok(())
    } else {
        Err(CallError::Bad(Cause::NotOurs))
    }
}
