//! The lines that the items of a history answer.
ghost use Rattle.std.specs.Prelude.{◌≡◌, ◌++◌, [], ◌∷◌, IfOk, List, Some};
ghost use Rattle.trace_reader.specs.declared.trace.TraceLine.{TraceLine};
ghost use Rattle.history.specs.declared.items.Item.{Item};
ghost use Rattle.history.specs.Histories.{line_answered};
ghost use Rattle.output.specs.Answering.{AnswersNext, AreAnswered};

use history::{Item, SpaceLines, places_by_caller};
use mm_types::NoMemory;
use std::alloc::Global;
use trace_reader::TraceLine;

/// The lines of a trace while the items of a history go by: an item answers the next line of its caller.
#[derive(Drop)]
pub struct AnsweredLines<'a> {
    lines: &'a [TraceLine],
    /// The places of the lines of each caller.
    places: Vec<Vec<u32>>,
    /// How many lines of each caller are answered.
    answered: Vec<usize>,
}

impl<'a> AnsweredLines<'a> {
    /// Before the first item. Fails only where memory runs out.
    pub fn new(alloc: Global, lines: &'a SpaceLines<'_>) -> Result<AnsweredLines<'a>, NoMemory>
        ensures { IfOk result (AreAnswered lines.now []) }
    {
        let places = places_by_caller(alloc, lines)?;
        let answered = vec![in alloc; 0usize; places.len()]?;
        Ok(AnsweredLines {
            lines: lines.items(),
            places,
            answered,
        })
    }

    /// The line that the next item answers.
    pub fn next(&mut self, item: &Item) -> &'a TraceLine
        requires { AnswersNext self.old item.now }
        ensures { (lines : List TraceLine) (before : List Item) → AreAnswered lines before self.old
            → (line_answered lines before item.now ≡ Some result.now) × AreAnswered lines (before ++ item.now ∷ []) self.new }
    {
        let lines = self.lines;
        let caller = item.caller as usize;
        let place = self.places[caller][self.answered[caller]];
        self.answered[caller] += 1;
        &lines[place as usize]
    }
}
