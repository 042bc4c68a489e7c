//! Whether a text is a legal output of a trace, found in one pass over the text.
ghost use Rattle.std.specs.Prelude.{ℕ, ◌≡◌, ◌<◌, List, IfOk, OnOk, IfErr, IsErrOf, MatchOption, length};
ghost use Rattle.mm_types.specs.Config.{IsValidConfig};
ghost use Rattle.trace_reader.specs.Values.{IsTraceValue};
ghost use Rattle.history.specs.Parents.{parent_trace};
ghost use Rattle.output.specs.Judgements.{IsJudged, IsLegalText};
ghost use Rattle.output.specs.Internal.Judging.{IsEnded, IsLineLeft, IsStopRight, IsTextWalked, NoneComes, TellsGoodItem, TheOneComes, judgement_of, trace_over};

use crate::answers::run_op;
use crate::given::Given;
use crate::judgement::Judgement;
use crate::stop::Stop;
use history::{Progress, SpaceLines};
use mm_types::{Config, NoMemory};
use plain_space::PlainSpace;
use std::alloc::Global;
use trace_reader::{Trace, TraceLine};

/// A walk over a text: how far the callers are and the address space, after the items that were compared.
#[derive(Drop)]
struct Walk<'a> {
    progress: Progress<'a>,
    space: PlainSpace<'a>,
    given: Given<'a>,
    /// The line that the next one of the text should be.
    line: Vec<u8>,
}

/// Judges a text: `Legal` exactly where it is the text of a history that is legal and of the trace, of one that forks of the parent's lines,
/// and else the first bad line, counted from 1. That is the least number such that so many lines of the text are not the first of a right
/// text; a right text is that of items that can stand and are right, and of the final list where no line is left. Where there is no such
/// number, it is one past the last line. Up to the first bad line each call is made once and each line is printed once, and the areas are
/// listed only where the text is to show them. Fails only where memory runs out.
pub fn judge_output(alloc: Global, trace: &Trace, text: &[u8]) -> Result<Judgement, NoMemory>
    requires { IsTraceValue trace.now }
    ensures { IfOk result (IsJudged (parent_trace trace.now) text.now) }
{
    let lines = SpaceLines::parent_of(alloc, trace)?;
    let mut walk = Walk::new(alloc, &trace.config, &lines, text)?;
    judgement_of(walk.judge(alloc, &trace.config, &lines))
}

/// What is judged of a text that was walked over.
fn judgement_of(walked: Result<(), Stop>) -> Result<Judgement, NoMemory>
    ensures { result ≡ judgement_of walked }
{
    match walked {
        Ok(()) => Ok(Judgement::Legal),
        Err(Stop::Bad(line)) => Ok(Judgement::Bad { line }),
        Err(Stop::NoMemory) => Err(NoMemory),
    }
}

impl<'a> Walk<'a> {
    /// Before the first item.
    fn new(
        alloc: Global,
        config: &'a Config,
        lines: &'a SpaceLines<'_>,
        text: &'a [u8],
    ) -> Result<Walk<'a>, NoMemory>
        requires { IsValidConfig config.now }
        ensures { IfOk result (IsTextWalked (trace_over config.now lines.now) text.now) }
    {
        Ok(Walk {
            progress: Progress::new(alloc, lines)?,
            space: PlainSpace::new(alloc, config)?,
            given: Given::of(text),
            line: Vec::new(alloc),
        })
    }

    /// Compares the items that are left, the final list and the end.
    fn judge(&mut self, alloc: Global, config: &Config, lines: &SpaceLines<'_>) -> Result<(), Stop>
        requires { (text : List ℕ) × IsTextWalked (trace_over config.now lines.now) text self.old }
        ensures ok { (text : List ℕ) → IsTextWalked (trace_over config.now lines.now) text self.old
            → OnOk result (IsLegalText (trace_over config.now lines.now) text) }
        ensures bad { (text : List ℕ) → IsTextWalked (trace_over config.now lines.now) text self.old
            → IfErr result (IsStopRight (trace_over config.now lines.now) text) }
    {
        while self.progress.has_line_left() {
            self.item(alloc, config, lines)?;
        }
        self.end(alloc, config, lines)
    }

    /// Compares the next item, where a line of the trace is left. Memory is taken only where the text tells the line of an item that is
    /// good next.
    fn item(&mut self, alloc: Global, config: &Config, lines: &SpaceLines<'_>) -> Result<(), Stop>
        requires walked { (text : List ℕ) × IsTextWalked (trace_over config.now lines.now) text self.old }
        requires left { IsLineLeft lines.now self.old }
        ensures ok { (text : List ℕ) → IsTextWalked (trace_over config.now lines.now) text self.old
            → OnOk result (IsTextWalked (trace_over config.now lines.now) text self.new) }
        ensures bad { (text : List ℕ) → IsTextWalked (trace_over config.now lines.now) text self.old
            → IfErr result (IsStopRight (trace_over config.now lines.now) text) }
        ensures memory { IsErrOf result Stop.NoMemory
            → (text : List ℕ) (walked : IsTextWalked (trace_over config.now lines.now) text self.old)
            → TellsGoodItem (trace_over config.now lines.now) walked.items self.old.given.rest.now }
        ensures shorter { OnOk result (length self.new.given.rest.now < length self.old.given.rest.now) }
    {
        if self.given.is_at_end() {
            return Err(self.given.bad());
        }
        let Some((line, caller)) = self.line_to_come(config, lines) else {
            return Err(self.given.bad());
        };
        let answer = run_op(&mut self.space, line.op);
        let is_call = answer.is_call();
        if !self.progress.is_in_order(caller, is_call) {
            return Err(self.given.bad());
        }
        let version = self.progress.version_with(is_call);
        self.given.expect_item(
            alloc,
            &mut self.line,
            &config.files,
            &line,
            version,
            &answer,
            &self.space,
        )?;
        self.progress.pass(caller, is_call);
        Ok(())
    }

    /// The line that the next item answers, as the text tells, with its caller: if it is the next of that caller.
    fn line_to_come(&self, config: &Config, lines: &SpaceLines<'_>) -> Option<(TraceLine, u32)>
        ensures { (text : List ℕ) (walked : IsTextWalked (trace_over config.now lines.now) text self.now) → MatchOption result
            (NoneComes lines.now walked.items self.now.given.rest.now)
            (λ found. TheOneComes lines.now walked.items self.now.given.rest.now found.0 found.1) }
    {
        let number = self.given.number()?;
        self.progress.line_to_come(number)
    }

    /// Compares the final list, behind which nothing stands, where no line of the trace is left.
    fn end(&mut self, alloc: Global, config: &Config, lines: &SpaceLines<'_>) -> Result<(), Stop>
        requires walked { (text : List ℕ) × IsTextWalked (trace_over config.now lines.now) text self.old }
        requires ended { IsEnded lines.now self.old }
        ensures ok { (text : List ℕ) → IsTextWalked (trace_over config.now lines.now) text self.old
            → OnOk result (IsLegalText (trace_over config.now lines.now) text) }
        ensures bad { (text : List ℕ) → IsTextWalked (trace_over config.now lines.now) text self.old
            → IfErr result (IsStopRight (trace_over config.now lines.now) text) }
    {
        let listed = self
            .given
            .expect_maps(alloc, &mut self.line, &config.files, &self.space);
        self.given.expect_end(listed)
    }
}
