//! Laws of the definitions. Nothing runs here.
ghost use Rattle.std.specs.Prelude.{◌≡◌, ◌<◌, ◌^◌, ◌∷◌, ◌++◌, [], ℕ, List, Ok, length};
ghost use Rattle.mm_types.specs.declared.config.Config.{Config};
ghost use Rattle.area_rules.specs.Steps.{opening};
ghost use Rattle.trace_reader.specs.Grammar.{config_of, trace_of};
ghost use Rattle.trace_reader.specs.Lines.{SoFar};
ghost use Rattle.trace_reader.specs.Values.{children_of};
ghost use Rattle.trace_reader.specs.declared.trace.Trace.{Trace};
ghost use Rattle.trace_reader.specs.declared.trace.TraceLine.{TraceLine};
ghost use Rattle.history.specs.Histories.{gather, serial_history, space_after_all};
ghost use Rattle.output.specs.Output.{listed_text, serial_output};
ghost use Rattle.live_session.specs.declared.held.TheConstants.{MOST_KEPT, PIECE};
ghost use Rattle.live_session.specs.Items.{IsTextOfItem, after_operations, items_made, output_in_turn};
ghost use Rattle.live_session.specs.Sessions.{IsWithinLimits, line_answer, answers_of, session_begun, opened_by, line_asks, session_after, session_text, session_space};

use crate::asking::Asked;

/// A read asks for at most 8,192 bytes, and at most 4,097 of a line are kept, one more than a line may have.
pub fn session_pieces()
    ensures piece { PIECE ≡ 8192 }
    ensures kept { MOST_KEPT ≡ 4097 }
{}

/// What was answered stays: the answers to a longer input begin with those to its whole lines.
pub fn answers_stay()
    ensures { (input more : List ℕ) → (rest : List ℕ) × (answers_of (input ++ more) ≡ answers_of input ++ rest) }
{}

/// All that is given for an input that ends begins with the answers to its whole lines.
pub fn session_gives_a_front()
    ensures { (input : List ℕ) → (rest : List ℕ) × (session_text input ≡ answers_of input ++ rest) }
{}

/// An input that is a trace in which no line forks is answered by the text of the item of each operation, in the order of the lines, and then
/// the list after all of them. `serial` prints these items, of each version the reads by ascending thread, and the same list. Where that is the
/// order of the lines, both texts are equal.
pub fn a_trace_is_answered_by_its_items()
    ensures session { (input : List ℕ) (trace : Trace) → trace_of input ≡ Ok trace → children_of trace.lines ≡ []
        → session_text input ≡ output_in_turn trace }
    ensures serial { (trace : Trace) → serial_output trace ≡ listed_text trace.config.files trace.lines (gather (items_made trace.config trace.lines))
        (space_after_all trace.config (opening trace.config) trace.lines).areas }
    ensures equal { (input : List ℕ) (trace : Trace) → trace_of input ≡ Ok trace → children_of trace.lines ≡ []
        → gather (items_made trace.config trace.lines) ≡ items_made trace.config trace.lines → session_text input ≡ serial_output trace }
{}

/// Whatever the lines of a session, its space is that of the model after the operations since the last `new`, and the answer to an operation
/// is the text of its item. So is that to a read of the list for which the lines have no room.
pub fn operations_are_answered_by_items()
    ensures spaces { (lines : List (List ℕ)) → session_space (session_after session_begun lines)
        ≡ after_operations (opened_by (session_after session_begun lines).so_far) (session_after session_begun lines).so_far.lines }
    ensures operations { (lines : List (List ℕ)) (text : List ℕ) (line : TraceLine) (after : SoFar)
        → line_asks (session_after session_begun lines) text ≡ Ok (Asked.Operation line, after)
        → (after.lines ≡ (session_after session_begun lines).so_far.lines ++ line ∷ [])
        × IsTextOfItem (config_of after) (session_after session_begun lines).so_far.lines line (line_answer (session_after session_begun lines) text).text }
    ensures lists { (lines : List (List ℕ)) (text : List ℕ) (line : TraceLine) (after : SoFar)
        → line_asks (session_after session_begun lines) text ≡ Ok (Asked.Areas line, after)
        → IsTextOfItem (config_of after) (session_after session_begun lines).so_far.lines line (line_answer (session_after session_begun lines) text).text }
    ensures gathered { (config : Config) (lines : List TraceLine) → serial_history config lines ≡ gather (items_made config lines) }
{}

/// However long a session is, a space of it has no more operations and files than a trace.
pub fn a_space_is_within_limits()
    ensures { (lines : List (List ℕ)) → length lines < 2 ^ 64 → IsWithinLimits (session_after session_begun lines) }
{}
