//! Laws of child spaces. Each is the contract of a function that does nothing.

ghost use Rattle.std.specs.Prelude.{◌≡◌, ◌<◌, ◌≤◌, ◌^◌, ℕ, List, ◌++◌, length, take, slice_get, All, Contains, None, Some};
ghost use Rattle.mm_types.specs.declared.call.Entry.{Entry};
ghost use Rattle.mm_types.specs.declared.call.Seen.{Seen};
ghost use Rattle.mm_types.specs.declared.config.Config.{Config};
ghost use Rattle.trace_reader.specs.declared.trace.TraceLine.{TraceLine};
ghost use Rattle.trace_reader.specs.declared.trace.Trace.{Trace};
ghost use Rattle.trace_reader.specs.Values.{AreNumbered, AreNamesRight, IsTraceValue, children_of};
ghost use Rattle.area_rules.specs.Steps.{after};
ghost use Rattle.history.specs.declared.items.Item.{Item};
ghost use Rattle.history.specs.Histories.{journal_of, IsLegalHistory};
ghost use Rattle.mm_fork.specs.Children.{inherited, child_history_of, child_trace, space_from, IsRightOver, IsChildRun};
ghost use Rattle.history.specs.Parents.{parent_trace};
ghost use Rattle.history.specs.SpaceLines.{child_lines};

/// What a child inherits makes the space that its parent had at the fork: with other callers, the calls are the same.
pub fn inherited_entries_keep_the_space()
    ensures { (config : Config) (journal : List Entry) (version : ℕ)
        → after config (inherited journal version) ≡ after config (take version journal) }
{}

/// The journal and the logs of a finished run of a child, gathered, are its history, which is legal behind what it inherited.
pub fn child_run_makes_a_legal_history()
    ensures legal { (config : Config) (before : List Entry) (lines : List TraceLine) (callers : ℕ) (own : List Entry) (logs : List (List Seen))
        → IsChildRun config before lines callers own logs → callers ≤ 2 ^ 32 → AreNumbered lines → AreNamesRight lines
        → IsLegalHistory config before lines (child_history_of (length before) (before ++ own) logs) }
    ensures journal { (config : Config) (before : List Entry) (lines : List TraceLine) (callers : ℕ) (own : List Entry) (logs : List (List Seen))
        → IsChildRun config before lines callers own logs → callers ≤ 2 ^ 32
        → journal_of (child_history_of (length before) (before ++ own) logs) ≡ own }
{}

/// Each item of a child's history is right over the space at the fork with the child's own earlier calls, and nobody else's.
pub fn child_answers_by_its_own_calls()
    ensures { (config : Config) (before : List Entry) (lines : List TraceLine) (items : List Item) (place : ℕ) (item : Item)
        → IsLegalHistory config before lines items → slice_get items place ≡ Some item
        → IsRightOver config (space_from config (after config before) (journal_of (take place items))) item.content }
{}

/// Two parents whose spaces agree at the fork give a child the same history: it is determined by its lines and the space at the fork.
pub fn children_of_equal_spaces_answer_alike()
    ensures { (config : Config) (before other : List Entry) (lines : List TraceLine) (child : ℕ) (items others : List Item)
        → after config before ≡ after config other
        → IsLegalHistory config before (child_lines lines child) items → IsLegalHistory config other (child_lines lines child) others
        → items ≡ others }
{}

/// The lines of the parent make a trace by themselves, and so do those of a child, which are of its one thread and name no line.
pub fn spaces_have_traces()
    ensures parent { (trace : Trace) → IsTraceValue trace → IsTraceValue (parent_trace trace) }
    ensures child { (trace : Trace) (child : ℕ) → IsTraceValue trace → Contains (children_of trace.lines) child
        → IsTraceValue (child_trace trace child) }
    ensures alone { (trace : Trace) (child : ℕ) → All (λ line. line.thread ≡ child) (child_lines trace.lines child) }
    ensures unnamed { (trace : Trace) (child : ℕ) → IsTraceValue trace → Contains (children_of trace.lines) child
        → All (λ line. line.after ≡ None) (child_lines trace.lines child) }
{}
