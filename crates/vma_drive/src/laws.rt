//! Laws of closed runs. Each is the contract of a function that does nothing.

ghost use Rattle.std.specs.Prelude.{◌≡◌, [], List, false, is_some};
ghost use Rattle.std.specs.List.{list_any};
ghost use Rattle.mm_space.specs.Closing.{ClosedView};
ghost use Rattle.trace_reader.specs.Values.{IsTraceValue, child_of};
ghost use Rattle.trace_reader.specs.declared.trace.Trace.{Trace};
ghost use Rattle.trace_reader.specs.declared.trace.TraceLine.{TraceLine};
ghost use Rattle.history.specs.declared.answers.BadEntry.{BadEntry};
ghost use Rattle.history.specs.CallerPlaces.{callers_of};
ghost use Rattle.history.specs.Checking.{IsHistoryRefused};
ghost use Rattle.history.specs.Histories.{IsLegalHistory};
ghost use Rattle.history.specs.Parents.{parent_lines};
ghost use Rattle.history.specs.Runs.{IsRun, history_of};

/// Where no line forks the lines of the parent are all: so `drive`, `in_order`, `run_serial` and `run_threads` run each line of such a trace.
pub fn all_lines_are_the_parents_where_none_forks()
    ensures { (lines : List TraceLine) → list_any (λ line. is_some (child_of line.op)) lines ≡ false → parent_lines lines ≡ lines }
{}

/// What `run_threads` left of a trace, gathered, is a legal history of the trace, also of one that forks, and there is no entry that `check`
/// could call bad: so `check` accepts it, but where memory runs out.
pub fn gathered_runs_are_accepted()
    ensures legal { (trace : Trace) (run : ClosedView) → IsTraceValue trace
        → IsRun trace.config [] (parent_lines trace.lines) (callers_of (parent_lines trace.lines)) run.journal run.logs
        → IsLegalHistory trace.config [] (parent_lines trace.lines) (history_of run.journal run.logs) }
    ensures accepted { (trace : Trace) (run : ClosedView) (bad : BadEntry) → IsTraceValue trace
        → IsRun trace.config [] (parent_lines trace.lines) (callers_of (parent_lines trace.lines)) run.journal run.logs
        → IsHistoryRefused trace.config [] (parent_lines trace.lines) (history_of run.journal run.logs) bad → ⊥ }
{}
