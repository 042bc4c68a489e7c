//! Laws of finished runs, of the callers of a trace, and of what a caller did. Each is the contract of a function that does nothing.

ghost use Rattle.std.specs.Prelude.{◌≡◌, ◌<◌, ◌≤◌, ◌^◌, ℕ, List, [], ◌∷◌, ◌++◌, length, slice_index_or, sum, All};
ghost use Rattle.mm_types.specs.declared.call.Entry.{Entry};
ghost use Rattle.mm_types.specs.declared.call.Seen.{Seen};
ghost use Rattle.mm_types.specs.declared.config.Config.{Config};
ghost use Rattle.trace_reader.specs.declared.trace.TraceLine.{TraceLine};
ghost use Rattle.trace_reader.specs.Values.{AreNumbered, AreNamesRight};
ghost use Rattle.area_rules.specs.Journals.{calls_by, version_of};
ghost use Rattle.history.specs.Histories.{caller_of, lines_of, asks_for, op_asked, journal_of, IsLegalHistory, serial_history};
ghost use Rattle.history.specs.Runs.{content_of, own_of, ops_of, history_of, HasGrown, AreMade, IsLegalAfter, IsRun};
ghost use Rattle.history.specs.Labels.{label_of, IsSerialRun};

/// What a caller did, after one operation more: a call at the end of the journal adds that call, a read of the whole journal adds that read,
/// and entries of others add nothing. A caller with no entries and no log did nothing.
pub fn one_operation_more()
    ensures call { (old rest : List Entry) (log : List Seen) (entry : Entry) (caller : ℕ) → calls_by caller rest ≡ []
        → All (λ read. version_of read ≤ length old) log → entry.caller ≡ caller
        → ops_of (own_of caller ((old ++ rest) ++ entry ∷ []) log) ≡ ops_of (own_of caller old log) ++ asks_for entry.call ∷ [] }
    ensures read { (old rest : List Entry) (log : List Seen) (read : Seen) (caller : ℕ) → calls_by caller rest ≡ []
        → All (λ read. version_of read ≤ length old) log → version_of read ≡ length (old ++ rest)
        → ops_of (own_of caller (old ++ rest) (log ++ read ∷ [])) ≡ ops_of (own_of caller old log) ++ op_asked (content_of read) ∷ [] }
    ensures idle { (old rest : List Entry) (log : List Seen) (caller : ℕ) → calls_by caller rest ≡ []
        → own_of caller (old ++ rest) log ≡ own_of caller old log }
    ensures none { (caller : ℕ) → own_of caller [] [] ≡ [] }
{}

/// Past the last caller of a trace whose threads are below a number nobody has a line.
pub fn no_lines_past_the_callers()
    ensures { (threads : ℕ) (lines : List TraceLine) (caller : ℕ) → All (λ line. line.thread < threads) lines
        → caller_of lines threads ≤ caller → lines_of lines caller ≡ [] }
{}

/// Callers have no more lines together than there are.
pub fn callers_share_the_lines()
    ensures { (lines : List TraceLine) (counts : List ℕ) → ((caller d : ℕ) → caller < length counts
        → slice_index_or counts caller d ≡ length (lines_of lines caller)) → sum counts ≤ length lines }
{}

/// The journal and the logs of a finished run, gathered, are a legal history of its lines, whose journal is the run's.
pub fn run_makes_a_legal_history()
    ensures history { (config : Config) (start : List Entry) (lines : List TraceLine) (callers : ℕ) (journal : List Entry)
        (logs : List (List Seen)) → IsRun config start lines callers journal logs → callers ≤ 2 ^ 32 → AreNumbered lines → AreNamesRight lines
        → IsLegalHistory config start lines (history_of journal logs) }
    ensures journal { (config : Config) (start : List Entry) (lines : List TraceLine) (callers : ℕ) (journal : List Entry)
        (logs : List (List Seen)) → IsRun config start lines callers journal logs → callers ≤ 2 ^ 32
        → journal_of (history_of journal logs) ≡ journal }
{}

/// In a legal journal the operation of each entry makes its call at its place, where each touch of a page grew an area.
pub fn touches_that_grew_are_made()
    ensures { (config : Config) (start : List Entry) (journal : List Entry) → IsLegalAfter config start journal → All HasGrown journal
        → AreMade config start journal }
{}

/// Where one caller ran all lines of a trace, one after the other, its history with the callers of the lines is the history of the trace in
/// the order of its lines, and so the same at each run.
pub fn labels_make_the_serial_history()
    ensures { (config : Config) (lines : List TraceLine) (journal : List Entry) (log : List Seen)
        → IsSerialRun config lines journal log → label_of lines journal log ≡ serial_history config lines }
{}
