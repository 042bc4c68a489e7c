//! Laws of histories, and of the history that the lines of a trace make when they run in their order. Each is the contract of a
//! function that does nothing.

ghost use Rattle.std.specs.Prelude.{◌≡◌, ℕ, List, [], ◌++◌, map, take, slice_get, filter, nat_eq, true, false, All, IsSortedByKey, Some};
ghost use Rattle.std.specs.List.Sorted.{IsStableByKey};
ghost use Rattle.std.specs.Ordering.{nat_cmp};
ghost use Rattle.mm_types.specs.declared.call.Entry.{Entry};
ghost use Rattle.mm_types.specs.declared.config.Config.{Config};
ghost use Rattle.trace_reader.specs.Values.{IsLineValue, AreNumbered, AreNamesRight};
ghost use Rattle.history.specs.declared.answers.BadEntry.{BadEntry};
ghost use Rattle.history.specs.declared.callers.TheConstants.{MOST_THREADS};
ghost use Rattle.history.specs.declared.items.Item.{Item};
ghost use Rattle.trace_reader.specs.declared.trace.TraceLine.{TraceLine};
ghost use Rattle.area_rules.specs.Tables.{AddressSpace};
ghost use Rattle.area_rules.specs.Steps.{opening, after};
ghost use Rattle.history.specs.Histories.{occurs, caller_of, AskThemselves, makes_call, journal_of, line_answered, IsLegalHistory, serial_history, space_after_all, sort_by_caller, leading_reads, after_reads, answered_by, answered};
ghost use Rattle.history.specs.Checking.{IsHistoryRefused};

/// A trace has at most 64 threads.
pub fn most_threads()
    ensures { MOST_THREADS ≡ 64 }
{}

/// The history of a trace in the order of its lines goes version by version: the reads before a call, by caller, and
/// then the call. Each of its items answers the line that it stands with, where each line that names a call is what asks
/// for it, and it ends in the address space after all lines.
pub fn serial_history_by_version()
    ensures items { (config : Config) (lines : List TraceLine)
        → serial_history config lines ≡ map (λ pair. pair.1) (answered config lines (opening config) 0 [] lines) }
    ensures lines { (config : Config) (lines : List TraceLine) (place : ℕ) (pair : TraceLine × Item)
        → AskThemselves lines → slice_get (answered config lines (opening config) 0 [] lines) place ≡ Some pair
        → line_answered lines (take place (serial_history config lines)) pair.1 ≡ Some pair.0 }
    ensures space { (config : Config) (lines : List TraceLine)
        → after config (journal_of (serial_history config lines)) ≡ space_after_all config (opening config) lines }
    ensures groups { (config : Config) (trace : List TraceLine) (space : AddressSpace) (version : ℕ) (pending : List TraceLine)
        (lines : List TraceLine) → answered config trace space version pending lines
        ≡ map (answered_by config trace space version) (sort_by_caller trace (pending ++ leading_reads config space lines))
        ++ answered config trace space version [] (after_reads config space lines) }
    ensures parts { (config : Config) (space : AddressSpace) (lines : List TraceLine)
        → leading_reads config space lines ++ after_reads config space lines ≡ lines }
    ensures reads { (config : Config) (space : AddressSpace) (lines : List TraceLine)
        → All (λ line. makes_call config space line.op ≡ false) (leading_reads config space lines) }
{}

/// A list of lines is the old one sorted by caller where it is sorted by caller and the lines of each caller are those of
/// the old list, in the same order. Any stable sort by caller makes it, and so does one by thread, for lines of the trace.
pub fn sort_by_caller_is_stable()
    ensures callers { (trace old new : List TraceLine) → IsSortedByKey (λ line. caller_of trace line.thread) nat_cmp new
        → ((caller : ℕ) → filter (λ line. nat_eq (caller_of trace line.thread) caller) new
        ≡ filter (λ line. nat_eq (caller_of trace line.thread) caller) old)
        → new ≡ sort_by_caller trace old }
    ensures stable { (trace old new : List TraceLine) → IsSortedByKey (λ line. caller_of trace line.thread) nat_cmp new
        → IsStableByKey (λ line. caller_of trace line.thread) nat_cmp old new → new ≡ sort_by_caller trace old }
    ensures threads { (trace old new : List TraceLine) → All (λ line. occurs trace line.thread ≡ true) old
        → IsSortedByKey (λ line. line.thread) nat_cmp new → IsStableByKey (λ line. line.thread) nat_cmp old new
        → new ≡ sort_by_caller trace old }
{}

/// The lines of a trace, run in their order, make a legal history of the trace, where each line that names a call is what asks for it, the
/// numbers of lines rise, and what a line names is an earlier call.
pub fn serial_history_is_legal()
    ensures { (config : Config) (lines : List TraceLine) → AskThemselves lines → AreNumbered lines → AreNamesRight lines
        → IsLegalHistory config [] lines (serial_history config lines) }
{}

/// A history that is refused is not legal, so `check` accepts exactly the legal histories.
pub fn refused_is_not_legal()
    ensures { (config : Config) (start : List Entry) (lines : List TraceLine) (items : List Item) (bad : BadEntry)
        → IsHistoryRefused config start lines items bad → IsLegalHistory config start lines items → ⊥ }
{}

/// Lines that a trace has, whose calls are no touches, ask for the calls that they name.
pub fn lines_of_a_trace_ask_for_themselves()
    ensures { (lines : List TraceLine) → All IsLineValue lines → AskThemselves lines }
{}
