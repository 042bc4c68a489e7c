ghost use Rattle.std.specs.Prelude.{◌≡◌, ◌<◌, ◌^◌, ◌+◌, ◌-◌, ◌⊎◌, ◌∷◌, [], ℕ, List, true, false, IfSome, IsSomeAnd, Some};
ghost use Rattle.std.specs.Io.KnownBytes.{Keeps, IsAtEnd};
ghost use Rattle.text_lexer.specs.declared.error.Cause.{Cause};
ghost use Rattle.io_edge.specs.Edge.{FailedLast};
ghost use Rattle.mm_space.specs.Closing.{ClosedView};
ghost use Rattle.vma_replay.specs.declared.words.Mode.TheVariants.{Serial};
ghost use Rattle.vma_replay.specs.Jobs.{are_accepted, are_tried, job_of_words};
ghost use Rattle.vma_replay.specs.Replaying.{mode_of_words, most_of_words, opens_a_space, reads_the_source, work_of};
ghost use Rattle.vma_replay.specs.Replaying.{status_of, ReadsEnough};
ghost use Rattle.vma_replay.specs.Replaying.{GivesAll, GivesSerialOutput, GivesBeginning, GivesNothing, GivesProperBeginning, OfInput};

use crate::answering::answer_without_space;
use crate::generating::give_summary;
use crate::giving::give_run;
use crate::reading::read_source;
use crate::replayed::Replayed;
use crate::status::Status;
use crate::words::Run;
use io_edge::{Gate, Sink, Source};
use std::alloc::Global;
use std::sync::Wait;
use std::thread::Threads;

/// Replays a trace. `words` are the words after the program's name. In the modes `serial` and `threads`, each a word alone, the trace is
/// read from a source, and the sink is given every reply and the final list of areas: `serial` runs the lines in their order, and
/// `threads` those of each thread of the trace in a thread of its own, where the gate is called before and after each line. A thread that
/// a line forks is the one thread of a child space, which begins with what its parent had there, and runs once the parent is closed.
/// `steps` alone reads a script from the source, and gives what each of its steps results in and the state after it; no space is opened.
/// `query ADDRESS` and `retrace` read a maps text, as proc_pid_maps(5) has it: the first gives the line of the area that covers an address,
/// in bytes, or of the next one, or `none`; the second the trace that makes these areas. `check` reads a trace, a line `==` and a text, and
/// gives `legal` where the text is that of a legal history of the trace, and else `bad` and the number of its first bad line. `generate COUNT
/// SEED` runs the generated trace of COUNT operations, at most 400,000, and a seed in the order of its lines, and gives its summary; the
/// source is left as it is.
///
/// On `Words`, `Trace` and `ReadFault` nothing is given to the sink. On `WriteFault` what was given is a beginning of an
/// output, and not all of it; on `NoMemory` a beginning. Words that are not accepted leave the source untouched too. Words that begin with
/// no mode, or of which one begins with `-`, are answered `Words` whatever the memory.
/// On `Done` the closed runs are handed out where a trace was run, the parent's first and then those of its children by ascending number,
/// and else none.
pub fn replay<R: Threads + Wait + Sync, S: Source, K: Sink, G: Gate>(
    rt: &R,
    alloc: Global,
    words: &[String],
    source: &mut S,
    sink: &mut K,
    gate: &G,
) -> Replayed
    requires source_count_has_room { (S.seen source.old).faults < 2 ^ 64 - 1 }
    requires sink_count_has_room { (K.seen sink.old).faults < 2 ^ 64 - 1 }

    // The headline: in a mode, what was given is the text of the histories of the closed runs, of the parent and of each child, and these
    // are legal and of the trace that was read; in `steps`, `query` and `retrace`, it is the text that the input is turned into; in `check`, it
    // tells rightly what is judged of the input's text; in `generate`, it is the summary of the generated trace, which was run once, in the
    // order of its lines.
    ensures output { result.status ≡ Status.Done → IsSomeAnd (job_of_words words.now) (λ job.
        GivesAll (work_of job) (S.seen source.old) (S.seen source.new) result.runs (K.seen sink.old) (K.seen sink.new)) }
    ensures serial_output { result.status ≡ Status.Done → mode_of_words words.now ≡ Some Serial
        → OfInput (most_of_words words.now) (S.seen source.old) (S.seen source.new) (λ input.
        GivesSerialOutput input result.runs (K.seen sink.old) (K.seen sink.new)) }
    ensures some_run { result.status ≡ Status.Done → opens_a_space words.now ≡ true → (parent : ClosedView) × (children : List ClosedView)
        × (result.runs ≡ parent ∷ children) × (reads_the_source words.now ≡ false → children ≡ []) }
    ensures no_run { (result.status ≡ Status.Done) ⊎ (result.runs ≡ []) }
    ensures no_space { opens_a_space words.now ≡ false → result.runs ≡ [] }
    ensures counts_stand_still { result.status ≡ Status.Done → ((S.seen source.new).faults ≡ (S.seen source.old).faults) × ((K.seen sink.new).faults ≡ (K.seen sink.old).faults) }

    // What was read: in all but `generate` all of the input, or enough to tell that it is not of its form; and else nothing.
    ensures whole_input_read { reads_the_source words.now ≡ true → result.status ≡ Status.Done → IsAtEnd (S.seen source.new).left }
    ensures enough_read { reads_the_source words.now ≡ true → (result.status ≡ Status.Done) ⊎ ((line : ℕ) × (cause : Cause) × (result.status ≡ Status.Trace line cause))
        → IsSomeAnd (most_of_words words.now) (λ most. ReadsEnough most (S.seen source.old).left (S.seen source.new).left) }
    ensures source_untouched { reads_the_source words.now ≡ false → source.new ≡ source.old }

    // When each other answer comes.
    ensures words { result.status ≡ Status.Words → are_accepted words.now ≡ false }
    ensures words_refused { are_accepted words.now ≡ false → (result.status ≡ Status.Words) ⊎ (result.status ≡ Status.NoMemory) }
    ensures words_untried { are_tried words.now ≡ false → result.status ≡ Status.Words }
    ensures words_refused_untouched { are_accepted words.now ≡ false → (source.new ≡ source.old) × (sink.new ≡ sink.old) }
    ensures trace { (line : ℕ) (cause : Cause) → result.status ≡ Status.Trace line cause → (reads_the_source words.now ≡ true)
        × ((S.seen source.new).faults ≡ (S.seen source.old).faults)
        × IsSomeAnd (job_of_words words.now) (λ job. IfSome (S.seen source.old).left (λ input.
        (work_of job).fault input ≡ Some (record { line = line; cause = cause }))) }
    ensures read_fault { result.status ≡ Status.ReadFault → (reads_the_source words.now ≡ true) × ((S.seen source.new).faults ≡ (S.seen source.old).faults + 1) }
    ensures write_fault { result.status ≡ Status.WriteFault → ((S.seen source.new).faults ≡ (S.seen source.old).faults) × ((K.seen sink.new).faults ≡ (K.seen sink.old).faults + 1) }
    ensures source_not_called_again { result.status ≡ Status.ReadFault → FailedLast (S.seen source.new).just_failed }
    ensures sink_not_called_again { result.status ≡ Status.WriteFault → FailedLast (K.seen sink.new).just_failed }
    ensures no_memory { result.status ≡ Status.NoMemory → ((S.seen source.new).faults ≡ (S.seen source.old).faults) × ((K.seen sink.new).faults ≡ (K.seen sink.old).faults) }
    ensures complete { reads_the_source words.now ≡ true → (S.seen source.new).faults ≡ (S.seen source.old).faults → (K.seen sink.new).faults ≡ (K.seen sink.old).faults →
        IsSomeAnd (job_of_words words.now) (λ job. IfSome (S.seen source.old).left (λ input.
        (result.status ≡ Status.NoMemory) ⊎ (result.status ≡ status_of ((work_of job).fault input)))) }
    ensures generate_complete { are_accepted words.now ≡ true → reads_the_source words.now ≡ false → (K.seen sink.new).faults ≡ (K.seen sink.old).faults →
        (result.status ≡ Status.NoMemory) ⊎ (result.status ≡ Status.Done) }

    // What was given where not all was.
    ensures write_fault_gives_a_proper_front { result.status ≡ Status.WriteFault
        → IsSomeAnd (job_of_words words.now) (λ job. GivesProperBeginning (work_of job) (S.seen source.old) (S.seen source.new) (K.seen sink.old) (K.seen sink.new)) }
    ensures no_memory_gives_a_front { result.status ≡ Status.NoMemory → Keeps (K.seen sink.old).written (K.seen sink.new).written
        ⊎ IsSomeAnd (job_of_words words.now) (λ job. GivesBeginning (work_of job) (S.seen source.old) (S.seen source.new) (K.seen sink.old) (K.seen sink.new)) }
    ensures nothing_given { GivesNothing result.status → sink.new ≡ sink.old }
{
    match answer_without_space(alloc, words, source, sink) {
        Ok(status) => Replayed::without_runs(alloc, status),
        Err(Run::Replay(mode)) => match read_source(alloc, source) {
            Ok(trace) => give_run(rt, alloc, mode, sink, &trace, gate),
            Err(status) => Replayed::without_runs(alloc, status),
        },
        Err(Run::Generate { count, seed }) => give_summary(rt, alloc, count, seed, sink),
    }
}
