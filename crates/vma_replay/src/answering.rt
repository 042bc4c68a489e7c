//! Words for which no space is opened. Nothing here has leave to start threads or to wait for one, so each of these answers comes once its reads
//! and writes have.
ghost use Rattle.std.specs.Prelude.{◌≡◌, ◌<◌, ◌^◌, ◌+◌, ◌-◌, ◌⊎◌, ℕ, [], IfErr, IfOk, IfSome, IsSomeAnd, Some, true, false};
ghost use Rattle.std.specs.Io.KnownBytes.{Keeps, IsAtEnd};
ghost use Rattle.text_lexer.specs.declared.error.Cause.{Cause};
ghost use Rattle.io_edge.specs.Edge.{FailedLast};
ghost use Rattle.vma_replay.specs.Internal.Giving.{GivesThis, IsRunPrinted};
ghost use Rattle.vma_replay.specs.Jobs.{IsInLimits, are_accepted, are_tried, job_of_run, job_of_words};
ghost use Rattle.vma_replay.specs.Replaying.{most_of_words, opens_a_space, reads_the_source, work_of};
ghost use Rattle.vma_replay.specs.Replaying.{status_of, ReadsEnough};
ghost use Rattle.vma_replay.specs.Replaying.{GivesAll, GivesBeginning, GivesNothing, GivesProperBeginning};

use crate::reading::{check_source, convert_source};
use crate::status::Status;
use crate::words::{Job, Run, WordsError, job_of};
use io_edge::{Sink, Source};
use output::give_all;
use std::alloc::Global;

/// Answers the words after the program's name for which no space is opened: those of `steps`, `query`, `retrace` and `check`, and those that
/// are not accepted. `replay` answers them so. For the others it answers the run that they ask for, and leaves source and sink as they are.
/// It has no leave to wait for another thread, so it returns whatever the words are, once each read and write has.
pub fn answer_without_space<S: Source, K: Sink>(
    alloc: Global,
    words: &[String],
    source: &mut S,
    sink: &mut K,
) -> Result<Status, Run>
    requires source_count_has_room { (S.seen source.old).faults < 2 ^ 64 - 1 }
    requires sink_count_has_room { (K.seen sink.old).faults < 2 ^ 64 - 1 }

    // For which words a space is to be opened, and with which run.
    ensures run { IfErr result (λ run. job_of_words words.now ≡ Some (job_of_run run)) }
    ensures limits { IfErr result (λ run. IsInLimits (job_of_run run)) }
    ensures tried { IfErr result (λ run. are_tried words.now ≡ true) }
    ensures untouched { IfErr result (λ run. (source.new ≡ source.old) × (sink.new ≡ sink.old)) }
    ensures answered { opens_a_space words.now ≡ false → IfErr result (λ run. ⊥) }
    ensures unanswered { opens_a_space words.now ≡ true → IfOk result (λ status. (status ≡ Status.NoMemory)
        × (source.new ≡ source.old) × (sink.new ≡ sink.old)) }

    // What an answer says, as `replay` has it.
    ensures output { IfOk result (λ status. status ≡ Status.Done → IsSomeAnd (job_of_words words.now) (λ job.
        GivesAll (work_of job) (S.seen source.old) (S.seen source.new) [] (K.seen sink.old) (K.seen sink.new))) }
    ensures counts_stand_still { IfOk result (λ status. status ≡ Status.Done
        → ((S.seen source.new).faults ≡ (S.seen source.old).faults) × ((K.seen sink.new).faults ≡ (K.seen sink.old).faults)) }
    ensures whole_input_read { IfOk result (λ status. status ≡ Status.Done → IsAtEnd (S.seen source.new).left) }
    ensures enough_read { IfOk result (λ status. (status ≡ Status.Done) ⊎ ((line : ℕ) × (cause : Cause) × (status ≡ Status.Trace line cause))
        → IsSomeAnd (most_of_words words.now) (λ most. ReadsEnough most (S.seen source.old).left (S.seen source.new).left)) }
    ensures words { IfOk result (λ status. status ≡ Status.Words → are_accepted words.now ≡ false) }
    ensures words_refused { are_accepted words.now ≡ false → IfOk result (λ status. (status ≡ Status.Words) ⊎ (status ≡ Status.NoMemory)) }
    ensures words_untried { are_tried words.now ≡ false → IfOk result (λ status. status ≡ Status.Words) }
    ensures words_refused_untouched { are_accepted words.now ≡ false → (source.new ≡ source.old) × (sink.new ≡ sink.old) }
    ensures trace { IfOk result (λ status. (line : ℕ) (cause : Cause) → status ≡ Status.Trace line cause → (reads_the_source words.now ≡ true)
        × ((S.seen source.new).faults ≡ (S.seen source.old).faults)
        × IsSomeAnd (job_of_words words.now) (λ job. IfSome (S.seen source.old).left (λ input.
        (work_of job).fault input ≡ Some (record { line = line; cause = cause })))) }
    ensures read_fault { IfOk result (λ status. status ≡ Status.ReadFault → (reads_the_source words.now ≡ true)
        × ((S.seen source.new).faults ≡ (S.seen source.old).faults + 1)) }
    ensures write_fault { IfOk result (λ status. status ≡ Status.WriteFault
        → ((S.seen source.new).faults ≡ (S.seen source.old).faults) × ((K.seen sink.new).faults ≡ (K.seen sink.old).faults + 1)) }
    ensures source_not_called_again { IfOk result (λ status. status ≡ Status.ReadFault → FailedLast (S.seen source.new).just_failed) }
    ensures sink_not_called_again { IfOk result (λ status. status ≡ Status.WriteFault → FailedLast (K.seen sink.new).just_failed) }
    ensures no_memory { IfOk result (λ status. status ≡ Status.NoMemory
        → ((S.seen source.new).faults ≡ (S.seen source.old).faults) × ((K.seen sink.new).faults ≡ (K.seen sink.old).faults)) }
    ensures complete { IfOk result (λ status. reads_the_source words.now ≡ true
        → (S.seen source.new).faults ≡ (S.seen source.old).faults → (K.seen sink.new).faults ≡ (K.seen sink.old).faults
        → IsSomeAnd (job_of_words words.now) (λ job. IfSome (S.seen source.old).left (λ input.
        (status ≡ Status.NoMemory) ⊎ (status ≡ status_of ((work_of job).fault input))))) }
    ensures write_fault_gives_a_proper_front { IfOk result (λ status. status ≡ Status.WriteFault
        → IsSomeAnd (job_of_words words.now) (λ job. GivesProperBeginning (work_of job) (S.seen source.old) (S.seen source.new) (K.seen sink.old) (K.seen sink.new))) }
    ensures no_memory_gives_a_front { IfOk result (λ status. status ≡ Status.NoMemory → Keeps (K.seen sink.old).written (K.seen sink.new).written
        ⊎ IsSomeAnd (job_of_words words.now) (λ job. GivesBeginning (work_of job) (S.seen source.old) (S.seen source.new) (K.seen sink.old) (K.seen sink.new))) }
    ensures nothing_given { IfOk result (λ status. GivesNothing status → sink.new ≡ sink.old) }
{
    match job_of(alloc, words) {
        Ok(Job::Replay(mode)) => Err(Run::Replay(mode)),
        Ok(Job::Generate { count, seed }) => Err(Run::Generate { count, seed }),
        Ok(Job::Convert(conversion)) => match convert_source(alloc, source, conversion) {
            Ok(text) => Ok(give_text(sink, &text)),
            Err(status) => Ok(status),
        },
        Ok(Job::Check) => match check_source(alloc, source) {
            Ok(text) => Ok(give_text(sink, &text)),
            Err(status) => Ok(status),
        },
        Err(WordsError::Words) => Ok(Status::Words),
        Err(WordsError::NoMemory) => Ok(Status::NoMemory),
    }
}

/// Gives a sink a text that no run was made for.
fn give_text<K: Sink>(sink: &mut K, text: &[u8]) -> Status
    requires { (K.seen sink.old).faults < 2 ^ 64 - 1 }
    ensures { IsRunPrinted (GivesThis text.now) (K.seen sink.old) (K.seen sink.new) result [] }
{
    match give_all(sink, text) {
        Ok(()) => Status::Done,
        Err(error) => Status::from(error),
    }
}
