ghost use Rattle.std.specs.Prelude.{◌≡◌, ◌≤◌, IfErr, IfOk, IfSome, Err, None, Some, map, string_bytes, true};
ghost use Rattle.std.specs.List.{list_any};
ghost use Rattle.clap.specs.Words.{app_of, found_of, matches_of, rows_of, takes};
ghost use Rattle.vma_replay.specs.Jobs.{alone, generate_job, generate_words, job_of_words, named_job, operation_count, query_words};
ghost use Rattle.vma_replay.specs.Jobs.{IsInLimits, are_tried, begin_with_mode, begins_with_dash, is_mode};
ghost use Rattle.vma_replay.specs.Internal.CommandLine.{job_of_rows, words_command};

use clap::error::ErrorKind;
use clap::{Arg, ArgMatches, Command};
use gen_load::MOST_OPERATIONS;
use std::alloc::{AllocError, Global};
use text_lexer::{decimal_of, number_of};

/// The name of the argument that is the mode.
const MODE: &str = "mode";

/// The name of the argument for the words after it.
const REST: &str = "rest";

/// How the lines of a trace are run.
#[derive(Clone, Copy, Debug, PartialEq, Eq)]
pub enum Mode {
    /// One after the other, in their order.
    Serial,
    /// Those of each thread of the trace in a thread of their own.
    Threads,
}

/// What text is made of an input, over which no space is opened.
#[derive(Clone, Copy, Debug, PartialEq, Eq)]
pub enum Conversion {
    /// Of a script: what each of its steps results in, and the state after it.
    Steps,
    /// Of a maps text: the line of the area that covers an address, in bytes, or of the next one.
    Query { address: u64 },
    /// Of a maps text: the trace that makes these areas.
    Retrace,
}

/// What the words after the program's name ask for.
#[derive(Clone, Copy, Debug, PartialEq, Eq)]
pub enum Job {
    /// To read a trace, run its lines in a mode, and give all replies and the final list of areas.
    Replay(Mode),
    /// To read an input, and give the text that it is turned into.
    Convert(Conversion),
    /// To read a trace and a text behind it, and tell whether the text is a legal output of the trace.
    Check,
    /// To run the generated trace of so many operations and a seed in the order of its lines, and give its summary.
    Generate { count: u32, seed: u64 },
}

/// A job for which a space is opened.
#[derive(Clone, Copy, Debug, PartialEq, Eq)]
pub enum Run {
    /// To read a trace, run its lines in a mode, and give all replies and the final list of areas.
    Replay(Mode),
    /// To run the generated trace of so many operations and a seed in the order of its lines, and give its summary.
    Generate { count: u32, seed: u64 },
}

/// Why words name no job.
#[derive(Clone, Copy, Debug, PartialEq, Eq)]
pub(crate) enum WordsError {
    /// They are none of the accepted lists.
    Words,
    /// Memory ran out.
    NoMemory,
}

/// The job that words name: `serial`, `threads`, `steps`, `retrace` and `check`, each alone, `query` with an address, and `generate` with
/// a count of operations and a seed name one. No word may begin with `-`, so there are no options and no `--`. Words that begin with no
/// mode, and words with an option, are refused before memory is taken.
#[tactic(auto, using(crate::proofs::CommandLine::tried_named, crate::proofs::CommandLine::untried))]
pub(crate) fn job_of(alloc: Global, words: &[String]) -> Result<Job, WordsError>
    ensures job { IfOk result (λ job. job_of_words words.now ≡ Some job) }
    ensures limits { IfOk result IsInLimits }
    ensures tried { IfOk result (λ _. are_tried words.now ≡ true) }
    ensures words { result ≡ Err WordsError.Words → job_of_words words.now ≡ None }
    ensures memory { result ≡ Err WordsError.NoMemory → are_tried words.now ≡ true }
{
    if !are_tried(words) {
        return Err(WordsError::Words);
    }
    let matches = parse(alloc, words)?;
    match job_of_matches(&matches) {
        Some(job) => Ok(job),
        None => Err(WordsError::Words),
    }
}

/// Whether words begin with a mode and have no option. No others name a job.
fn are_tried(words: &[String]) -> bool
    ensures { result ≡ are_tried words.now }
{
    begin_with_mode(words) && !has_dash_word(words)
}

/// Whether the first of the words is a mode.
fn begin_with_mode(words: &[String]) -> bool
    ensures { result ≡ begin_with_mode words.now }
{
    match words {
        [first, ..] => is_mode(first.as_str()),
        [] => false,
    }
}

/// Whether a word is a mode: the first of an accepted list.
#[tactic(auto, unfolding(crate::specs::Jobs::is_mode))]
fn is_mode(word: &str) -> bool
    ensures { result ≡ is_mode word.now }
{
    matches!(
        word,
        "serial" | "threads" | "steps" | "retrace" | "check" | "query" | "generate"
    )
}

/// Whether a word begins with `-`.
fn has_dash_word(words: &[String]) -> bool
    ensures { result ≡ list_any begins_with_dash words.now }
{
    words.iter().any(|word| word.as_str().starts_with('-'))
}

/// What `clap` finds in the words.
fn parse<'a>(alloc: Global, words: &'a [String]) -> Result<ArgMatches<'a>, WordsError>
    ensures ok { IfOk result (λ matches. rows_of (found_of matches) ≡ matches_of words_command (map string_bytes words.now)) }
    ensures err { IfErr result (λ fault. takes words_command (map string_bytes words.now) ≡ true → fault ≡ WordsError.NoMemory) }
{
    let Ok(command) = command(alloc) else {
        return Err(WordsError::NoMemory);
    };
    match command.try_get_matches_from(words) {
        Ok(matches) => Ok(matches),
        Err(error) if error.kind() == ErrorKind::OutOfMemory => Err(WordsError::NoMemory),
        Err(_) => Err(WordsError::Words),
    }
}

/// The job that the values name.
#[tactic(auto, unfolding(crate::specs::Internal::CommandLine::job_of_rows))]
fn job_of_matches(matches: &ArgMatches<'_>) -> Option<Job>
    ensures job { result ≡ job_of_rows (rows_of (found_of matches.now)) }
    ensures limits { IfSome result IsInLimits }
{
    let name = matches.get_str(MODE)?;
    let rest = matches.get_strs(REST).unwrap_or(&[]);
    named_job(name, rest)
}

/// The job that a first word and the words after it name.
#[tactic(auto, unfolding(crate::specs::Jobs::named_job))]
fn named_job(name: &str, rest: &[&str]) -> Option<Job>
    ensures job { result ≡ named_job name.now (map (λ word. word.now) rest.now) }
    ensures limits { IfSome result IsInLimits }
{
    match name {
        "serial" => alone(Job::Replay(Mode::Serial), rest),
        "threads" => alone(Job::Replay(Mode::Threads), rest),
        "steps" => alone(Job::Convert(Conversion::Steps), rest),
        "retrace" => alone(Job::Convert(Conversion::Retrace), rest),
        "check" => alone(Job::Check, rest),
        "query" => query_words(rest),
        "generate" => generate_words(rest),
        _ => None,
    }
}

/// A job that has no words after the first.
fn alone(job: Job, rest: &[&str]) -> Option<Job>
    requires { IsInLimits job }
    ensures job { result ≡ alone job (map (λ word. word.now) rest.now) }
    ensures limits { IfSome result IsInLimits }
{
    if rest.is_empty() { Some(job) } else { None }
}

/// The job of the words after `query`: an address, which is a number as the lines of a trace have it.
fn query_words(rest: &[&str]) -> Option<Job>
    ensures job { result ≡ query_words (map (λ word. word.now) rest.now) }
    ensures limits { IfSome result IsInLimits }
{
    match rest {
        [address] => Some(Job::Convert(Conversion::Query {
            address: number_of(address)?,
        })),
        _ => None,
    }
}

/// The job of the words after `generate`.
fn generate_words(rest: &[&str]) -> Option<Job>
    ensures job { result ≡ generate_words (map (λ word. word.now) rest.now) }
    ensures limits { IfSome result IsInLimits }
{
    match rest {
        [count, seed] => generate_job(count, seed),
        _ => None,
    }
}

/// The job of a count and a seed: each has 1 to 20 decimal digits and nothing else, the count is at most 400,000, and the seed below 2^64.
fn generate_job(count: &str, seed: &str) -> Option<Job>
    ensures job { result ≡ generate_job count.now seed.now }
    ensures limits { IfSome result IsInLimits }
{
    let count = operation_count(count)?;
    let seed = decimal_of(seed)?;
    Some(Job::Generate { count, seed })
}

/// How many operations are to be generated.
fn operation_count(word: &str) -> Option<u32>
    ensures count { result ≡ operation_count word.now }
    ensures limit { IfSome result (λ count. count ≤ MOST_OPERATIONS) }
{
    match decimal_of(word) {
        Some(count) if count <= u64::from(MOST_OPERATIONS) => Some(count as u32),
        _ => None,
    }
}

/// The command line: a first word and any number of words after it.
fn command<'a>(alloc: Global) -> Result<Command<'a>, AllocError>
    ensures { IfOk result (λ command. app_of command ≡ words_command) }
{
    let mode = Arg::new(alloc, MODE).required(true);
    let rest = Arg::new(alloc, REST).num_args(0..);
    let command = Command::new(alloc, "replay")
        .no_binary_name(true)
        .disable_help_flag(true)
        .disable_version_flag(true)
        .arg(mode)?
        .arg(rest)?;
    Ok(command)
}
