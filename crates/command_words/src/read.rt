//! What the words ask for.
ghost use Rattle.std.specs.Prelude.{◌≡◌, ◌^◌, IfOk, IfSome, codes, map, option_and_then, option_map, string_bytes};
ghost use Rattle.clap.specs.Values.{kind_of};
ghost use Rattle.clap.specs.Words.{first_of, found_of, rows_of, subcommand_rows_of};
ghost use Rattle.outcomes.specs.Results.{Gives};
ghost use Rattle.topology.specs.Lookup.{number_below};
ghost use Rattle.command_words.specs.Read.{HasThreads, HasThreadsIfAny, command_in, gen_in, load_in, number_in, port_number, program_words_in, refusal_by};
ghost use Rattle.command_words.specs.Read.{serve_in, thread_count, usage_unless_memory, words_in};

use crate::command::parse;
use clap::error::ErrorKind;
use clap::{ArgMatches, Error};
use std::alloc::{AllocError, Global};
use tao_base::Text;

/// What a run is asked to do.
#[derive(Drop)]
pub enum Words {
    /// To serve standard input, over tables in this file, or in memory where there is none.
    Run { sql: Option<Text> },
    /// To make the requests that a seed determines, with so many calls among them, and to serve these.
    Gen { seed: u64, calls: u64 },
}

/// What threads are asked to do: to make the requests that a seed determines, with so many calls among them.
#[derive(Clone, Copy)]
pub struct LoadWords {
    /// How many threads make the calls: from 1 to 16.
    pub threads: u32,
    pub seed: u64,
    pub calls: u64,
}

/// What the program is asked to do.
#[derive(Drop)]
pub enum ProgramWords {
    /// What a run does, which is on one thread.
    OneThread(Words),
    /// What threads do.
    Load(LoadWords),
    /// To serve clients that connect to this port, from 1 to 65,535.
    Serve { port: u16 },
}

/// Why the words say nothing.
#[derive(Clone, Copy, PartialEq, Eq)]
pub enum WordsRefusal {
    /// They are no words of the program, or ask for help or its version alone.
    Usage,
    /// There was no memory to read them.
    OutOfMemory,
}

impl From<AllocError> for WordsRefusal {
    ghost use Rattle.std.specs.Prelude.{◌≡◌};
    ghost use Rattle.command_words.specs.declared.read.WordsRefusal.TheVariants.{OutOfMemory};

    ghost from_gives = { λ _ refusal. refusal ≡ OutOfMemory };

    fn from(_: AllocError) -> WordsRefusal {
        WordsRefusal::OutOfMemory
    }
}

/// A text of its own, where there is one.
fn copied(alloc: Global, text: Option<&str>) -> Result<Option<Text>, AllocError>
    ensures { IfOk result (λ copy. copy ≡ option_map (λ name. name.now) text.entry) }
{
    match text {
        Some(text) => Ok(Some(Text::copy_of(alloc, text)?)),
        None => Ok(None),
    }
}

/// The number that a text is, in decimal without a sign or a leading zero.
fn number(alloc: Global, text: &str) -> Result<Option<u64>, AllocError>
    ensures { IfOk result (λ number. number ≡ number_below (2 ^ 64) text.now) }
{
    let Ok(number) = text.parse::<u64>() else {
        return Ok(None);
    };
    let plain = format!(in alloc; "{number}")?;
    if plain.as_str() == text {
        Ok(Some(number))
    } else {
        Ok(None)
    }
}

/// The number that an option is given.
fn number_in(alloc: Global, given: &ArgMatches<'_>, name: &str) -> Result<Option<u64>, AllocError>
    ensures { IfOk result (λ number. number ≡ number_in (rows_of (found_of given.now)) name.now) }
{
    match given.get_str(name) {
        Some(text) => number(alloc, text),
        None => Ok(None),
    }
}

/// What `run` is asked for.
fn run_in(alloc: Global, given: &ArgMatches<'_>) -> Result<Words, AllocError>
    ensures { IfOk result (λ words. words ≡ Words.Run (first_of (codes "sql") (rows_of (found_of given.now)))) }
{
    let sql = copied(alloc, given.get_str("sql"))?;
    Ok(Words::Run { sql })
}

/// What `gen` is asked for.
fn gen_in(alloc: Global, given: &ArgMatches<'_>) -> Result<Option<Words>, AllocError>
    ensures { IfOk result (λ words. words ≡ gen_in (rows_of (found_of given.now))) }
{
    let Some(seed) = number_in(alloc, given, "seed")? else {
        return Ok(None);
    };
    let Some(calls) = number_in(alloc, given, "calls")? else {
        return Ok(None);
    };
    Ok(Some(Words::Gen { seed, calls }))
}

/// The number of threads that a number is.
fn thread_count(number: u64) -> Option<u32>
    ensures { result ≡ thread_count number }
{
    if 0 < number && number < 17 {
        Some(number as u32)
    } else {
        None
    }
}

/// What `load` is asked for.
fn load_in(alloc: Global, given: &ArgMatches<'_>) -> Result<Option<LoadWords>, AllocError>
    ensures words { IfOk result (λ words. words ≡ load_in (rows_of (found_of given.now))) }
    ensures threads { IfOk result (λ words. IfSome words HasThreads) }
{
    let Some(seed) = number_in(alloc, given, "seed")? else {
        return Ok(None);
    };
    let Some(calls) = number_in(alloc, given, "calls")? else {
        return Ok(None);
    };
    let Some(number) = number_in(alloc, given, "threads")? else {
        return Ok(None);
    };
    let Some(threads) = thread_count(number) else {
        return Ok(None);
    };
    Ok(Some(LoadWords {
        threads,
        seed,
        calls,
    }))
}

/// The port that a number is.
fn port_number(number: u64) -> Option<u16>
    ensures { result ≡ port_number number }
{
    if 0 < number && number < 65_536 {
        Some(number as u16)
    } else {
        None
    }
}

/// What `serve` is asked for.
fn serve_in(alloc: Global, given: &ArgMatches<'_>) -> Result<Option<ProgramWords>, AllocError>
    ensures words { IfOk result (λ words. words ≡ serve_in (rows_of (found_of given.now))) }
    ensures threads { IfOk result (λ words. IfSome words HasThreadsIfAny) }
{
    let Some(number) = number_in(alloc, given, "port")? else {
        return Ok(None);
    };
    let Some(port) = port_number(number) else {
        return Ok(None);
    };
    Ok(Some(ProgramWords::Serve { port }))
}

/// What the subcommand that was named is asked for.
fn command_in(alloc: Global, matches: &ArgMatches<'_>) -> Result<Option<ProgramWords>, AllocError>
    ensures words { IfOk result (λ words. words ≡ option_and_then command_in (subcommand_rows_of matches.now)) }
    ensures threads { IfOk result (λ words. IfSome words HasThreadsIfAny) }
{
    match matches.subcommand() {
        Some(("run", given)) => Ok(Some(ProgramWords::OneThread(run_in(alloc, given)?))),
        Some(("gen", given)) => Ok(gen_in(alloc, given)?.map(ProgramWords::OneThread)),
        Some(("load", given)) => Ok(load_in(alloc, given)?.map(ProgramWords::Load)),
        Some((_, given)) => serve_in(alloc, given),
        None => Ok(None),
    }
}

fn refusal(error: &Error) -> WordsRefusal
    ensures { result ≡ refusal_by (kind_of error.now) }
{
    match error.kind() {
        ErrorKind::OutOfMemory => WordsRefusal::OutOfMemory,
        _ => WordsRefusal::Usage,
    }
}

/// Reads the words after the program's name. `Usage` exactly where they aren't those of a subcommand with its
/// options, or ask for a text alone. Takes memory in proportion to the words.
pub fn read_program_words(alloc: Global, words: &[String]) -> Result<ProgramWords, WordsRefusal>
    ensures words { Gives usage_unless_memory result (program_words_in (map string_bytes words.now)) }
    ensures threads { IfOk result HasThreadsIfAny }
{
    match parse(alloc, words) {
        Ok(matches) => command_in(alloc, &matches)?.ok_or(WordsRefusal::Usage),
        Err(error) => Err(refusal(&error)),
    }
}

/// Reads the words after the program's name as those of a run, which is on one thread. `Usage` exactly where they aren't those of `run` or `gen`
/// with its options. Takes memory in proportion to the words.
pub fn read_words(alloc: Global, words: &[String]) -> Result<Words, WordsRefusal>
    ensures { Gives usage_unless_memory result (words_in (map string_bytes words.now)) }
{
    match read_program_words(alloc, words)? {
        ProgramWords::OneThread(words) => Ok(words),
        ProgramWords::Load(_) | ProgramWords::Serve { .. } => Err(WordsRefusal::Usage),
    }
}
