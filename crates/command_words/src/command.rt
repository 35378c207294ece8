//! The command that the program's words are read by.
ghost use Rattle.std.specs.Prelude.{◌≡◌, IfOk, false, map, string_bytes};
ghost use Rattle.clap.specs.Words.{FailsBy, app_of, rule_of, shape_of, subcommand_rows_of, with_rule, with_subcommand};
ghost use Rattle.command_words.specs.CommandLine.{bare_app, calls_rule, faults_in, gen_shape, load_shape, made_app, number_rule, run_shape};
ghost use Rattle.command_words.specs.CommandLine.{seed_rule, serve_shape, subcommand_in, tao_app, threadless_app};
ghost use Rattle.clap.specs.declared.builder.command.Command.TheViews.{out-Command as fields_of};

use clap::builder::ValueParser;
use clap::{Arg, ArgMatches, Command, Error};
use std::alloc::{AllocError, Global};

/// What stands below the help of the program and of `run`.
const EXAMPLE: &str = "Example: tao run < examples/tour.jsonl";

/// What stands below the help of `gen`.
const GEN_EXAMPLE: &str = "Example: tao gen --seed 7 --calls 2000 < examples/realistic.jsonl";

/// What stands below the help of `load`.
const LOAD_EXAMPLE: &str =
    "Example: tao load --seed 7 --calls 2000 --threads 2 < examples/realistic.jsonl";

/// What stands below the help of `serve`.
const SERVE_EXAMPLE: &str = "Example: tao serve --port 7171 < examples/realistic.jsonl";

/// The most calls that a generated run has.
const MAX_CALLS: u64 = 100_000;

/// The most threads that make calls.
const MAX_THREADS: u64 = 16;

/// The greatest port.
const MAX_PORT: u64 = 65_535;

/// The subcommand that serves standard input.
fn run_command<'a>(alloc: Global) -> Result<Command<'a>, AllocError>
    ensures shape { IfOk result (λ c. shape_of c ≡ run_shape) }
    ensures local { IfOk result (λ c. (fields_of c).has_globals ≡ false) }
{
    let sql = Arg::new(alloc, "sql").long("sql");
    let run = Command::new(alloc, "run")
        .about(
            "Reads a configuration line and then one JSON request a line, and writes one JSON reply a line",
        )
        .after_help(EXAMPLE);
    run.arg(
        sql.value_name("FILE").help(
            "Keeps the tables in FILE, which is made if missing; without it they are in memory",
        ),
    )
}

/// An option that is needed, and whose value is a number in a range.
fn number_arg<'a>(alloc: Global, name: &'a str, least: u64, most: u64) -> Arg<'a>
    ensures rule { rule_of result ≡ number_rule name.entry.now least most }
    ensures local { result.global ≡ false }
{
    Arg::new(alloc, name)
        .long(name)
        .required(true)
        .value_parser(ValueParser::unsigned(least, most))
}

/// The command with the option that names the seed.
fn with_seed<'a>(alloc: Global, command: Command<'a>) -> Result<Command<'a>, AllocError>
    ensures app { IfOk result (λ c. app_of c ≡ with_rule (app_of command.entry) seed_rule) }
    ensures local { (fields_of command.entry).has_globals ≡ false → IfOk result (λ c. (fields_of c).has_globals ≡ false) }
{
    let seed = number_arg(alloc, "seed", 0, u64::MAX);
    command.arg(seed.value_name("N").help("The seed of the requests"))
}

/// The command with the option that says how many calls are made.
fn with_calls<'a>(alloc: Global, command: Command<'a>) -> Result<Command<'a>, AllocError>
    ensures app { IfOk result (λ c. app_of c ≡ with_rule (app_of command.entry) calls_rule) }
    ensures local { (fields_of command.entry).has_globals ≡ false → IfOk result (λ c. (fields_of c).has_globals ≡ false) }
{
    let calls = number_arg(alloc, "calls", 1, MAX_CALLS);
    command.arg(calls.value_name("N").help("How many calls are made"))
}

/// The subcommand that makes its requests itself.
fn gen_command<'a>(alloc: Global) -> Result<Command<'a>, AllocError>
    ensures shape { IfOk result (λ c. shape_of c ≡ gen_shape) }
    ensures local { IfOk result (λ c. (fields_of c).has_globals ≡ false) }
{
    let made = Command::new(alloc, "gen")
        .about(
            "Reads a configuration line, makes the requests that a seed determines, and writes how many calls were refused, and the settled logs",
        )
        .after_help(GEN_EXAMPLE);
    let seeded = with_seed(alloc, made)?;
    with_calls(alloc, seeded)
}

/// The subcommand whose requests threads make, without the number of these.
fn threadless_command<'a>(alloc: Global) -> Result<Command<'a>, AllocError>
    ensures app { IfOk result (λ c. app_of c ≡ threadless_app) }
    ensures local { IfOk result (λ c. (fields_of c).has_globals ≡ false) }
{
    let made = Command::new(alloc, "load")
        .about(
            "Reads a configuration line, makes the requests that a seed determines on threads, and writes what the settled logs have, and how many calls were refused",
        )
        .after_help(LOAD_EXAMPLE);
    let seeded = with_seed(alloc, made)?;
    with_calls(alloc, seeded)
}

/// The subcommand whose requests threads make.
fn load_command<'a>(alloc: Global) -> Result<Command<'a>, AllocError>
    ensures shape { IfOk result (λ c. shape_of c ≡ load_shape) }
    ensures local { IfOk result (λ c. (fields_of c).has_globals ≡ false) }
{
    let threads = number_arg(alloc, "threads", 1, MAX_THREADS);
    let counted = threadless_command(alloc)?;
    counted.arg(
        threads
            .value_name("N")
            .help("How many threads make the calls"),
    )
}

/// The subcommand that serves clients over TCP.
fn serve_command<'a>(alloc: Global) -> Result<Command<'a>, AllocError>
    ensures shape { IfOk result (λ c. shape_of c ≡ serve_shape) }
    ensures local { IfOk result (λ c. (fields_of c).has_globals ≡ false) }
{
    let port = number_arg(alloc, "port", 1, MAX_PORT);
    let served = Command::new(alloc, "serve")
        .about(
            "Reads a configuration line, and then serves clients that connect to a port of 127.0.0.1: one JSON request a line, and one JSON reply a line",
        )
        .after_help(SERVE_EXAMPLE);
    served.arg(
        port.value_name("N")
            .help("The port that clients connect to"),
    )
}

/// The program with `run`.
fn bare_command<'a>(alloc: Global) -> Result<Command<'a>, AllocError>
    ensures app { IfOk result (λ c. app_of c ≡ with_subcommand bare_app run_shape) }
    ensures local { IfOk result (λ c. (fields_of c).has_globals ≡ false) }
{
    let run = run_command(alloc)?;
    let tao = Command::new(alloc, "tao")
        .version("0.1.0")
        .no_binary_name(true)
        .disable_help_subcommand(true)
        .subcommand_required(true);
    tao.subcommand(run)
}

/// The command with the texts of its help, which change nothing of how words are read.
fn described<'a>(tao: Command<'a>) -> Command<'a>
    ensures app { app_of result ≡ app_of tao.entry }
    ensures local { (fields_of result).has_globals ≡ (fields_of tao.entry).has_globals }
{
    tao.about("TAO: a store for a social graph, with its caches, as one program")
        .after_help(EXAMPLE)
}

/// The program with the subcommands that read a configuration, and make their requests themselves.
fn made_command<'a>(alloc: Global) -> Result<Command<'a>, AllocError>
    ensures app { IfOk result (λ c. app_of c ≡ made_app) }
    ensures local { IfOk result (λ c. (fields_of c).has_globals ≡ false) }
{
    let made = gen_command(alloc)?;
    let loaded = load_command(alloc)?;
    let tao = described(bare_command(alloc)?);
    let tao = tao.subcommand(made)?;
    tao.subcommand(loaded)
}

/// The command with its subcommands.
fn tao_command<'a>(alloc: Global) -> Result<Command<'a>, AllocError>
    ensures { IfOk result (λ c. app_of c ≡ tao_app) }
{
    let served = serve_command(alloc)?;
    let tao = made_command(alloc)?;
    tao.subcommand(served)
}

/// What the words are for the command.
pub(crate) fn parse<'a>(alloc: Global, words: &'a [String]) -> Result<ArgMatches<'a>, Error>
    ensures subcommand { IfOk result (λ m. subcommand_rows_of m ≡ subcommand_in (map string_bytes words.entry.now)) }
    ensures faults { FailsBy (faults_in (map string_bytes words.entry.now)) result }
{
    let tao = tao_command(alloc)?;
    tao.try_get_matches_from(words)
}
