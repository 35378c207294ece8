//! Plays a script.
ghost use Rattle.std.specs.Prelude.{IfOk};
ghost use Rattle.graph_model.specs.Told.{WhereTold};
ghost use Rattle.keeper_map.specs.MapKeeper.{told_by};
ghost use Rattle.tao_top.specs.Kept.{MayBeginAny};

use crate::given::give_logs;
use crate::narrow::NarrowSink;
use keeper_map::{Fails, MapKeeper};
use keeper_sql::SqlKeeper;
use script_text::{Run, Script, Unread, describe, fault_of, read};
use std::alloc::{AllocError, Global};
use tao_io::{MemorySink, MemorySource, Sink, Source, Status};
use tao_keeper::Keeper;
use tao_link::{Link, PlannedLink, SwitchLink};

/// The statuses of a run whose source failed, or whose sink.
const FAULTY_SOURCE: u8 = 4;

const FAULTY_SINK: u8 = 5;

/// The most turns of a sweep.
const MOST_TURNS: u64 = 1000;

/// The status of a run over the keeper and a link, after which another may follow.
fn run_kept<R: Source, S: Sink, K: Keeper, L: Link>(
    alloc: Global,
    words: &[String],
    input: &mut R,
    output: &mut S,
    keeper: &mut K,
    link: &mut L,
) -> Status
    requires { WhereTold K.TELLS (MayBeginAny (K.state keeper.old).told) }
    ensures { WhereTold K.TELLS (MayBeginAny (K.state keeper.new).told) }
{
    tao_top::run(alloc, words, input, output, keeper, link)
}

/// The status of a run of a script, which writes to this sink. Its link fails at the carries that the script tells, or where it has none
/// at those that the run cuts. Notes whether a planned carry failed.
fn run_over<S: Sink, K: Keeper>(
    alloc: Global,
    keeper: &mut K,
    run: &Run,
    output: &mut S,
    failed: &mut bool,
) -> Result<Status, AllocError>
    requires { WhereTold K.TELLS (MayBeginAny (K.state keeper.old).told) }
    ensures { WhereTold K.TELLS (MayBeginAny (K.state keeper.new).told) }
{
    let input = run.input.as_bytes().to_vec(alloc)?;
    let mut source = MemorySource::of(input, run.takes.to_vec(alloc)?);
    if run.carries.is_empty() {
        let mut link = SwitchLink::make(alloc);
        return Ok(run_kept(alloc, &run.words, &mut source, output, keeper, &mut link));
    }
    let mut link = PlannedLink::make(run.carries.to_vec(alloc)?);
    let status = run_kept(alloc, &run.words, &mut source, output, keeper, &mut link);
    *failed = *failed || link.faults() > 0;
    Ok(status)
}

/// What is said of how a run ended, or nothing where it is right. Notes whether its source or its sink failed.
fn judge(
    alloc: Global,
    run: &Run,
    written: &[u8],
    status: Status,
    failed: &mut bool,
) -> Result<Option<String>, AllocError> {
    *failed = *failed || status.code == FAULTY_SOURCE || status.code == FAULTY_SINK;
    match fault_of(run, written, status.code) {
        Some(fault) => {
            let text = describe(alloc, fault, run, written, status.code)?;
            Ok(Some(text))
        }
        None => Ok(None),
    }
}

/// Plays a run over the keeper. What is said of its fault, or nothing. Notes whether a carry, its source or its sink failed.
fn play_run<K: Keeper>(
    alloc: Global,
    keeper: &mut K,
    run: &Run,
    failed: &mut bool,
) -> Result<Option<String>, AllocError>
    requires { WhereTold K.TELLS (MayBeginAny (K.state keeper.old).told) }
    ensures { WhereTold K.TELLS (MayBeginAny (K.state keeper.new).told) }
{
    if let Some(room) = run.room {
        let mut output = NarrowSink::make(alloc, room);
        let status = run_over(alloc, keeper, run, &mut output, failed)?;
        return judge(alloc, run, &output.bytes, status, failed);
    }
    let mut output = MemorySink::make(alloc, run.puts.to_vec(alloc)?);
    let status = run_over(alloc, keeper, run, &mut output, failed)?;
    judge(alloc, run, output.bytes(), status, failed)
}

/// Plays runs over the keeper, one after the other, of which the first has this number. What is said of the first fault, or nothing.
fn play_runs<K: Keeper>(
    alloc: Global,
    keeper: &mut K,
    runs: &[Run],
    first: usize,
    failed: &mut bool,
) -> Result<Option<String>, AllocError>
    requires { WhereTold K.TELLS (MayBeginAny (K.state keeper.old).told) }
{
    let mut number = first;
    for run in runs {
        if let Some(fault) = play_run(alloc, keeper, run, failed)? {
            let text = format!(in alloc; "run {number}, {fault}")?;
            return Ok(Some(text));
        }
        number = number.saturating_add(1);
    }
    Ok(None)
}

/// A keeper without tables, which fails as a script says.
fn new_keeper(alloc: Global, script: &Script) -> Result<MapKeeper, AllocError>
    ensures { IfOk result (λ keeper. MayBeginAny (told_by keeper)) }
{
    let fails = Fails {
        calls: script.calls.to_vec(alloc)?,
        commits: script.commits.to_vec(alloc)?,
        from: script.from,
    };
    Ok(MapKeeper::make(alloc, fails))
}

/// Whether a script is for SQL alone: stores have logs before any run, which no run wrote.
fn is_for_sql(script: &Script) -> bool {
    script.runs.iter().any(|run| !run.logs.is_empty())
}

/// Plays the first of the runs over a keeper that may stop, and the others once it is mended.
fn play_mended(
    alloc: Global,
    keeper: &mut MapKeeper,
    runs: &[Run],
    first: usize,
    failed: &mut bool,
) -> Result<Option<String>, AllocError>
    requires { MayBeginAny (told_by keeper.old) }
{
    let Some((stopped, others)) = runs.split_first() else {
        return Ok(None);
    };
    if let Some(fault) = play_run(alloc, keeper, stopped, failed)? {
        let text = format!(in alloc; "run {first}, {fault}")?;
        return Ok(Some(text));
    }
    keeper.mend();
    play_runs(alloc, keeper, others, first.saturating_add(1), failed)
}

/// Plays runs of a script over tables in maps, unless it is for SQL alone.
fn play_over_maps(
    alloc: Global,
    script: &Script,
    runs: &[Run],
    first: usize,
    failed: &mut bool,
) -> Result<Option<String>, AllocError> {
    if is_for_sql(script) {
        return Ok(None);
    }
    let mut keeper = new_keeper(alloc, script)?;
    let said = if script.from.is_some() {
        play_mended(alloc, &mut keeper, runs, first, failed)?
    } else {
        play_runs(alloc, &mut keeper, runs, first, failed)?
    };
    *failed = *failed || keeper.faults() > 0;
    Ok(said)
}

/// What is said where there are no tables to play over.
fn no_tables(alloc: Global) -> Result<Option<String>, AllocError> {
    let text = format!(in alloc; "no tables")?;
    Ok(Some(text))
}

/// Plays runs over tables by SQL, which first get what the first run finds there.
fn play_over_given(
    alloc: Global,
    keeper: &mut SqlKeeper,
    runs: &[Run],
    first: usize,
    failed: &mut bool,
) -> Result<Option<String>, AllocError> {
    let is_given = match runs.first() {
        Some(run) => give_logs(alloc, keeper, run)?,
        None => true,
    };
    if !is_given {
        return no_tables(alloc);
    }
    play_runs(alloc, keeper, runs, first, failed)
}

/// Plays runs over new tables by SQL.
fn play_over_sql(
    alloc: Global,
    runs: &[Run],
    first: usize,
    failed: &mut bool,
) -> Result<Option<String>, AllocError> {
    let Ok(keeper) = SqlKeeper::open_memory(alloc) else {
        return no_tables(alloc);
    };
    let mut keeper = keeper;
    let said = play_over_given(alloc, &mut keeper, runs, first, failed);
    keeper.close();
    said
}

/// The most bytes of a run's lines that are played over tables by SQL, where a write takes several times as long as in maps.
const MOST_OVER_SQL: usize = 65_536;

/// Whether a script is for maps alone: a keeper has to fail where it says, or a run of it is long.
fn is_for_maps(script: &Script) -> bool {
    !script.calls.is_empty()
        || !script.commits.is_empty()
        || script.from.is_some()
        || script
            .runs
            .iter()
            .any(|run| run.input.len() > MOST_OVER_SQL)
}

/// Plays runs of a script, over tables in maps and then, unless it is for these alone, by SQL.
fn play_over_each(
    alloc: Global,
    script: &Script,
    runs: &[Run],
    first: usize,
    failed: &mut bool,
) -> Result<Option<String>, AllocError> {
    if let Some(fault) = play_over_maps(alloc, script, runs, first, failed)? {
        return Ok(Some(fault));
    }
    if is_for_maps(script) {
        return Ok(None);
    }
    let Some(fault) = play_over_sql(alloc, runs, first, failed)? else {
        return Ok(None);
    };
    let text = format!(in alloc; "over SQL, {fault}")?;
    Ok(Some(text))
}

/// Plays a script once, and says what differs first, or nothing. Notes whether anything that was planned to fail did.
fn play_once(
    alloc: Global,
    script: &Script,
    failed: &mut bool,
) -> Result<Option<String>, AllocError> {
    let mut first: usize = 1;
    // Those that follow one another over one keeper.
    for runs in script.runs.chunk_by(|_, next| !next.is_anew) {
        if let Some(fault) = play_over_each(alloc, script, runs, first, failed)? {
            return Ok(Some(fault));
        }
        first = first.saturating_add(runs.len());
    }
    Ok(None)
}

/// Over which keepers a script was played.
fn over_which(script: &Script) -> &'static str {
    if is_for_maps(script) {
        ", not over SQL"
    } else if is_for_sql(script) {
        ", over SQL alone"
    } else {
        ""
    }
}

/// What is said of a script of which all is right, a sweep up to this turn.
fn praise(alloc: Global, script: &Script, turn: u64) -> Result<String, AllocError> {
    let over = over_which(script);
    if script.runs.is_empty() {
        format!(in alloc; "no run")
    } else if script.is_swept {
        format!(in alloc; "ok in turns 1 to {turn}{over}")
    } else {
        format!(in alloc; "ok{over}")
    }
}

/// Plays a script in a turn. What is said of it, or nothing where another turn is to come: in a sweep, after a turn in which anything failed.
fn play(alloc: Global, script: &Script, turn: u64) -> Result<Option<String>, AllocError> {
    let mut failed = false;
    match play_once(alloc, script, &mut failed)? {
        Some(fault) if script.is_swept => format!(in alloc; "turn {turn}, {fault}").map(Some),
        Some(fault) => Ok(Some(fault)),
        None if script.is_swept && failed => Ok(None),
        None => praise(alloc, script, turn).map(Some),
    }
}

/// What is said of a script's text in a turn, or nothing where another is to come.
fn say(alloc: Global, text: &str, turn: u64) -> Result<Option<String>, AllocError> {
    match read(alloc, text, turn) {
        Ok(script) => play(alloc, &script, turn),
        Err(Unread::Line(number)) => { format!(in alloc; "line {number} has no meaning").map(Some) }
        Err(Unread::OutOfMemory) => format!(in alloc; "no memory").map(Some),
    }
}

/// What is said of a script's text.
pub fn verdict(alloc: Global, text: &str) -> Result<String, AllocError> {
    for before in 0..MOST_TURNS {
        if let Some(said) = say(alloc, text, before.saturating_add(1))? {
            return Ok(said);
        }
    }
    format!(in alloc; "it fails in turn {MOST_TURNS}")
}
