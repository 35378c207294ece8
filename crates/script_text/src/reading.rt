//! Reads a script.
use crate::piece::{Piece, line_of, piece_of, push_piece};
use crate::runs::{GivenLog, Run, Script};
use crate::turns::tells_turn;
use std::alloc::{AllocError, Global};

/// Why a text is no script.
#[derive(Clone, Copy, PartialEq, Eq)]
pub enum Unread {
    /// The line of this number, from 1 on, has no meaning where it stands.
    Line(usize),
    OutOfMemory,
}

impl From<AllocError> for Unread {
    fn from(_: AllocError) -> Unread {
        Unread::OutOfMemory
    }
}

/// The status of a run whose sink takes nothing more.
const FULL_SINK: u8 = 5;

/// Goes on with the numbers of calls by those of a text. Says whether it has numbers alone.
fn push_numbers(fails: &mut Vec<u64>, numbers: &str) -> Result<bool, AllocError> {
    for number in numbers.split_whitespace() {
        let Ok(number) = number.parse::<u64>() else {
            return Ok(false);
        };
        fails.push(number)?;
    }
    Ok(true)
}

/// The piece of input that a line tells.
fn input_of(line: &str) -> Option<Piece<'_>> {
    if let Some(rest) = line.strip_prefix('<') {
        return Some(line_of(rest.strip_prefix(' ').unwrap_or(rest)));
    }
    if line.starts_with('_') || line.starts_with('*') {
        return piece_of(line);
    }
    Some(line_of(line))
}

/// Goes on with a text by a piece. Says whether there is one.
fn take_piece(
    alloc: Global,
    into: &mut String,
    piece: Option<Piece<'_>>,
) -> Result<bool, AllocError> {
    match piece {
        Some(piece) => {
            push_piece(alloc, into, piece)?;
            Ok(true)
        }
        None => Ok(false),
    }
}

/// Takes the number that a text was read as. Says whether it was one.
fn take_number<T: Copy>(into: &mut T, number: Option<T>) -> bool {
    match number {
        Some(number) => {
            *into = number;
            true
        }
        None => false,
    }
}

/// The log that a text tells: the store's region and shard, and the numbers of writes.
fn log_of(alloc: Global, text: &str) -> Result<Option<GivenLog>, AllocError> {
    let Some((region, rest)) = text.split_once(' ') else {
        return Ok(None);
    };
    let Some((shard, numbers)) = rest.split_once(' ') else {
        return Ok(None);
    };
    let (Ok(region), Ok(shard)) = (region.parse::<u16>(), shard.parse::<u16>()) else {
        return Ok(None);
    };
    let mut seqs = Vec::new(alloc);
    let is_told = push_numbers(&mut seqs, numbers)?;
    let log = GivenLog {
        region,
        shard,
        seqs,
    };
    Ok(if is_told { Some(log) } else { None })
}

/// Goes on with the logs that a run finds. Says whether the text tells one.
fn take_log(alloc: Global, run: &mut Run, text: &str) -> Result<bool, AllocError> {
    match log_of(alloc, text)? {
        Some(log) => {
            run.logs.push(log)?;
            Ok(true)
        }
        None => Ok(false),
    }
}

/// Goes on with a run by a line of its text. Says whether the line has a meaning.
fn take_run_line(alloc: Global, run: &mut Run, line: &str) -> Result<bool, AllocError> {
    if let Some(reply) = line.strip_prefix('>') {
        return take_piece(alloc, &mut run.replies, piece_of(reply));
    }
    if let Some(numbers) = line.strip_prefix("! carry ") {
        return push_numbers(&mut run.carries, numbers);
    }
    if let Some(numbers) = line.strip_prefix("! take ") {
        return push_numbers(&mut run.takes, numbers);
    }
    if let Some(numbers) = line.strip_prefix("! put ") {
        return push_numbers(&mut run.puts, numbers);
    }
    if let Some(log) = line.strip_prefix("! log ") {
        return take_log(alloc, run, log);
    }
    if let Some(room) = line.strip_prefix("! room ") {
        return Ok(take_number(&mut run.room, room.parse::<usize>().ok().map(Some)));
    }
    if let Some(code) = line.strip_prefix("= ") {
        return Ok(take_number(&mut run.code, code.parse::<u8>().ok()));
    }
    take_piece(alloc, &mut run.input, input_of(line))
}

/// Goes on with a run by what fails in this turn of a sweep. Says whether it was told.
fn take_run_turn(run: &mut Run, swept: &str, turn: u64) -> Result<bool, AllocError> {
    match swept {
        "carry" => run.carries.push(turn)?,
        "take" => run.takes.push(turn)?,
        "put" => run.puts.push(turn)?,
        "byte" => {
            run.room = usize::try_from(turn).ok();
            run.is_cut = true;
        }
        _ => return Ok(false),
    }
    Ok(true)
}

/// The words of the run that a line begins, and whether it goes over a keeper of its own.
fn head_of(line: &str) -> Option<(&str, bool)> {
    let (line, is_anew) = match line.strip_prefix("$$") {
        Some(rest) => (rest, true),
        None => (line.strip_prefix('$')?, false),
    };
    let words = line.strip_prefix(" tao")?;
    if words.is_empty() || words.starts_with(' ') {
        Some((words, is_anew))
    } else {
        None
    }
}

/// Goes on with a script by what fails in this turn of a sweep. Says whether it was told.
fn take_turn(script: &mut Script, swept: &str, turn: u64) -> Result<bool, AllocError> {
    script.is_swept = true;
    match swept {
        "call" => script.calls.push(turn)?,
        "commit" => script.commits.push(turn)?,
        "call on" => script.from = Some(turn),
        _ => {
            return match script.runs.last_mut() {
                Some(run) => take_run_turn(run, swept, turn),
                None => Ok(false),
            };
        }
    }
    Ok(true)
}

/// Goes on with a script by a line of its text that stands in this turn. Says whether the line has a meaning where it stands.
fn take_standing(
    alloc: Global,
    script: &mut Script,
    line: &str,
    turn: u64,
) -> Result<bool, AllocError> {
    if line.starts_with('$') {
        let Some((words, is_anew)) = head_of(line) else {
            return Ok(false);
        };
        script.runs.push(Run::begin(alloc, words, is_anew)?)?;
        return Ok(true);
    }
    if let Some(numbers) = line.strip_prefix("! call ") {
        return push_numbers(&mut script.calls, numbers);
    }
    if let Some(numbers) = line.strip_prefix("! commit ") {
        return push_numbers(&mut script.commits, numbers);
    }
    if let Some(swept) = line.strip_prefix("! each ") {
        return take_turn(script, swept, turn);
    }
    match script.runs.last_mut() {
        Some(run) => take_run_line(alloc, run, line),
        None => Ok(false),
    }
}

/// Goes on with a script by a line of its text. Says whether the line has a meaning where it stands.
fn take_line(
    alloc: Global,
    script: &mut Script,
    line: &str,
    turn: u64,
) -> Result<bool, AllocError> {
    if line.is_empty() || line.starts_with('#') {
        return Ok(true);
    }
    let Some(told) = line.strip_prefix('@') else {
        return take_standing(alloc, script, line, turn);
    };
    let Some((turns, rest)) = told.split_once(' ') else {
        return Ok(false);
    };
    match tells_turn(turns, turn) {
        Some(true) => take_standing(alloc, script, rest, turn),
        Some(false) => Ok(true),
        None => Ok(false),
    }
}

/// Cuts what a run has to write where its sink is full, which is what it then ends by.
fn cut_replies(alloc: Global, run: &mut Run) -> Result<(), AllocError> {
    let Some(room) = run.room else {
        return Ok(());
    };
    if !run.is_cut || run.replies.len() <= room {
        return Ok(());
    }
    if let Some(front) = run.replies.get(..room) {
        run.replies = String::from_str(alloc, front)?;
        run.code = FULL_SINK;
    }
    Ok(())
}

/// Reads a script's text as it stands in a turn, counted from 1.
pub fn read(alloc: Global, text: &str, turn: u64) -> Result<Script, Unread> {
    let mut script = Script::new(alloc);
    let mut number: usize = 0;
    for line in text.lines() {
        number = number.saturating_add(1);
        if !take_line(alloc, &mut script, line, turn)? {
            return Err(Unread::Line(number));
        }
    }
    for run in script.runs.iter_mut() {
        cut_replies(alloc, run)?;
    }
    Ok(script)
}
