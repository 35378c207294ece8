//! What the words of a command line ask for.
use crate::load::load;
use crate::run::{NO_MEMORY, in_file, in_memory};
use crate::serve::serve;
use command_words::{ProgramWords, Words, WordsRefusal, asked_text, read_program_words};
use std::alloc::AllocGlobal;
use std::env;
use std::io::{self, ErrorKind};
use std::process::ExitCode;
use std::random::RandomSource;
use std::sync::Wait;
use std::thread::Threads;
use std::time::Clock;
use tao_base::Text;
use tao_io::{StdSink, write_all};

/// The status of a faulty command line.
const FAULTY_WORDS: u8 = 2;

/// The status where standard output failed.
pub const FAULTY_OUTPUT: u8 = 5;

/// The words after the program's name. A word that isn't text is an error.
fn words(rt: &HostRuntime) -> io::Result<Vec<String>> {
    let mut words = Vec::new(rt.alloc());
    for word in env::args(rt)?.skip(1) {
        words.push(word)?;
    }
    Ok(words)
}

/// Writes a text that the words asked for.
fn show(rt: &HostRuntime, text: &Text) -> u8 {
    match write_all(&mut StdSink::of(rt.stdout()), text.as_str().as_bytes()) {
        Ok(()) => 0,
        Err(_) => FAULTY_OUTPUT,
    }
}

/// Shows help or the version, where the words ask for these.
fn answer(rt: &HostRuntime, words: &[String]) -> u8 {
    match asked_text(rt.alloc(), words) {
        Ok(Some(text)) => show(rt, &text),
        Ok(None) => FAULTY_WORDS,
        Err(_) => NO_MEMORY,
    }
}

/// Makes a run.
fn run(rt: &HostRuntime, words: &[String], asked: &Words) -> u8 {
    match asked {
        Words::Run { sql: Some(file) } => in_file(rt, words, file.as_str()),
        Words::Run { sql: None } | Words::Gen { .. } => in_memory(rt, words),
    }
}

/// Does what the words ask for. The threads are those that a load or a server makes.
fn obey<R: Threads + Wait + Clock + RandomSource + AllocGlobal + Sync>(
    rt: &HostRuntime,
    threads: &R,
    words: &[String],
) -> u8 {
    match read_program_words(rt.alloc(), words) {
        Ok(ProgramWords::OneThread(asked)) => run(rt, words, &asked),
        Ok(ProgramWords::Load(asked)) => load(rt, threads, asked),
        Ok(ProgramWords::Serve { port }) => serve(rt, threads, port),
        Err(WordsRefusal::Usage) => answer(rt, words),
        Err(WordsRefusal::OutOfMemory) => NO_MEMORY,
    }
}

/// Does what the words of the process ask for, and answers its status.
pub fn start<R: Threads + Wait + Clock + RandomSource + AllocGlobal + Sync>(
    rt: &HostRuntime,
    threads: &R,
) -> ExitCode {
    let code = match words(rt) {
        Ok(words) => obey(rt, threads, &words),
        Err(error) if error.kind() == ErrorKind::OutOfMemory => NO_MEMORY,
        Err(_) => FAULTY_WORDS,
    };
    if code == FAULTY_WORDS {
        // Where standard error takes nothing, the status alone tells.
        let _ = eprintln!(rt; "usage: tao run|gen|load|serve");
    }
    ExitCode::from(code)
}
