//! The words of a command line: what they ask the program to do.
//!
//! What it promises. Words ask for a run, with a file or without, for made requests, for these on threads, or for a server, exactly where
//! the parse of the command line has no fault; every refusal but out of memory is a usage.
//!
//! The contracts that say so: `read_program_words`, `read_words`, `asked_text`; `words_by_example`.
#![tactic(auto)]

mod asked;
mod command;
mod examples;
mod read;

pub use asked::asked_text;
pub use examples::words_by_example;
pub use read::{LoadWords, ProgramWords, Words, WordsRefusal, read_program_words, read_words};
