//! The first line of an input: the configuration that it is, or the line that refuses it.
//!
//! It is read alike by a run and by a load of many threads.
//!
//! What it promises. The first line that isn't empty is taken exactly where it is a configuration, and then nothing was written; else the line that names the
//! first broken field was written, or a front of it where the sink failed or there was no memory. Nothing past the 65,536 bytes in which the line's end came
//! is taken. Each way to end has its cause.
//!
//! The contracts that say so: `read_first`, `read_first_alone`, `write_line`.
#![tactic(auto)]

mod first;
mod interrupt;
mod lines;

pub use first::{FirstLine, FirstStop, read_first, read_first_alone, refuse};
pub use interrupt::Interrupt;
pub use lines::{ended, write_line};
