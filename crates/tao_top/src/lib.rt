//! A program's run, from the lines that it reads to the lines that it writes.
#![tactic(auto)]

mod begin;
pub mod laws;
mod lines;
mod making;
mod serve;
mod serving;
mod stop;
mod top;

pub use top::run;
