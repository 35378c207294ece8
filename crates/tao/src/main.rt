//! The program: `tao run` reads a configuration line and one request a line from standard input, and
//! writes one reply a line to standard output, over stores in memory or, with `--sql FILE`, in a file.
//! `tao gen --seed N --calls N` reads a configuration line, makes the requests that the seed determines,
//! and writes how many calls were refused, and the settled logs. `tao load --seed N --calls N --threads N`
//! makes these calls on so many threads, and writes what the settled logs have. `tao serve --port N` reads a
//! configuration line, and talks with each client that connects to the port: one request and one reply a line.
#![tactic(auto)]

mod load;
mod process;
mod run;
mod serve;
mod watched;

use std::process::ExitCode;

fn main(rt: HostRuntime) -> ExitCode {
    process::start(&rt, &rt)
}
