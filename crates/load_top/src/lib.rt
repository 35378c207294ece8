//! A load's top call: from the configuration line to the line that tells what came of the load.
//!
//! What it promises. With status 0 the line of a load's summary was written, whole, the keepers that come back hold what the summary says, and no call was
//! refused, unless a log came to its end. Each other status has its cause, and then what was written is a front of the one line that says so. Of the source
//! the first line is taken.
//!
//! The contracts that say so: `load_top`.
#![tactic(auto)]

mod ended;
mod loading;
mod saying;
#[cfg(test)]
mod tests;
mod top;

pub use tao_busy::{Gate, NoGate};
pub use top::load_top;
