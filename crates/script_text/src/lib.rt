//! Scripts of whole runs: what a text tells of them, and whether a run ended as it has to. `docs/SCRIPTS.md`
//! has the format.
//!
//! What it promises. A run is right exactly where it wrote the expected replies, byte for byte, and ended with
//! the expected status. A line that stands in some turns of a sweep stands in exactly those.
//!
//! The contracts that say so: `fault_of`, `Turns::has`.
#![tactic(auto)]

mod compare;
mod piece;
mod reading;
mod runs;
mod turns;

pub use compare::{Fault, describe, fault_of};
pub use reading::{Unread, read};
pub use runs::{GivenLog, Run, Script};
