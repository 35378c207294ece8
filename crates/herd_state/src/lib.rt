//! `HerdState`, who leads the read of each name, and who waits for it.
//!
//! Readers of one key in one tier are a herd. The first of them leads: it reads, and then ends its lead. The others wait until it has ended, and only then
//! read.
//!
//! What it promises. A join leads exactly where no lead of its name is open, and is alone exactly where 1,024 wait for that lead. Every other one waits: its
//! waker then stands last in the lead's list, and its count of waits is one more. No other join raises a count, and one that finds no memory leaves all
//! leads as they were. An end closes the lead, and gives all those who waited for it, whose number `Waiting::wake` tells. That a waker wakes its
//! task no contract says.
//!
//! The contracts that say so: `HerdState::join`, `end`; `Waiting::wake`; `Waits::make`, `count`.
#![tactic(auto)]

mod name;
mod state;
mod waiting;
mod waits;

pub use name::HerdName;
pub use state::{HerdState, HerdTicket, Joined};
pub use waiting::Waiting;
pub use waits::Waits;
