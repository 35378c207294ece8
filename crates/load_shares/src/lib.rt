//! How a generated workload is shared out among threads: the list of its requests, which of them each thread makes, and what is counted of the replies.
//!
//! What it promises. The list is exactly the one that a seed, a number of calls and a configuration define. Each call is one thread's, and a refusal is
//! counted exactly as the workload counts it. Each call is of a session and of names that are there, and no two writes have one number.
//!
//! The contracts that say so: `list_requests`, `Turn::takes`, `tally_of`; the laws of `laws`.
#![tactic(auto)]

mod choices;
pub mod laws;
mod listing;
mod tallies;
mod turns;

pub use choices::has_choices;
pub use listing::list_requests;
pub use tallies::{Tally, is_hit, no_tally, one_refusal, reading_of, tally_of};
pub use turns::{Turn, one_call};
