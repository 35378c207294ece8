//! The generated workload: requests that a seed determines. Each session is opened, then as many calls are made as are asked for, then the
//! store is settled. The calls are drawn by a linear congruential generator, so that the same seed gives the same requests everywhere.
//!
//! What it promises. A workload is exactly the list that its seed, its number of calls and its configuration define, request by request, and
//! ends after the last one. Where there is no memory for a request it stays to come. Exactly as many of its requests are calls as were asked
//! for; a call is refused where the reply to it is a refusal, and one line tells both numbers.
//!
//! The contracts that say so: `Workload::make`, `Workload::next`, `refusals`, `summary`; by example the laws of `laws`.
#![tactic(auto)]

mod calls;
mod counting;
mod draws;
mod kind;
pub mod laws;
mod names;
mod nodes;
mod workload;

pub use counting::{is_call, is_settle, refusals, summary};
pub use workload::Workload;
