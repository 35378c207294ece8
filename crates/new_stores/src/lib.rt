//! Stores in memory in which nothing was written: what a load and a server begin with.
//!
//! What it promises. So many keepers with no stores as a configuration has stores; and a cluster's nodes that are opened over these, which is refused for want of
//! memory alone.
//!
//! The contracts that say so: `keepers_for`, `open_new`.
#![tactic(auto)]

mod made;
mod opening;

pub use made::keepers_for;
pub use opening::open_new;
