//! Trimming a store's log: its first entries become old ones, which audits and openings alone read.
//!
//! What it promises. The cut of a store's log comes to the least of its marks and of its length, and never goes back; no
//! entry, job or other table changes. It fails for a counted fault or out of memory alone, and then nothing has changed.
//!
//! The contracts that say so: `trim`.
#![tactic(auto)]

mod trimming;

pub use trimming::{least_of, trim};
