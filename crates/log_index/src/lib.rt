//! A log, with what its entries say kept by key and by origin while it grows.
//!
//! What it promises. What is found in the maps is what the log says, at each key and of each origin, whether
//! there was memory for them or not. That an answer comes from the maps, and what it costs, no clause says.
//!
//! The contracts that say so: `IndexedLog`.
#![tactic(auto)]

mod index;
mod indexed_log;
mod key_index;
mod key_table;
mod keys;
mod plain;
mod positions;

pub use indexed_log::IndexedLog;
