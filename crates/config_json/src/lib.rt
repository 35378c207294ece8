//! The configuration line: which lines are taken, what they say, and the first field of a line that
//! breaks a rule.
//!
//! Contracts see a line as its bytes and a configuration as its settings.
//!
//! What it promises. A configuration line is taken exactly where it keeps the rules, defaults filled in; else the
//! first broken field in the table's order, or the least strange one, is named.
//!
//! The contracts that say so: `read_config`.
#![tactic(auto)]

pub mod config;
pub mod refusal;
mod regions;
mod types;

pub use config::read_config;
pub use refusal::ConfigRefusal;
