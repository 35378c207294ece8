//! Whether two entries are the same: by this the log of a slave's store is compared with its master's.
//!
//! What it promises. Two entries are found the same exactly where they are equal in all that they
//! say, and two data exactly where they have the same keys with the same values.
//!
//! The contracts that say so: `is_same_entry`, `is_same_data`.
#![tactic(auto)]

mod data;
mod entries;

pub use data::is_same_data;
pub use entries::is_same_entry;
