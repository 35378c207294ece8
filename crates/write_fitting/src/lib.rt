//! Whether an entry is one that a write could have made: how a write that was made before is told from another one of the
//! same number.
//!
//! What it promises. Whether an entry is one that a write could have made, exactly.
//!
//! The contracts that say so: `fits`.
#![tactic(auto)]

mod fitting;
mod same_data;

pub use fitting::fits;
