//! A keeper of keepers, one a store, that is a keeper itself; and the keeper in memory that never fails.
//!
//! What it promises. A call on a store is one call of the store's keeper, and leaves the others as they were; what the keepers
//! tell and count together is what one keeper would. The steady keeper tells everything, and its count of faults is always 0.
//!
//! The contracts that say so: `Keepers`; `SteadyKeeper`.
#![tactic(auto)]

mod keepers;
mod steady;

pub use keepers::Keepers;
pub use steady::SteadyKeeper;
