//! The opening of a cluster whose nodes lie behind locks.
//!
//! What it promises. A cluster is opened as a core is, over one keeper a store, and refused for the same causes, with the keepers handed back in their
//! order. Every node and store that is then locked keeps what its type says.
//!
//! The contracts that say so: `Opened::open`, `named`.
#![tactic(auto)]

mod counting;
mod opening;
mod placed;

pub use counting::{faults_of, rose};
pub use locked_nodes;
pub use opening::{OpenFail, Opened};
pub use placed::{PlacedKeepers, Places};
