//! Clusters over new stores in memory, on which a play is played: what the tests of clusters share with those of what serves them.
//!
//! What it promises. A pass is of the cluster that it was asked of, and was told of nothing. What a play says no contract tells: tests compare it with what
//! was worked out by hand.
//!
//! The contracts that say so: `pass_of`.
#![tactic(auto)]

mod asking;
mod configs;
mod passing;
mod playing;
mod replying;

pub use asking::{Ask, ListOf, request_of};
pub use configs::{SMALL, WIDE};
pub use passing::{Steady, pass_of};
pub use playing::{ClusterPlay, played};
pub use replying::{text_at, text_of};
