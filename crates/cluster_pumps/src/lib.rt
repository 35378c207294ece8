//! How messages reach the nodes of a cluster that lie behind locks, and how its slave stores follow their masters: any thread pumps them, by a hand for
//! each node.
//!
//! A pump of a leader or a follower has it process the first message of its inbox, under the node's lock. A pump of a slave's store adds one entry of its
//! master's log to it, under both stores' locks, and then puts a message of that entry into the inbox of the leader that the region prefers, and of each
//! follower of the region that serves the shard. What finds no memory is lost.
//!
//! What it promises. A hand keeps its node, and its pass that node's inbox. A pump finds nothing only where the inbox was asked and found empty, or both
//! stores were compared and found equally long, which the hand counts; at a master's store it always finds nothing. What it delivers is of a shard that the
//! node serves, at a position that an entry of a log may have. It fails at a slave's store alone, and for a keeper's fault only where keepers may fail.
//! Whom a step of a stream tells, no contract says: what waits in an inbox isn't known.
//!
//! The contracts that say so: `hand_on`, `pump`; `Hand::node`, `empties`.
#![tactic(auto)]

mod delivering;
mod hands;
mod pumping;
mod streaming;

pub use hands::{Hand, hand_on};
pub use pumping::{Pumped, pump};
