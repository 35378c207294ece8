//! Streams: how a slave's store takes the entries of its master's log, one after another.
//!
//! What a slave has is a beginning of what its master has. An entry is added only where it comes next, so that this stays so.
//!
//! What it promises. An entry of the master's log is added to a slave's exactly where it comes next, and the store has then
//! seen what the entry's note has; one that was added before, one that others come before, and a refusal change nothing. A
//! step adds the master's next entry, and finds none exactly where the logs are equally long, which it counts; the master
//! and its tables stay. Both are refused for a counted fault or as out of memory alone. The first position at which a
//! slave's log isn't its master's is found, and is none exactly where it begins that. The stores of a shard are opened
//! exactly where the log of each slave begins the master's; else the first slave of which this isn't so is named, with the
//! first position at which its log differs; an opening that fails for another cause says nothing of the logs. What is said
//! of logs holds where their keepers tell them.
//!
//! The contracts that say so: `apply`, `Follow::step`; `first_difference`, `differences_tell`; `open_shard`.
#![tactic(auto)]

mod agreeing;
mod applying;
mod following;
mod laws;
mod opening;

pub use agreeing::first_difference;
pub use applying::{Applied, apply};
pub use following::Follow;
pub use laws::differences_tell;
pub use opening::{ShardRefusal, ShardStores, open_shard};
