//! The calls of a generated workload, made by many threads over one cluster.
//!
//! Each thread makes the calls of its turn, by passes and hands of its own. Then the cluster is closed and settled, all that the threads were told is met with
//! its logs, and these are read.
//!
//! What it promises. With a summary the tables are settled and paired; the lengths of the logs, and the edges that these leave live, are those that it tells;
//! each client's entry is of one of the workload's requests; and of its additions no more are in no log than calls were refused. None was where nothing was in
//! its way: keepers never fail, no entry was old, and no log came to its end. Else the cause is told, and the keepers come back, one for each store.
//!
//! Not said by any contract: when a gate is told of a read, which entries the logs have where there is no summary, and that a log at which a settle is stuck is
//! one of a configured shard.
//!
//! The contracts that say so: `load`.
#![tactic(auto)]

mod asked;
mod draining;
mod ending;
mod gate;
mod link;
mod loading;
mod meeting;
mod sessions;
mod shares;
mod taking;

pub use asked::{BusyRefusal, LoadAsked, LoadSummary};
pub use gate::{Gate, NoGate};
pub use loading::load;
