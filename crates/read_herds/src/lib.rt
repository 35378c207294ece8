//! `HerdRead`, a read of a cluster which waits where another one reads the same key in the same tier, in place of asking the stores again.
//!
//! What it promises. The reply is what `Cluster::call` promises, from the pass and the link as the poll found them to these as it leaves them. A poll is
//! pending only where the read's own count of waits rose in it from 0 to 1, so at most once, and then nothing was read, and the task has registered with the
//! herds. Writes, critical reads, and reads one of whose names isn't there join no herd. That those who wait are spared calls of the stores, and that they
//! are woken, no contract says: the first is tested.
//!
//! The contracts that say so: `HerdRead::make`, `step`, `waits`, and `poll` by the members of `Future`; `herd_read`; `Herd::join`, `end`; of what lies
//! behind the herds' lock `herd_state::HerdState`.
#![tactic(auto)]

mod asking;
mod driving;
mod future;
mod herd;
mod joining;
mod reading;

pub use driving::herd_read;
pub use herd::Herd;
pub use herd_state;
pub use reading::HerdRead;
