//! `Cluster`, whose nodes lie behind locks, so that many threads call it.
//!
//! A cluster serves reads and writes of sessions, each of which has a pass of its own; any thread pumps messages and entries by a hand on a node. What is done
//! lies below: the opening, the reads, the writes, the pumps and the closing are crates of their own.
//!
//! What it promises. Any other request is refused as one that isn't served here, a call of another session than the pass's as one that has no session, and one
//! whose names aren't there as a core refuses it, and then nothing was done. Each other call is answered as a read or a write is, in what its pass has then
//! seen. A pass goes on, whatever the reply. A cluster that is closed has all that lay behind its locks, which may be settled.
//!
//! The contracts that say so: `Cluster::make`, `config`, `cut_of`, `pass`, `call`, `hand`, `pump`, `close`; the law `refusals_are_exact`.
#![tactic(auto)]

mod calling;
mod closing;
mod cluster;
mod laws;
mod pumping;

pub use cluster::Cluster;
pub use cluster_closing;
pub use cluster_closing::cluster_opening;
pub use cluster_pumps;
pub use laws::refusals_are_exact;
