//! Batches of reads: a future, each poll of which makes one call of a cluster.
//!
//! What it promises. Requests make a batch where they are 256 at most, each of them a read; more are refused as too many, and else the first that is no read is
//! named. The replies are as many as the requests, in their order; each is what `Cluster::call` promises, with the pass as the replies before it left it, so
//! that within a batch no key goes back. A poll makes one call, where a request is left; it is pending exactly where more than one was, and has then asked for
//! another poll. So a batch is pending once less than it has requests, and never where it has none. The room for all replies is taken as it is made.
//!
//! The contracts that say so: `read_batch`, `run_batch`; `Batch::step`, `finish`, `poll_step` and `poll`; the laws `all_are_answered` and
//! `pending_polls_are_one_less`.
#![tactic(auto)]

mod batch;
mod laws;
mod making;
mod refusal;
mod reply_list;
mod running;

pub use batch::Batch;
pub use laws::{all_are_answered, pending_polls_are_one_less};
pub use making::read_batch;
pub use refusal::BatchRefusal;
pub use reply_list::Replies;
pub use running::run_batch;
