//! A server of one cluster: its beginning, a thread for each of its connections, and one that has the cluster's nodes take what waits for them.
//!
//! What it promises. Statuses have their causes: a server ends with 0 exactly where its acceptor is at its end, and with 11 only where that failed. It then
//! wrote whole that it serves, after a first line that is a configuration; with any other status it wrote a front of that line, or refused the configuration.
//! Of the source the first line is taken. What is said of the connections is in `work_server`, and what each is replied in `cluster_talks`.
//!
//! Not said by any contract: that a thread runs, what the connections of a server came to, and that what waits for a node is taken.
//!
//! The contracts that say so: `serve`, `begin_serve`, `serve_top`.
#![tactic(auto)]

mod beginning;
mod clients;
mod pumping;
mod serving;
mod top;

pub use beginning::begin_serve;
pub use clients::{Clients, serve};
pub use top::serve_top;
