//! Work that is made of connections: who gives connections, who starts work, and the loop between them.
//!
//! What it promises. An acceptor fails only where its count of faults rose, and a spawner that hands a job back counted that as a fault; those in memory fail
//! exactly at the planned calls. A server ends exactly where its acceptor is at its end, or failed. As many jobs were started or handed back as connections
//! were given, and each that was handed back was run before the next connection was taken.
//!
//! Not said by any contract: that a connection comes, that a thread runs, and what a job does.
//!
//! The contracts that say so: `Acceptor::next`, `Spawner::start`, `serve_work`.
#![tactic(auto)]

mod acceptor;
mod listed;
mod serving;
mod spawner;
mod tcp;
mod threads;

pub use acceptor::{AcceptFailed, Acceptor};
pub use listed::{ListAcceptor, ListSpawner};
pub use serving::serve_work;
pub use spawner::{Spawner, Work, WorkMaker};
pub use tcp::{Tcp, TcpAcceptor};
pub use threads::serve_threads;
