//! `talk`: one connection of a client to a cluster, from its first line to its end.
//!
//! What it promises. Each line that comes out of the connection gets one reply line, in their order: all of them with status 0, and with another one a front of
//! these was written. A connection has a pass of its own. Its first `open` of a tier that is there names the pass; before it a read, a write or a batch is
//! refused, and so is a second `open`. A read or a write gets what a cluster replies by that pass, and a batch one line of what a cluster replies to its reads,
//! one after another. A line that can't be read, and a word that isn't served here, are refused. Whatever is refused leaves the connection as it was. Each
//! status has its cause.
//!
//! The contracts that say so: `talk`.
#![tactic(auto)]

mod answering;
mod batches;
mod conn;
mod host;
mod lines;
mod opening;
mod refusing;
mod reply;
mod serving;
mod talking;

pub use conn::Conn;
pub use reply::TalkReply;
pub use talking::talk;
