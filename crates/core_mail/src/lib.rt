//! The inboxes of a core: of each leader and follower the messages that wait for it.
//!
//! What it promises. The inboxes of a core, one for each leader and follower, empty when opened: of an entry the
//! follower of each tier that serves the shard, and is up, gets a message behind the others, or it is lost, and
//! no other inbox changes; the message at a place is taken out, copied or shown as it stands, none exactly past
//! the last; each message that waits is one for its node, and the store of the node's region has come to it,
//! through every call and growth of the logs; one node alone is notified; one inbox is emptied, or all are.
//!
//! The contracts that say so: `Mail::open`, `send`, `notify`, `take`, `copy`, `messages`, `clear`, `clear_inbox`; the
//! laws `inboxes_stay`, `arrived_stay`, `notified_of_store`.
#![tactic(auto)]

mod inboxes;
pub mod laws;
mod mail;

pub use mail::Mail;
