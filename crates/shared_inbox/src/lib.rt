//! An inbox that threads share: messages of maintenance, each of its shard's log, in the order in which they were put.
//!
//! What it promises. A message that is taken is of its shard's log, and where that is told, it names position, keys and versions of an
//! entry of the view of the note that it holds; a message that isn't put comes back; the count of a pass rises by one
//! exactly where a `take` of it answers None.
//!
//! The contracts that say so: `SharedInbox::put`, `take`; `InboxPass::empties`, `split`. That None comes only where the inbox
//! was empty at a moment of the call, that each message is taken once, and the order, no clause can say: its tests, which stand in
//! `store_tests`, show them.
#![tactic(auto)]

mod inbox;
mod rule;

pub use inbox::{InboxPass, SharedInbox};
