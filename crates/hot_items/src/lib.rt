//! A client's hot items: answers that it keeps, so that it may ask whether they changed in place of asking for them.
//!
//! Contracts see a cache as the answers that are held, each under its query, the most recently used first, and how
//! many there may be.
//!
//! What it promises. A hint is the epoch and version that are held for the query. A full reply is kept in place of
//! what was held. A reply that says "unchanged" is answered by what is held, where that has the epoch and version that
//! it names, and is refused in every other case: so its answer is that of the last full reply to this query, which had
//! this epoch and version, whatever the calls were.
//!
//! The contracts that say so: `HotCache::hint`, `take`; the laws `unchanged_is_the_last_full` over all calls, and
//! `keys_tell_queries`.
#![tactic(auto)]

mod cache;
mod key;
pub mod laws;
mod reply;
#[cfg(test)]
mod tests;

pub use cache::HotCache;
pub use reply::{Held, Hint, HotRefusal, HotReply};
