//! The core: what each request does to the sessions, the nodes and the shards' logs, and its reply.
//!
//! What it promises. The stores of all regions are opened in order, or the first that is not says why, with empty
//! nodes before them, all up and at the ends of their regions' stores; each request is answered by its first
//! refusal in a fixed order, or by what its nodes did: a write, along the route of its session, is a step of the
//! plain machine; a read is a hit of its follower or a miss, its
//! answer legal at its session's floor, its hops the carries that it took, and what is kept answers again and has
//! come as far as its follower's mark; a critical one misses nothing; a write that was carried out, held or not,
//! teaches its session its entry and the one that it wrote at the other end, and nothing else a session; `cut`
//! and `mend` change the one direction that they name; a step of a stream carries an entry from its shard's master
//! store to a slave's, which takes it where it comes next, tells its verdict and the position that comes next then,
//! and is refused into a master's store; a trim cuts a store's log at the least of its position and of what all stores of
//! its shard have, lets the nodes of the store's region that lie behind begin anew, and tells the cut and how many of these
//! are up; no entry and no job changes by it; a repair is of the first open job of its shard, and tells
//! that one and whether an entry was written; a settle runs all jobs, moves every stream to its end, lets every node
//! that is up catch up with its region's stores, empties the inboxes and tells the lengths of the logs: then no job is
//! open, every edge has its inverse, every store has its shard's whole log, and each such node holds exactly what it
//! held of last versions; one that stops says why, where, and what it did; an audit's
//! answer is the whole log's with its length; a message that is delivered, or delivered again, is the one at its
//! place, and its node has processed it and then has the mark that is said; one that is dropped is lost alone; a
//! refill is the oldest of its follower, read at its floor; `hold` and `advance` do one stage each, and tell the
//! one that follows, or the reply of the call that has ended; each open ask is that of one held read; what is
//! shown as held is exact in its log, with the node's mark; nothing else changes a table, a session, a node or an
//! inbox. A node that goes down loses its items, asks, refills and messages, and keeps its low-water marks; one that comes
//! up begins empty, where its region's stores are; a tier suspects a leader or trusts it; each tells whether that was a
//! change, and where one is refused nothing changes. The nodes are consistent before and after each call (`StaysUsable`),
//! whichever are up, the stores sound and
//! covered; each message names an entry of its shard's log to which its node's store has come, and each key has come
//! to the floors of the sessions. No low-water mark falls through a request, and who
//! comes up is at its stores, so that after a settle each read that begins answers at the log's version until a log
//! grows, whichever nodes are down. What a node holds of a key, its mark for a shard, which is said as 0 where it is down,
//! and a session's floor are said as they stand.
//!
//! The contracts that say so: `Core::open`, `Core::call`, `Core::settle`, `Core::item`, `Core::mark`,
//! `Core::floor`; `AnswersRequest`, `AnswersCall`, `AnswersDeliver`, `AnswersSecond`,
//! `AnswersLoss`, `AnswersRefill`, `AnswersShow`, `AnswersInbox`, `AnswersHold`, `AnswersAdvance`,
//! `AnswersRepair`, `AnswersStream`, `AnswersTrim`, `AnswersSettle`, `IsAudit`, `AnswersHealth`, `IsCoreOf`; the law `settled_until_a_commit`.
#![tactic(auto)]

mod audits;
mod caches;
mod calls;
mod deliveries;
mod health;
mod holding;
pub mod laws;
mod links;
mod refusals;
mod resolving;
mod serving;
mod settling;
mod stores;
mod streams;
mod teaching;
mod trimming;

pub use core_sessions::OpenSession;
pub use serving::Core;
