//! The audit of a load: what the logs of all shards hold after a workload's requests, read of the keepers, log by log on threads.
//!
//! It is the judge of a load that many threads ran, so it trusts none of them: it reads each log whole, counts the edges that the log leaves, and
//! compares each entry that a client asked for with the write of its number in the workload's list.
//!
//! What it promises. Where the tables are told, an audit that passes tells each log's length and how many edges the logs leave live, and each client's
//! entry has the origin of one write of the list and fits it; one that doesn't pass names the first entry, shard by shard and position by position, of
//! which that isn't so. It changes no table, gives the keepers back in their order, and answers a fault only where one of them counted one. The edges that
//! count as live are those whose record is live, each once.
//!
//! The contracts that say so: `audit`; the law `live_edges_by_records`.
#![tactic(auto)]

mod audits;
mod found;
mod kept;
pub mod laws;
mod live;
mod logged;
mod tally;
mod writes;

pub use audits::{AuditRefusal, Audited, LoadAudit, audit};
