//! The nodes of a core at work: its leaders and followers before the stores of all regions, one stage of a read or a
//! write a method.
//!
//! Each call does to the node that acts just what `core_model` says of its stage, and leaves every other as it was; what was
//! consistent stays so, whatever the call answers.
//!
//! The stages themselves stand in `node_stages`, at nodes and stores that are lent: here each is lent the one of its name out of the lists.
//!
//! What it promises. The nodes of a core, one stage a call: opened, they are those of the configuration, empty,
//! with marks at the ends of their logs; `look`, `ask`, `keep`, `end_ask`, `commit`, `apply`, `evict`, `deliver`,
//! `next_refill` and `ask_at_once` do to the node of that name just what their relation says, leave every other,
//! and leave all consistent, whatever they answer; a hit, what a leader or a store gave and what a follower
//! answers are legal; a refill that is taken out can be asked for; `go_down` and `come_up` empty the node of that
//! name, which begins anew at its own marks, or where its region's stores are; `notes`, `note` and `renew` give notes that
//! have seen all of a shard's log; `item` and `mark` are what the node holds and has processed, and `deliver` tells the mark that it leaves. A commit, the
//! merge of a job at its leader or from store to store, and the end of a job that was merged are steps of the
//! plain machine, and leave the stores sound and covered; the first job of a shard is its first open one. Nodes
//! that catch up, which those that are up do, have processed all that their regions' stores have, and hold just what they held
//! that isn't behind these; where each store has all of its shard's log, they hold last versions alone.
//! They take one carry for each shard at which a node lies behind, in the order of the nodes, and no other. What stops them is named by the first
//! that wasn't met: what comes before was met, and nothing behind it has changed (`MeetsDues`). Of a stream into a
//! region's store it is found which entry comes next, and a slave's store takes an entry of its shard's log exactly where that
//! comes next, which changes no other table and no other node. A store's log is cut where each store of its shard has come to, and of nodes it is
//! told which lie behind.
//!
//! The contracts that say so: `Fleet::open`, `look`, `ask_at_once`, `ask`, `read_store`, `notes`, `note`, `renew`,
//! `keep`, `end_ask`, `commit`, `merge`, `merge_far`, `end_job`, `first_job`, `apply`, `evict`, `deliver`,
//! `next_refill`, `lengths`, `shard_lengths`, `catch_up`, `go_down`, `come_up`, `next_entry`, `take_streamed`, `relay`, `item`, `mark`,
//! `restart`, `least_mark`, `names_behind`, `cut_log`, `into_parts`, `of_parts`; `begin`; the
//! law `nodes_catch_up`.
#![tactic(auto)]

mod beginning;
mod catching;
mod deliveries;
mod emptying;
mod evictions;
mod failing;
mod fleet;
mod jobs;
pub mod laws;
mod notes;
mod opening;
mod places;
mod reads;
mod relays;
mod settling;
mod shown;
mod stores;
mod streams;
mod trimming;
mod writes;

pub use beginning::{Caches, begin};
pub use catching::Ends;
pub use deliveries::Delivery;
pub use fleet::{Fleet, FleetParts};
pub use node_stages;
pub use node_stages::FirstLook;
pub use settling::{SettleStop, shard_lengths};
pub use stores::{master_store, region_store};
pub use streams::NextEntry;
