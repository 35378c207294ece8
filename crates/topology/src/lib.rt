//! The configuration of the store: its schema, its regions with their leaders and tiers, the master
//! regions of its shards, and its limits.
//!
//! Contracts see each type over a vector as a list, a name as the list of its bytes, and a
//! configuration as its settings.
//!
//! What it promises. A configuration and its parts keep their rules: names differ, numbers are in range, masters
//! are regions; the text of a node, and the node, tier or region of a text; who serves a shard, for every state
//! of the nodes: the first in turn that is up, for a leader besides not suspected by the session's tier, and none
//! exactly where there is none such.
//!
//! The contracts that say so: the types `Config`, `Regions`, `Tiers`, `Masters`, `Name`; `Regions::find`,
//! `Tiers::find`, `Config::find_tier`, `Config::node`, `Config::node_text`; `Topology::follower`, `leader`,
//! `preferred`, `master`, `set_up`, `set_trust`.
#![tactic(auto)]

mod choices;
pub mod config;
mod counts;
mod flags;
pub mod lookup;
pub mod masters;
pub mod name;
mod named;
pub mod nodes;
pub mod regions;
mod states;
pub mod tiers;

pub use config::Config;
pub use masters::MasterRegions;
pub use name::Name;
pub use regions::{Region, Regions};
pub use states::Topology;
pub use tiers::{Tier, Tiers};
