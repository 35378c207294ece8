//! Whether what a request names is there: regions, tiers, nodes, types and shards.
//!
//! A request that is checked holds the places of what it names, and one that isn't is refused for the
//! first name that isn't there.
//!
//! What it promises. A request's names are given their places in the configuration, or the first refusal of a
//! name in a fixed order: tier, node, type, shard, the same type (also a loop turned to its type's inverse), too
//! many ids; each region, tier, cache node, shard and key that is then named is the configuration's, and a change
//! of type is one.
//!
//! The contracts that say so: `check` (`checked`, `placed`).
#![tactic(auto)]

mod caches;
mod calls;
mod checked;
mod health;
mod kind;
mod links;
mod names;
mod plans;
mod refusal;
mod request;
mod stores;

pub use caches::CheckedCache;
pub use checked::{Checked, CheckedCall, CheckedRead, CheckedWrite};
pub use health::{CheckedHealth, LeaderPlace};
pub use links::{CheckedLink, LinkPlace};
pub use plans::CheckedPlan;
pub use refusal::CheckRefusal;
pub use request::check;
pub use stores::CheckedStore;
