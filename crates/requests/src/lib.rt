//! Requests, with the names of types, regions, tiers and nodes as lines give them. How a line spells them
//! is not said here. Words stand in families, by what they are asked of: sessions, plans, cache nodes, stores, the health of
//! nodes, links. Each family is a type with one variant a word, in a file of its own.
//!
//! What it promises. What lines ask and what is replied, apart from how it is spelled.
//!
//! The contracts that say so: the types `Request`, `Reply`.
#![tactic(auto)]

mod caches;
mod calls;
mod health;
mod links;
mod plans;
mod request;
mod stores;

pub use caches::{CacheRequest, KeyName, MessageName};
pub use calls::{Call, EdgeName, ListName, QueryText, ReadCall, WriteCall, WriteText};
pub use health::{HealthRequest, LeaderName};
pub use links::{LinkName, LinkRequest};
pub use plans::PlanRequest;
pub use request::{OpenCall, Request};
pub use stores::StoreRequest;
