//! A cached association list: its first edges, and how many it has. It decides some queries of its
//! list, and stays exact by the changes of the list's log.
//!
//! What it promises. First edges of a list, however many, and its length: a change keeps them exact from one
//! version to the next; a query is decided exactly by the table of `docs/MODEL.md`, and then answered as every
//! list that begins so; the shortest front that decides; what a list answers, of edges that are held or referred
//! to.
//!
//! The contracts that say so: `Prefix::apply`, `Prefix::read`, `Prefix::count`, `Prefix::front`,
//! `shortest_front`, `answer_of`, `edges_at`.
#![tactic(auto)]

mod answering;
mod as_edge;
mod changing;
mod deciding;
mod fronts;
mod order;
mod prefix;

pub use answering::{answer_of, edges_at};
pub use as_edge::AsEdge;
pub use fronts::shortest_front;
pub use prefix::{Prefix, Verdict};
