//! The values of the graph store: ids, keys, objects, edges, the entries of a shard's log, writes,
//! queries and answers.
//!
//! Contracts see each type over a vector as a list, a text as the list of its bytes, an id as its
//! number, and every other type as the record or the variant that it is.
//!
//! What it promises. Ids have a serial that isn't 0; data is in key order, at most 32 pairs and 4,096 spelled
//! bytes, and is refused exactly past that, with both numbers; a set of ids is strictly rising and has exactly
//! the ids given; copies equal their source; order and equality are the definitions'; a key, a query and a write
//! tell their shard, a query its key, a write its entry's kind.
//!
//! The contracts that say so: `Id::read`, `Data::of_pairs`, `IdSet::of`, `IdSet::contains`, `Key::shard`,
//! `Query::key`, `Query::shard`, `Write::shard`, `Write::kind`, the functions of `laws`.
#![tactic(auto)]

pub mod data;
pub mod edge;
pub mod entry;
pub mod id;
pub mod laws;
pub mod memory;
pub mod name;
pub mod query;
pub mod text;
pub mod write;

pub use data::{Data, DataRefusal, Pair};
pub use edge::{Edge, EdgeState, Edges, Object, Stamp, Time};
pub use entry::{Change, Entry, Kind, Origin, Touch, Touches};
pub use id::{AType, Id, Key, OType, StoreName};
pub use memory::OutOfMemory;
pub use name::is_name;
pub use query::{Answer, IdSet, Query};
pub use text::{Bytes, Text};
pub use write::Write;
