//! One association list: its edges, kept in the order of lists while they come and go, and how the edge to each id stands.
//!
//! What it promises. The edges of a list stand in the order of lists while they are set and cut, and each edge's
//! record is what its last change left.
//!
//! The contracts that say so: `EdgeTable`, `EdgesInOrder`.
#![tactic(auto)]

mod edges;
mod order_key;
mod table;

pub use edges::EdgesInOrder;
pub use table::{EdgeTable, Standing};
