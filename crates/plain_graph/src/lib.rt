//! The plain table: what the entries of a log say of its graph, read from the entries themselves.
//!
//! Each function reads all entries of the log. That is what they are for: they stand as close to
//! the definitions as code can, and faster answers are checked against them. A list goes through its
//! changes one by one, in the table of one list, so that no change costs a pass over its edges.
//!
//! What it promises. The plain table answers each query as the definition says, from the entries of a log alone.
//!
//! The contracts that say so: `answer`, `version_of`, `record_of`, `object_of`, `edges_of`, `count_of`.
#![tactic(auto)]

mod answering;
mod changes;
mod lists;
mod objects;
mod records;

pub use answering::answer;
pub use changes::version_of;
pub use lists::{count_of, edges_of};
pub use objects::object_of;
pub use records::record_of;
