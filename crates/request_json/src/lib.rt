//! The lines of requests: the JSON that says one, field by field.
//!
//! What it promises. A line is a request exactly where it is one of the 31 words with its fields; else the first
//! broken rule is named; then the size of its data.
//!
//! The contracts that say so: `read_request`.
#![tactic(auto)]

mod caches;
mod calls;
mod fields;
mod health;
mod inner;
mod links;
mod plans;
mod read;
mod refusal;
mod sessions;
mod stores;
mod word;

pub use json_fields::lines::LineMemory;
pub use read::read_request;
pub use refusal::LineRefusal;
