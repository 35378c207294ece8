//! Lines as JSON: the value that a line is, and the members of its objects, each by its name and its
//! kind.
//!
//! What it promises. A line is JSON exactly as `serde_json` reads it, up to its length; a member is found exactly
//! where it is there, of its kind and in its range; the items of an array, each read in the same way.
//!
//! The contracts that say so: `parse`, `number_at`, `text_at`, `name_at`, `has_only` and their kin, `each_at`.
#![tactic(auto)]

pub mod fields;
pub mod items;
pub mod lines;
mod members;
mod numbers;
mod reading;
pub mod value;
