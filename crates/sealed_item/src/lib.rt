//! A fill: what an object or a list is at a version, handed around with the note of the log in
//! which it is exact.
//!
//! What it promises. A fill: its content is exact at its version in the note that it carries, and stays so as the
//! note's view grows.
//!
//! The contracts that say so: `Fill::seal`, `look`, `into_parts`; the laws `fills_are_sealed`, `fills_stay`,
//! `contents_stay`.
#![tactic(auto)]

mod content;
mod fill;
pub mod laws;

pub use content::Content;
pub use fill::Fill;
pub use list_prefix;
pub use tao_schema;
