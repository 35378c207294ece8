//! A changeset: one change of an object or a list, handed around with the note of the log of which
//! it is a touch.
//!
//! What it promises. Where the log is told, a changeset has the touch of the entry at its place, one of its
//! note's view, and after is before + 1.
//!
//! The contracts that say so: `Changeset::of`, `look`, `into_parts`; the laws `changesets_are_of_one_touch`,
//! `touches_stay`.
#![tactic(auto)]

mod changeset;
pub mod laws;

pub use changeset::Changeset;
