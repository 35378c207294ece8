//! The log of a shard, shared between the pen that adds its entries and any number of notes.
//!
//! What threads share is one word, the log's length. The entries stand in proofs alone: contracts see a pen or a note
//! as a beginning of the one log, the pen as the whole of it. So a fact about a note's view, as that an item is exact
//! there, is a fact about the log, and it stays true while the view grows.
//!
//! What it promises. One log behind a pen and notes: at every moment each note's view begins the log; an append
//! is one step and answers the entry's position; a look leaves the view as it was or longer; a meeting leaves the
//! longer view; a renewed note has seen the whole log, into which its view has grown.
//!
//! The contracts that say so: `ShardLog::make`, `Pen::append`, `Pen::len`, `Pen::meet`, `Pen::note`,
//! `Pen::renew`, `Note::split`, `Note::meet`, `Note::look`, and the laws of growing views.
#![tactic(auto)]

mod append;
pub mod growth;
mod note;
mod pen;
mod rule;

pub use note::Note;
pub use pen::{Pen, ShardLog};
