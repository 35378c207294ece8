//! The lines of replies: JSON with no space, the members in ascending order of the bytes of their names.
//!
//! A reply holds nodes, regions and object types as their places; its text has the configuration's
//! names for them.
//!
//! What it promises. The text of each reply and refusal, by the configuration's names, and of what came of a load.
//!
//! The contracts that say so: `reply_text`, `load_text`.
#![tactic(auto)]

mod added;
mod calls;
mod loads;
mod nodes;
mod plans;
mod reads;
mod refusals;
mod reply;
mod said;
mod spelled;
mod texts;
mod values;

pub use loads::{bad_load_text, load_text};
pub use reply::{bad_configuration_text, reply_text};
