//! The sessions that are open, each with its pass: what it has learnt, and so how far its reads must have come.
//!
//! What it promises. The open sessions, each once, in the order of their numbers, each with its place and its
//! pass: one is opened with no floors; what one learns, of an entry or a version, no other does; a floor is answered as it stands, alone or with
//! the session's place, and none exactly where the session isn't open.
//!
//! The contracts that say so: `Sessions::add`, `learn`, `learn_version`, `reserve`, `note`, `start`, `floor`, `at`, `seat`, `is_open`;
//! `SessionLearns`, `SessionLearnsVersion`.
#![tactic(auto)]

mod sessions;

pub use sessions::{CallStart, OpenSession, Sessions};
