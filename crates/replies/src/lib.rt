//! The replies to lines: what was done, found or refused; and why stores could not be opened. A reply holds nodes, regions and object types as
//! their places in the configuration. How a line spells it is not said here.
//!
//! What it promises. What lines ask and what is replied, apart from how it is spelled.
//!
//! The contracts that say so: the types `Request`, `Reply`.
#![tactic(auto)]

mod calls;
mod lists;
mod nodes;
mod opening;
mod plans;
mod refusals;
mod reply;

pub use calls::{
    CallReply, InverseEnd, ReadReply, ScheduledWhy, WriteKind, WriteReply, Written, query_word,
};
pub use lists::{Lengths, Message, Messages};
pub use nodes::{
    CacheReply, DeliveredReply, KeptOrNot, NodeReply, NotKept, NotKeptWhy, Refilled, Repaired,
    Shown, ShownItem, StreamVerdict, Streamed, Trimmed,
};
pub use opening::OpenRefusal;
pub use plans::{PlanReply, Stage};
pub use refusals::{
    LineRefused, NameRefused, NodeRefused, PlanRefused, Refusal, SessionRefused, StoreRefused,
    UnsettledWhy, When,
};
pub use reply::Reply;
