//! The lines of the store: the configuration's, which comes first, the requests, and their replies.
//! Each stands in a crate of its own, and its types apart from how a line spells them.
//!
//! What it promises. Nothing of its own: it names in one place what reads lines and what spells
//! replies, and the types of what they say.
//!
//! The contracts that say so: none here. They are those of `read_config`, `read_request` and
//! `reply_text`, in their crates.
#![tactic(auto)]

pub use config_json::{ConfigRefusal, read_config};
pub use replies::{
    CacheReply, CallReply, DeliveredReply, InverseEnd, KeptOrNot, Lengths, LineRefused, Message,
    Messages, NameRefused, NodeRefused, NodeReply, NotKept, NotKeptWhy, OpenRefusal, PlanRefused,
    PlanReply, ReadReply, Refilled, Refusal, Repaired, Reply, ScheduledWhy, SessionRefused, Shown,
    ShownItem, Stage, StoreRefused, StreamVerdict, Streamed, Trimmed, UnsettledWhy, When,
    WriteKind, WriteReply, Written,
};
pub use reply_json::{bad_configuration_text, reply_text};
pub use request_json::{LineMemory, LineRefusal, read_request};
pub use requests::{
    Call, EdgeName, KeyName, LeaderName, LinkName, ListName, MessageName, OpenCall, QueryText,
    ReadCall, Request, WriteCall, WriteText,
};
pub use words::{DeliveryWord, HealthWord, LinkWord, PlanWord, ReadWord, Word, WriteWord};
