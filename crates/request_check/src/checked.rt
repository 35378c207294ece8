//! Requests, with the places of what they name.
ghost use Rattle.std.specs.Prelude.{◌≡◌};
ghost use Rattle.tao_base.specs.declared.entry.Origin.TheVariants.{Client};

use crate::caches::CheckedCache;
use crate::health::CheckedHealth;
use crate::links::CheckedLink;
use crate::plans::CheckedPlan;
use crate::stores::CheckedStore;
use tao_base::{Origin, Query, Write};

/// A session's write, by its number.
#[derive(Drop)]
pub struct CheckedWrite {
    pub session: u32,
    pub seq: u64,
    pub write: Write,
}

impl CheckedWrite {
    /// Whose write it is: that of its session, under its number.
    pub fn origin(&self) -> Origin
        ensures { result ≡ Client self.now.session self.now.seq }
    {
        Origin::Client {
            session: self.session,
            seq: self.seq,
        }
    }
}

/// A session's read. A critical one is answered by the master's leader.
#[derive(Drop)]
pub struct CheckedRead {
    pub session: u32,
    pub query: Query,
    pub critical: bool,
}

/// One of the eleven calls on objects and associations.
#[derive(Drop)]
pub enum CheckedCall {
    Write(CheckedWrite),
    Read(CheckedRead),
}

/// What a line asks, with places in place of names: each is of the configuration. Nodes are of the kind
/// that the request takes.
#[derive(Drop)]
pub enum Checked {
    Open {
        session: u32,
        region: u16,
        tier: u16,
    },
    Call(CheckedCall),
    Plan(CheckedPlan),
    Cache(CheckedCache),
    Store(CheckedStore),
    Health(CheckedHealth),
    Link(CheckedLink),
}
