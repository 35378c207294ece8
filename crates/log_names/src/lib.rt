//! Which logs it is that several values behind locks have seen.
//!
//! What it promises. Values that share the parameter `Logs` have seen the same log of each shard.
//!
//! The contracts that say so: none here. Each type with the parameter keeps `IsOfLog` of the notes that it holds.
#![tactic(auto)]

use std::marker::Brand;

/// The name of each shard's log. Each call of a program picks it.
///
/// Nothing is known of a value under a lock, or of a message that waits, but what its type keeps. So the types of what one cluster
/// shares have this parameter, and it ties them.
pub trait Logs {
    ghost use Rattle.log_names.specs.Names.{LogNames};

    /// The name of each shard's log.
    ghost log: { LogNames };
}

impl Logs for Brand {
    ghost use Rattle.log_names.specs.Names.{unnamed_logs};

    ghost log = { unnamed_logs };
}
