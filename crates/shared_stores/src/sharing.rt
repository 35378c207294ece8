//! `Sharing`, which ties what lies under the locks of one cluster.
use log_names::Logs;
use std::marker::Brand;

/// Which cluster it is: the names of its shards' logs, and what it was made with. Each call of a program picks it.
///
/// Nothing is known of a value under a lock but what its type keeps. So the types of what lies under the locks of one cluster have this parameter.
pub trait Sharing: Logs {
    ghost use Rattle.shared_stores.specs.Making.{Making};

    /// What the cluster was made with.
    ghost making: { Making };
}

impl Sharing for Brand {
    ghost use Rattle.shared_stores.specs.Making.{unmade};

    ghost making = { unmade };
}
