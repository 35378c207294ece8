//! Why stores could not be opened.
ghost use Rattle.std.specs.Prelude.{Some};
ghost use Rattle.replies.specs.OpenTexts.{open_text};

use std::error::Error;
use std::fmt;
use tao_base::StoreName;

/// Why the stores of a configuration could not be opened.
#[derive(Clone, Copy, Debug, PartialEq, Eq)]
pub enum OpenRefusal {
    /// A keeper failed, and counted that as a fault.
    KeeperFault,
    /// A store was first opened with another line, and keeps that.
    OtherLine,
    /// At this position, and at none before, what the store has of its shard's log isn't what the shard's master has.
    Disagree { store: StoreName, position: u64 },
    /// There was no memory. The stores may be opened again.
    OutOfMemory,
}

impl fmt::Display for OpenRefusal {
    ghost output = { λ refusal. Some (open_text refusal) };

    fn fmt<W: fmt::Write>(&self, f: &mut fmt::Formatter<W>) -> fmt::Result {
        match self {
            OpenRefusal::KeeperFault => write!(f, "the keeper failed"),
            OpenRefusal::OtherLine => write!(f, "a store was first opened with another line"),
            OpenRefusal::Disagree { .. } => write!(f, "a store's log isn't its master's"),
            OpenRefusal::OutOfMemory => write!(f, "out of memory"),
        }
    }
}

impl Error for OpenRefusal {}
