//! Why a repair gives no answer.
use shard_tables::StoreRefusal;
use std::error::Error;
use std::fmt;
use tao_link::LinkFailed;

/// Why a repair gave no answer. The job is open as before, and at most merged at the other store.
#[derive(Clone, Copy, Debug, PartialEq, Eq)]
pub enum RepairRefusal {
    /// A call of a keeper failed, and its count of faults rose. Where that was the end of the job, it is merged.
    KeeperFault,
    /// A carry failed, and the link counted that. Where that was the carry back, the job is merged.
    LinkFault,
    /// The job is to be merged with an entry, and the other store's log has this many, which are all that it may have.
    LogFull { length: u64 },
    /// There was no memory for the call, which may be made again.
    OutOfMemory,
}

impl fmt::Display for RepairRefusal {
    fn fmt<W: fmt::Write>(&self, f: &mut fmt::Formatter<W>) -> fmt::Result {
        match self {
            RepairRefusal::KeeperFault => write!(f, "the keeper failed"),
            RepairRefusal::LinkFault => write!(f, "a link failed"),
            RepairRefusal::LogFull { length } => write!(f, "the log is full: {length} entries"),
            RepairRefusal::OutOfMemory => write!(f, "out of memory"),
        }
    }
}

impl Error for RepairRefusal {}

impl From<LinkFailed> for RepairRefusal {
    ghost use Rattle.std.specs.Prelude.{◌≡◌};
    ghost use Rattle.edge_repair.specs.declared.refusal.RepairRefusal.TheVariants.{LinkFault};

    ghost from_gives = { λ _ refusal. refusal ≡ LinkFault };

    fn from(_: LinkFailed) -> RepairRefusal {
        RepairRefusal::LinkFault
    }
}
