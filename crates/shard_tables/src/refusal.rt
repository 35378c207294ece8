//! Why a store gives no answer.
use std::alloc::AllocError;
use std::error::Error;
use std::fmt;
use tao_base::OutOfMemory;
use tao_keeper::KeepFail;
use write_touches::TouchRefusal;

/// Why a store gave no answer. No table has changed then.
#[derive(Clone, Copy, Debug, PartialEq, Eq)]
pub enum StoreRefusal {
    /// A call of the keeper failed, and its count of faults rose.
    KeeperFault,
    /// The log has this many entries, which are all that it may have.
    LogFull { length: u64 },
    /// The object would have this serial, which no object has.
    ShardFull { serial: u64 },
    /// An edge that the write would stamp has a stamp of this number, which is the last.
    StampFull { number: u64 },
    /// The entry of the write's origin stands at this position, and is old: it is at or below the cut.
    TooOld { cut: u64, position: u64 },
    /// The entry at this position has the write's origin, and is of another write.
    SeqReused { position: u64 },
    /// There was no memory for the call, which may be made again.
    OutOfMemory,
}

impl fmt::Display for StoreRefusal {
    fn fmt<W: fmt::Write>(&self, f: &mut fmt::Formatter<W>) -> fmt::Result {
        match self {
            StoreRefusal::KeeperFault => write!(f, "the keeper failed"),
            StoreRefusal::LogFull { length } => write!(f, "the log is full: {length} entries"),
            StoreRefusal::ShardFull { serial } => write!(f, "the shard is full: serial {serial}"),
            StoreRefusal::StampFull { number } => {
                write!(f, "the edge's stamps are used up: {number}")
            }
            StoreRefusal::TooOld { cut, position } => {
                write!(
                    f,
                    "the write's entry is old: position {position}, cut {cut}"
                )
            }
            StoreRefusal::SeqReused { position } => {
                write!(f, "another write has this number: position {position}")
            }
            StoreRefusal::OutOfMemory => write!(f, "out of memory"),
        }
    }
}

impl Error for StoreRefusal {}

impl From<KeepFail> for StoreRefusal {
    ghost use Rattle.std.specs.Prelude.{◌≡◌};
    ghost use Rattle.shard_tables.specs.Refusals.{keeper_refused};

    ghost from_gives = { λ fail refusal. refusal ≡ keeper_refused fail };

    fn from(fail: KeepFail) -> StoreRefusal {
        match fail {
            KeepFail::Failed => StoreRefusal::KeeperFault,
            KeepFail::OutOfMemory => StoreRefusal::OutOfMemory,
        }
    }
}

impl From<TouchRefusal> for StoreRefusal {
    ghost use Rattle.std.specs.Prelude.{◌≡◌};
    ghost use Rattle.shard_tables.specs.Refusals.{write_refused};

    ghost from_gives = { λ fail refusal. refusal ≡ write_refused fail };

    fn from(fail: TouchRefusal) -> StoreRefusal {
        match fail {
            TouchRefusal::KeeperFault => StoreRefusal::KeeperFault,
            TouchRefusal::ShardFull { serial } => StoreRefusal::ShardFull { serial },
            TouchRefusal::StampFull { number } => StoreRefusal::StampFull { number },
            TouchRefusal::OutOfMemory => StoreRefusal::OutOfMemory,
        }
    }
}

impl From<AllocError> for StoreRefusal {
    ghost use Rattle.std.specs.Prelude.{◌≡◌};
    ghost use Rattle.shard_tables.specs.declared.refusal.StoreRefusal.TheVariants.{OutOfMemory};

    ghost from_gives = { λ _ refusal. refusal ≡ OutOfMemory };

    fn from(_: AllocError) -> StoreRefusal {
        StoreRefusal::OutOfMemory
    }
}

impl From<OutOfMemory> for StoreRefusal {
    ghost use Rattle.std.specs.Prelude.{◌≡◌};
    ghost use Rattle.shard_tables.specs.declared.refusal.StoreRefusal.TheVariants.{OutOfMemory};

    ghost from_gives = { λ _ refusal. refusal ≡ OutOfMemory };

    fn from(_: OutOfMemory) -> StoreRefusal {
        StoreRefusal::OutOfMemory
    }
}
