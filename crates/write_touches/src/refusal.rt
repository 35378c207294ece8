//! Why a write has no touches.
use std::alloc::AllocError;
use tao_keeper::KeepFail;

/// Why no touches of a write are given. No table has changed then.
#[derive(Clone, Copy, PartialEq, Eq)]
pub enum TouchRefusal {
    /// A call of the keeper failed, and its count of faults rose.
    KeeperFault,
    /// The object would have this serial, which no object has.
    ShardFull { serial: u64 },
    /// An edge that the write would stamp has a stamp of this number, which is the last.
    StampFull { number: u64 },
    /// There was no memory.
    OutOfMemory,
}

impl From<KeepFail> for TouchRefusal {
    ghost use Rattle.std.specs.Prelude.{◌≡◌};
    ghost use Rattle.write_touches.specs.Refusals.{touches_refused};

    ghost from_gives = { λ fail refusal. refusal ≡ touches_refused fail };

    fn from(fail: KeepFail) -> TouchRefusal {
        match fail {
            KeepFail::Failed => TouchRefusal::KeeperFault,
            KeepFail::OutOfMemory => TouchRefusal::OutOfMemory,
        }
    }
}

impl From<AllocError> for TouchRefusal {
    ghost use Rattle.std.specs.Prelude.{◌≡◌};
    ghost use Rattle.write_touches.specs.declared.refusal.TouchRefusal.TheVariants.{OutOfMemory};

    ghost from_gives = { λ _ refusal. refusal ≡ OutOfMemory };

    fn from(_: AllocError) -> TouchRefusal {
        TouchRefusal::OutOfMemory
    }
}
