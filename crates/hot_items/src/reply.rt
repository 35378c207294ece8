//! What a client holds, and what it is told.
ghost use Rattle.std.specs.Prelude.{◌≡◌};
ghost use Rattle.hot_items.specs.declared.reply.HotRefusal.TheVariants.{OutOfMemory as NoMemory};

use std::alloc::{AllocError, AllocFailed};
use std::error::Error;
use std::fmt;
use tao_base::{Answer, OutOfMemory};

/// Of which epoch and version an answer is that a client holds: what it sends with a read.
#[derive(Clone, Copy, Debug, PartialEq, Eq)]
pub struct Hint {
    pub epoch: u64,
    pub version: u64,
}

/// An answer that is held, with its hint.
#[derive(Drop)]
pub struct Held {
    pub hint: Hint,
    pub answer: Answer,
}

/// What comes of a read that was sent with a hint or without one.
#[derive(Drop)]
pub enum HotReply {
    /// The answer, with its epoch and version.
    Full {
        epoch: u64,
        version: u64,
        answer: Answer,
    },
    /// The answer is the one that the client holds with this epoch and version.
    Unchanged {
        epoch: u64,
        version: u64,
    },
}

/// Why a reply isn't taken.
#[derive(Clone, Copy, Debug, PartialEq, Eq)]
pub enum HotRefusal {
    /// The reply says "unchanged" of an epoch and version that aren't held for the query.
    Strange { epoch: u64, version: u64 },
    /// There was no memory to keep the answer, or to give a copy of it.
    OutOfMemory,
}

impl fmt::Display for HotRefusal {
    fn fmt<W: fmt::Write>(&self, f: &mut fmt::Formatter<W>) -> fmt::Result {
        match self {
            HotRefusal::Strange { epoch, version } => {
                write!(f, "nothing is held of epoch {epoch} and version {version}")
            }
            HotRefusal::OutOfMemory => write!(f, "out of memory"),
        }
    }
}

impl Error for HotRefusal {}

impl From<OutOfMemory> for HotRefusal {
    ghost from_gives = { λ _ refusal. refusal ≡ NoMemory };

    fn from(_: OutOfMemory) -> HotRefusal {
        HotRefusal::OutOfMemory
    }
}

impl From<AllocError> for HotRefusal {
    ghost from_gives = { λ _ refusal. refusal ≡ NoMemory };

    fn from(_: AllocError) -> HotRefusal {
        HotRefusal::OutOfMemory
    }
}

impl<T: Drop> From<AllocFailed<T>> for HotRefusal {
    ghost from_gives = { λ _ refusal. refusal ≡ NoMemory };

    fn from(_: AllocFailed<T>) -> HotRefusal {
        HotRefusal::OutOfMemory
    }
}
