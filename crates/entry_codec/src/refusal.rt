//! Why bytes are no entry.
use std::alloc::{AllocError, AllocFailed};
use std::error::Error;
use std::fmt;

/// Why bytes were not decoded.
#[derive(Clone, Copy, Debug, PartialEq, Eq)]
pub enum EntryRefusal {
    /// The bytes spell no entry. The place, from 0, is that of the first byte of the first field
    /// that isn't whole or isn't allowed; where bytes follow a whole entry, of the first of them.
    BadEntry { at: u64 },
    /// There was no memory for what the bytes spell.
    OutOfMemory,
}

impl fmt::Display for EntryRefusal {
    fn fmt<W: fmt::Write>(&self, f: &mut fmt::Formatter<W>) -> fmt::Result {
        match self {
            EntryRefusal::BadEntry { at } => write!(f, "no entry: bad byte at {at}"),
            EntryRefusal::OutOfMemory => write!(f, "out of memory"),
        }
    }
}

impl Error for EntryRefusal {}

impl From<AllocError> for EntryRefusal {
    ghost use Rattle.std.specs.Prelude.{◌≡◌};
    ghost use Rattle.entry_codec.specs.declared.refusal.EntryRefusal.TheVariants.{OutOfMemory};

    ghost from_gives = { λ _ refusal. refusal ≡ OutOfMemory };

    fn from(_: AllocError) -> EntryRefusal {
        EntryRefusal::OutOfMemory
    }
}

impl<T: Drop> From<AllocFailed<T>> for EntryRefusal {
    ghost use Rattle.std.specs.Prelude.{◌≡◌};
    ghost use Rattle.entry_codec.specs.declared.refusal.EntryRefusal.TheVariants.{OutOfMemory};

    ghost from_gives = { λ _ refusal. refusal ≡ OutOfMemory };

    fn from(_: AllocFailed<T>) -> EntryRefusal {
        EntryRefusal::OutOfMemory
    }
}
