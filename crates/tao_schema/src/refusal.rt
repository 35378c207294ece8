//! Why a schema is refused.
ghost use Rattle.std.specs.Prelude.{◌≡◌};
ghost use Rattle.tao_schema.specs.declared.refusal.SchemaRefusal.TheVariants.{OutOfMemory};

use std::alloc::AllocError;
use std::error::Error;
use std::fmt;

/// One of the two lists of a schema.
#[derive(Clone, Copy, Debug, PartialEq, Eq)]
pub enum SchemaField {
    Objects,
    Assocs,
}

/// Why a schema is refused.
#[derive(Clone, Copy, Debug, PartialEq, Eq)]
pub enum SchemaRefusal {
    /// A list breaks a rule. The place is its length, where that is out of range, and else the least
    /// place, from 0, of an entry that breaks a rule.
    BadField { field: SchemaField, place: u64 },
    /// There was no memory for the schema.
    OutOfMemory,
}

impl fmt::Display for SchemaField {
    fn fmt<W: fmt::Write>(&self, f: &mut fmt::Formatter<W>) -> fmt::Result {
        match self {
            SchemaField::Objects => write!(f, "objects"),
            SchemaField::Assocs => write!(f, "assocs"),
        }
    }
}

impl fmt::Display for SchemaRefusal {
    fn fmt<W: fmt::Write>(&self, f: &mut fmt::Formatter<W>) -> fmt::Result {
        match self {
            SchemaRefusal::BadField { field, place } => write!(f, "bad {field} at {place}"),
            SchemaRefusal::OutOfMemory => write!(f, "out of memory"),
        }
    }
}

impl Error for SchemaRefusal {}

impl From<AllocError> for SchemaRefusal {
    ghost from_gives = { λ _ refusal. refusal ≡ OutOfMemory };

    fn from(_: AllocError) -> SchemaRefusal {
        SchemaRefusal::OutOfMemory
    }
}
