//! Acceptors: where connections come from.
ghost use Rattle.std.specs.Prelude.{ℕ};
ghost use Rattle.counts.specs.Count.{HasCause};
ghost use Rattle.work_server.specs.Counting.{CountsEnd, CountsGiven};

use std::error::Error;
use std::fmt;
use tao_io::{Sink, Source};

/// An acceptor could give no connection, and counted that as a fault.
#[derive(Clone, Copy, Debug, PartialEq, Eq)]
pub struct AcceptFailed;

impl fmt::Display for AcceptFailed {
    fn fmt<W: fmt::Write>(&self, f: &mut fmt::Formatter<W>) -> fmt::Result {
        write!(f, "an acceptor failed")
    }
}

impl Error for AcceptFailed {}

/// Where connections come from.
pub trait Acceptor {
    /// What a connection's client writes.
    type In: Source + Send + Drop;

    /// What a connection's client reads.
    type Out: Sink + Send + Drop;

    /// How many connections it gave.
    ghost given: { Self → ℕ };

    /// How often it was at its end.
    ghost ends: { Self → ℕ };

    /// How often it failed. The count never falls.
    ghost faults: { Self → ℕ };

    /// Gives the next connection, and none at its end.
    fn next(&mut self) -> Result<Option<(Self::In, Self::Out)>, AcceptFailed>
        ensures given { CountsGiven (given self.old) (given self.new) result }
        ensures ends { CountsEnd (ends self.old) (ends self.new) result }
        ensures cause { HasCause (faults self.old) (faults self.new) result };
}
