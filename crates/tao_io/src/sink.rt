//! Sinks: where bytes go.
ghost use Rattle.std.specs.Prelude.{ℕ, ◌≡◌, List, Option};
ghost use Rattle.std.specs.Io.{WritesAtMost};
ghost use Rattle.std.specs.Io.KnownBytes.{Keeps, WriteAppends};
ghost use Rattle.counts.specs.Count.{HasCause};
ghost use Rattle.tao_io.specs.Sink.{TakesSome};

use std::error::Error;
use std::fmt;

/// A sink could not take bytes, and counted that as a fault.
#[derive(Clone, Copy, Debug, PartialEq, Eq)]
pub struct SinkFailed;

impl fmt::Display for SinkFailed {
    fn fmt<W: fmt::Write>(&self, f: &mut fmt::Formatter<W>) -> fmt::Result {
        write!(f, "a sink failed")
    }
}

impl Error for SinkFailed {}

/// Where bytes go.
pub trait Sink {
    /// The bytes that it took, where the sink tells them.
    ghost taken: { Self → Option (List ℕ) };

    /// How often it failed. The count never falls.
    ghost faults: { Self → ℕ };

    /// Takes some of the piece, from its front, and says how many bytes. Taking none of a piece that isn't
    /// empty is a fault too. A call that failed took nothing.
    fn put(&mut self, piece: &[u8]) -> Result<usize, SinkFailed>
        ensures bound { WritesAtMost result piece.now }
        ensures bytes { WriteAppends (taken self.old) (taken self.new) result piece.now }
        ensures cause { HasCause (faults self.old) (faults self.new) result }
        ensures some { TakesSome (faults self.old) (faults self.new) result piece.now };

    /// Hands on what it took and still holds, so that who waits for it sees it. A sink that holds nothing back has nothing to do.
    fn flush(&mut self) -> Result<(), SinkFailed>
        ensures bytes { Keeps (taken self.old) (taken self.new) }
        ensures cause { HasCause (faults self.old) (faults self.new) result };

    /// Is told that so many of all calls of a run are done, for who watches it. It takes no bytes by that.
    fn progress(&mut self, done: u64, all: u64)
        ensures taken { taken self.new ≡ taken self.old }
        ensures faults { faults self.new ≡ faults self.old };
}
