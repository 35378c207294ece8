//! How a load ends.
ghost use Rattle.std.specs.Prelude.{◌≡◌};
ghost use Rattle.load_top.specs.Statuses.{came_code, first_code};

use first_line::FirstStop;
use keepers::SteadyKeeper;

/// What came of a load of which a line tells.
#[derive(Clone, Copy)]
pub(crate) enum Came {
    /// It was settled.
    Settled,
    /// Its settle was stuck.
    Stuck,
    /// A log has an entry of none of its calls.
    Strange,
}

impl Came {
    /// The program's exit status.
    pub(crate) fn code(self) -> u8
        ensures { result ≡ came_code self }
    {
        match self {
            Came::Settled => 0,
            Came::Stuck => 10,
            Came::Strange => 12,
        }
    }
}

/// A load of which a line tells, and the keepers of its stores.
pub(crate) struct Ended {
    pub came: Came,
    pub keepers: Vec<SteadyKeeper>,
}

/// The program's exit status where no load's line was written whole.
pub(crate) fn first_code(stop: FirstStop) -> u8
    ensures { result ≡ first_code stop }
{
    match stop {
        FirstStop::Configuration => 3,
        FirstStop::Interrupted(interrupt) => interrupt.code(),
    }
}
