//! Why a run ends before the end of its input, and the status that says it.
ghost use Rattle.std.specs.Prelude.{◌≡◌};
ghost use Rattle.tao_top.specs.Stop.{stop_code};

use first_line::{FirstStop, Interrupt};
use std::alloc::AllocError;

/// Why a run ends before the end of its input.
#[derive(Clone, Copy, PartialEq, Eq)]
pub(crate) enum Stop {
    /// The first line is no configuration, or not the one that a store was first opened with.
    Configuration,
    /// The keepers failed at the opening of the stores.
    Keepers,
    /// The log of a slave's store doesn't begin its master's.
    Stores,
    Interrupted(Interrupt),
}

impl From<Interrupt> for Stop {
    ghost use Rattle.std.specs.Prelude.{◌≡◌};
    ghost use Rattle.tao_top.specs.declared.stop.Stop.TheVariants.{Interrupted};

    ghost from_gives = { λ interrupt stop. stop ≡ Interrupted interrupt };

    fn from(interrupt: Interrupt) -> Stop {
        Stop::Interrupted(interrupt)
    }
}

impl From<FirstStop> for Stop {
    ghost use Rattle.std.specs.Prelude.{◌≡◌};
    ghost use Rattle.tao_top.specs.Stop.{stop_first};

    ghost from_gives = { λ first stop. stop ≡ stop_first first };

    fn from(first: FirstStop) -> Stop {
        match first {
            FirstStop::Configuration => Stop::Configuration,
            FirstStop::Interrupted(interrupt) => Stop::Interrupted(interrupt),
        }
    }
}

impl From<AllocError> for Stop {
    ghost use Rattle.std.specs.Prelude.{◌≡◌};
    ghost use Rattle.first_line.specs.declared.Interrupt.TheVariants.{Memory};
    ghost use Rattle.tao_top.specs.declared.stop.Stop.TheVariants.{Interrupted};

    ghost from_gives = { λ _ stop. stop ≡ Interrupted Memory };

    fn from(error: AllocError) -> Stop {
        Stop::Interrupted(Interrupt::from(error))
    }
}

impl Stop {
    /// The program's exit status.
    pub(crate) fn code(self) -> u8
        ensures { result ≡ stop_code self }
    {
        match self {
            Stop::Configuration => 3,
            Stop::Keepers => 6,
            Stop::Stores => 8,
            Stop::Interrupted(interrupt) => interrupt.code(),
        }
    }
}
