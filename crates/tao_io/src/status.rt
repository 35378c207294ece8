//! The exit status of a program.
ghost use Rattle.std.specs.Prelude.{◌≡◌};

use std::process::ExitCode;

/// A program's exit status.
#[derive(Clone, Copy, PartialEq, Eq)]
pub struct Status {
    /// What the system is given: 0 for a run that did all, else why it ended.
    pub code: u8,
}

impl From<Status> for ExitCode {
    ghost use Rattle.std.specs.Prelude.{◌≡◌};
    ghost use Rattle.std.specs.Process.{exit_status};

    ghost from_gives = { λ status code. exit_status code ≡ status.code };

    fn from(status: Status) -> ExitCode {
        ExitCode::from(status.code)
    }
}
