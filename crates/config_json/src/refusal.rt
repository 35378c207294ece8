//! Why a configuration line is refused.
ghost use Rattle.std.specs.Prelude.{◌≡◌};
ghost use Rattle.config_json.specs.declared.refusal.ConfigRefusal.TheVariants.{OutOfMemory};

use std::alloc::AllocError;
use std::error::Error;
use std::fmt;
use tao_base::Text;

/// Why a configuration line is refused.
#[derive(Debug, Drop)]
pub enum ConfigRefusal {
    /// A field breaks a rule: the first in the order of the fields, and after these the least strange
    /// one in order of bytes. It is empty where the line is too long, no JSON or no object.
    BadConfig { field: Text },
    /// There was no memory for the configuration, or for the name of the field.
    OutOfMemory,
}

impl fmt::Display for ConfigRefusal {
    fn fmt<W: fmt::Write>(&self, f: &mut fmt::Formatter<W>) -> fmt::Result {
        match self {
            ConfigRefusal::BadConfig { field } => write!(f, "bad field {}", field.as_str()),
            ConfigRefusal::OutOfMemory => write!(f, "out of memory"),
        }
    }
}

impl Error for ConfigRefusal {}

impl From<AllocError> for ConfigRefusal {
    ghost from_gives = { λ _ refusal. refusal ≡ OutOfMemory };

    fn from(_: AllocError) -> ConfigRefusal {
        ConfigRefusal::OutOfMemory
    }
}
