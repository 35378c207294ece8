//! Why a request is refused.
ghost use Rattle.std.specs.Prelude.{◌≡◌};
ghost use Rattle.request_check.specs.Refusal.{reply_as};

use replies::{NameRefused, Refusal, Reply};
use std::alloc::AllocError;
use std::error::Error;
use std::fmt;

/// Why a request is refused before anything is done for it.
#[derive(Drop)]
pub enum CheckRefusal {
    /// The first name that is refused, as it is replied: `Reply::Refused(Refusal::Name(..))`.
    Refused(Reply),
    /// There was no memory. The request may be checked again.
    OutOfMemory,
}

impl CheckRefusal {
    /// The reply that nothing is asked. Takes no memory.
    pub fn into_reply(self) -> Reply
        ensures { result ≡ reply_as self }
    {
        match self {
            CheckRefusal::Refused(reply) => reply,
            CheckRefusal::OutOfMemory => Reply::Refused(Refusal::Memory { position: 0 }),
        }
    }
}

impl fmt::Display for CheckRefusal {
    fn fmt<W: fmt::Write>(&self, f: &mut fmt::Formatter<W>) -> fmt::Result {
        match self {
            CheckRefusal::Refused(_) => write!(f, "a name of the request is refused"),
            CheckRefusal::OutOfMemory => write!(f, "out of memory"),
        }
    }
}

// By hand, so that no reply needs one: what it says is what Display says.
impl fmt::Debug for CheckRefusal {
    fn fmt<W: fmt::Write>(&self, f: &mut fmt::Formatter<W>) -> fmt::Result {
        fmt::Display::fmt(self, f)
    }
}

impl Error for CheckRefusal {}

/// Why a name has no place.
#[derive(Drop)]
pub enum NameError {
    /// What was named is refused, for this cause.
    Refused(NameRefused),
    /// There was no memory for the check.
    OutOfMemory,
}

impl From<AllocError> for NameError {
    ghost use Rattle.std.specs.Prelude.{◌≡◌};
    ghost use Rattle.request_check.specs.declared.refusal.NameError.TheVariants.{OutOfMemory};

    ghost from_gives = { λ _ error. error ≡ OutOfMemory };

    fn from(_: AllocError) -> NameError {
        NameError::OutOfMemory
    }
}

impl From<NameError> for CheckRefusal {
    ghost use Rattle.std.specs.Prelude.{◌≡◌};
    ghost use Rattle.request_check.specs.Refusal.{check_refusal};

    ghost from_gives = { λ error refusal. refusal ≡ check_refusal error };

    fn from(error: NameError) -> CheckRefusal {
        match error {
            NameError::Refused(refused) => {
                CheckRefusal::Refused(Reply::Refused(Refusal::Name(refused)))
            }
            NameError::OutOfMemory => CheckRefusal::OutOfMemory,
        }
    }
}
