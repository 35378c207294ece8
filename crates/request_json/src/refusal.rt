//! Why a line is no request.
use std::alloc::AllocError;
use std::error::Error;
use std::fmt;
use tao_base::{DataRefusal, Text};

/// Why a line is no request.
#[derive(Debug, Drop)]
pub enum LineRefusal {
    /// The field is the first that breaks a rule of requests. It is empty where the line is too long,
    /// no JSON or no object.
    BadLine { field: Text },
    /// All fields are as they have to be, but the data has more than `Data::MOST_PAIRS` pairs or is
    /// spelled in more than `Data::MOST_BYTES` bytes: how many pairs there are, and in how many bytes
    /// they are spelled.
    TooLarge { bytes: u64, pairs: u64 },
    /// There was no memory. The line may be read again.
    OutOfMemory,
}

impl From<AllocError> for LineRefusal {
    ghost use Rattle.std.specs.Prelude.{◌≡◌};
    ghost use Rattle.request_json.specs.declared.refusal.LineRefusal.TheVariants.{OutOfMemory};

    ghost from_gives = { λ _ refusal. refusal ≡ OutOfMemory };

    fn from(_: AllocError) -> LineRefusal {
        LineRefusal::OutOfMemory
    }
}

impl From<DataRefusal> for LineRefusal {
    ghost use Rattle.std.specs.Prelude.{◌≡◌};
    ghost use Rattle.request_json.specs.Refusal.{line_refusal};

    ghost from_gives = { λ refused refusal. refusal ≡ line_refusal refused };

    fn from(refused: DataRefusal) -> LineRefusal {
        match refused {
            DataRefusal::TooLarge { bytes, pairs } => LineRefusal::TooLarge { bytes, pairs },
            DataRefusal::OutOfMemory => LineRefusal::OutOfMemory,
        }
    }
}

impl fmt::Display for LineRefusal {
    fn fmt<W: fmt::Write>(&self, f: &mut fmt::Formatter<W>) -> fmt::Result {
        match self {
            LineRefusal::BadLine { field } => {
                write!(f, "the field {:?} breaks a rule", field.as_str())
            }
            LineRefusal::TooLarge { bytes, pairs } => {
                write!(f, "too large: {pairs} pairs in {bytes} bytes")
            }
            LineRefusal::OutOfMemory => write!(f, "out of memory"),
        }
    }
}

impl Error for LineRefusal {}
