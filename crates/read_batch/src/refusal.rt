//! Why requests don't make a batch.
use std::error::Error;
use std::fmt;
use tao_base::OutOfMemory as NoMemory;

/// Why requests don't make a batch. None was called.
#[derive(Clone, Copy, Debug, PartialEq, Eq)]
pub enum BatchRefusal {
    /// There are more than 256: so many.
    TooMany { count: u64 },
    /// The request at this place, which counts from 0, is the first that isn't one of the five reads.
    NotRead { place: u64 },
    /// There was no memory for the replies.
    OutOfMemory,
}

impl fmt::Display for BatchRefusal {
    fn fmt<W: fmt::Write>(&self, f: &mut fmt::Formatter<W>) -> fmt::Result {
        match self {
            BatchRefusal::TooMany { count } => {
                write!(f, "a batch has 256 requests at most, and not {count}")
            }
            BatchRefusal::NotRead { place } => write!(f, "the request at place {place} is no read"),
            BatchRefusal::OutOfMemory => write!(f, "{NoMemory}"),
        }
    }
}

impl Error for BatchRefusal {}
