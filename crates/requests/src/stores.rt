//! What is asked of stores: their logs and their jobs.
ghost use Rattle.std.specs.Prelude.{◌≡◌};
ghost use Rattle.requests.specs.StoreWords.{store_word};

use super::calls::ReadCall;
use tao_base::Text;
use words::Word;

/// What is asked of stores.
#[derive(Drop)]
pub enum StoreRequest {
    /// Without a position the entry that the region's store takes next.
    Stream {
        region: Text,
        shard: u16,
        position: Option<u64>,
    },
    /// The entries up to the position are old from then on.
    Trim {
        region: Text,
        shard: u16,
        position: u64,
    },
    Repair {
        shard: u16,
    },
    Settle,
    Audit(ReadCall),
}

impl StoreRequest {
    /// The word of the request.
    pub fn word(&self) -> Word
        ensures { result ≡ store_word self.now }
    {
        match self {
            StoreRequest::Stream { .. } => Word::Stream,
            StoreRequest::Trim { .. } => Word::Trim,
            StoreRequest::Repair { .. } => Word::Repair,
            StoreRequest::Settle => Word::Settle,
            StoreRequest::Audit(_) => Word::Audit,
        }
    }
}
