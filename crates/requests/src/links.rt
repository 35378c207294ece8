//! What changes whether a link carries.
ghost use Rattle.std.specs.Prelude.{◌≡◌};
ghost use Rattle.requests.specs.LinkWords.{link_word};

use tao_base::Text;
use words::{LinkWord, Word};

/// The link from a node to another.
#[derive(Drop)]
pub struct LinkName {
    pub from: Text,
    pub to: Text,
}

/// What is asked of a link.
#[derive(Drop)]
pub enum LinkRequest {
    Cut(LinkName),
    Mend(LinkName),
}

impl LinkRequest {
    /// The word of the request.
    pub fn word(&self) -> Word
        ensures { result ≡ link_word self.now }
    {
        match self {
            LinkRequest::Cut(_) => Word::Link(LinkWord::Cut),
            LinkRequest::Mend(_) => Word::Link(LinkWord::Mend),
        }
    }
}
