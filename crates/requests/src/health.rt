//! What changes whether a node is up, or whether a tier trusts a leader.
ghost use Rattle.std.specs.Prelude.{◌≡◌};
ghost use Rattle.requests.specs.HealthWords.{health_word};

use tao_base::Text;
use words::{HealthWord, Word};

/// A leader, as the nodes of a tier see it.
#[derive(Drop)]
pub struct LeaderName {
    pub region: Text,
    pub tier: Text,
    pub node: Text,
}

/// What changes the health of a node, or what a tier thinks of it.
#[derive(Drop)]
pub enum HealthRequest {
    Down { node: Text },
    Up { node: Text },
    Suspect(LeaderName),
    Trust(LeaderName),
}

impl HealthRequest {
    /// The word of the request.
    pub fn word(&self) -> Word
        ensures { result ≡ health_word self.now }
    {
        match self {
            HealthRequest::Down { .. } => Word::Health(HealthWord::Down),
            HealthRequest::Up { .. } => Word::Health(HealthWord::Up),
            HealthRequest::Suspect(_) => Word::Health(HealthWord::Suspect),
            HealthRequest::Trust(_) => Word::Health(HealthWord::Trust),
        }
    }
}
