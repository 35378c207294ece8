//! What is asked of held plans.
ghost use Rattle.std.specs.Prelude.{◌≡◌};
ghost use Rattle.requests.specs.PlanWords.{plan_word};

use super::calls::Call;
use words::{PlanWord, Word};

/// What is asked of a plan, by its number.
#[derive(Drop)]
pub enum PlanRequest {
    /// The call, stage by stage, in a plan of that number.
    Hold { plan: u32, call: Call },
    Advance { plan: u32 },
}

impl PlanRequest {
    /// The word of the request.
    pub fn word(&self) -> Word
        ensures { result ≡ plan_word self.now }
    {
        match self {
            PlanRequest::Hold { .. } => Word::Plan(PlanWord::Hold),
            PlanRequest::Advance { .. } => Word::Plan(PlanWord::Advance),
        }
    }
}
