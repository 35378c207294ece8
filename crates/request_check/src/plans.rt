//! What is asked of held plans.
ghost use Rattle.outcomes.specs.Results.{Gives};
ghost use Rattle.request_check.specs.Refusal.{name_unless_memory};
ghost use Rattle.request_check.specs.Names.{settings};
ghost use Rattle.request_check.specs.Plans.{checked_plan};

use crate::calls::checked_call;
use crate::checked::CheckedCall;
use crate::names::Names;
use crate::refusal::NameError;
use requests::PlanRequest;

/// What is asked of a plan, by its number.
#[derive(Drop)]
pub enum CheckedPlan {
    /// The call, stage by stage, in a plan of that number.
    Hold { plan: u32, call: CheckedCall },
    Advance { plan: u32 },
}

pub(crate) fn checked_plan(names: &Names<'_>, asked: &PlanRequest) -> Result<CheckedPlan, NameError>
    ensures { Gives name_unless_memory result (checked_plan (settings names.now) asked.now) }
{
    match asked {
        PlanRequest::Hold { plan, call } => {
            let plan = *plan;
            let call = checked_call(names, call)?;
            Ok(CheckedPlan::Hold { plan, call })
        }
        PlanRequest::Advance { plan } => Ok(CheckedPlan::Advance { plan: *plan }),
    }
}
