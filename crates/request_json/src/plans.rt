//! The requests about held plans: the fields of each, in their order.
ghost use Rattle.outcomes.specs.Results.{Gives};
ghost use Rattle.request_json.specs.Refusal.{unless_memory};
ghost use Rattle.request_json.specs.Fields.{said};
ghost use Rattle.request_json.specs.Plans.{advance_of, hold_of, plan_field, planning_of};

use crate::fields::{Fields, bad_line};
use crate::inner::{asked_within, call_of};
use crate::refusal::LineRefusal;
use json_fields::fields::object_at;
use requests::PlanRequest;
use words::PlanWord;

pub(crate) fn planning_of(
    word: PlanWord,
    fields: &Fields<'_, '_>,
) -> Result<PlanRequest, LineRefusal>
    ensures { Gives unless_memory result (planning_of word (said fields.now)) }
{
    match word {
        PlanWord::Hold => hold_of(fields),
        PlanWord::Advance => advance_of(fields),
    }
}

fn plan_field(fields: &Fields<'_, '_>) -> Result<u32, LineRefusal>
    ensures { Gives unless_memory result (plan_field (said fields.now)) }
{
    fields.small("plan", 0)
}

fn hold_of(fields: &Fields<'_, '_>) -> Result<PlanRequest, LineRefusal>
    ensures { Gives unless_memory result (hold_of (said fields.now)) }
{
    let plan = plan_field(fields)?;
    let Some(value) = object_at(fields.value, "request") else {
        return Err(bad_line(fields.alloc, "request"));
    };
    let alloc = fields.alloc;
    let inner = call_of(&Fields { alloc, value });
    let call = asked_within(fields, &["do", "plan", "request"], inner)?;
    Ok(PlanRequest::Hold { plan, call })
}

fn advance_of(fields: &Fields<'_, '_>) -> Result<PlanRequest, LineRefusal>
    ensures { Gives unless_memory result (advance_of (said fields.now)) }
{
    let plan = plan_field(fields)?;
    fields.only(&["do", "plan"])?;
    Ok(PlanRequest::Advance { plan })
}
