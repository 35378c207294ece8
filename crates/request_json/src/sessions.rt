//! The request to open a session.
ghost use Rattle.outcomes.specs.Results.{Gives};
ghost use Rattle.request_json.specs.Refusal.{unless_memory};
ghost use Rattle.request_json.specs.Fields.{said};
ghost use Rattle.request_json.specs.Sessions.{open_of};

use crate::calls::session_field;
use crate::fields::Fields;
use crate::refusal::LineRefusal;
use requests::OpenCall;

pub(crate) fn open_of(fields: &Fields<'_, '_>) -> Result<OpenCall, LineRefusal>
    ensures { Gives unless_memory result (open_of (said fields.now)) }
{
    let opening = OpenCall {
        session: session_field(fields)?,
        region: fields.text("region")?,
        tier: fields.text("tier")?,
    };
    fields.only(&["do", "session", "region", "tier"])?;
    Ok(opening)
}
