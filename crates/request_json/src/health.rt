//! The requests about the health of nodes: the fields of each, in their order.
ghost use Rattle.outcomes.specs.Results.{Gives};
ghost use Rattle.request_json.specs.Refusal.{unless_memory};
ghost use Rattle.request_json.specs.Fields.{said};
ghost use Rattle.request_json.specs.Health.{health_of, leader_of};

use crate::fields::{Fields, node_of};
use crate::refusal::LineRefusal;
use requests::{HealthRequest, LeaderName};
use words::HealthWord;

pub(crate) fn health_of(
    word: HealthWord,
    fields: &Fields<'_, '_>,
) -> Result<HealthRequest, LineRefusal>
    ensures { Gives unless_memory result (health_of word (said fields.now)) }
{
    match word {
        HealthWord::Down => node_of(fields).map(|node| HealthRequest::Down { node }),
        HealthWord::Up => node_of(fields).map(|node| HealthRequest::Up { node }),
        HealthWord::Suspect => leader_of(fields).map(HealthRequest::Suspect),
        HealthWord::Trust => leader_of(fields).map(HealthRequest::Trust),
    }
}

fn leader_of(fields: &Fields<'_, '_>) -> Result<LeaderName, LineRefusal>
    ensures { Gives unless_memory result (leader_of (said fields.now)) }
{
    let leader = LeaderName {
        region: fields.text("region")?,
        tier: fields.text("tier")?,
        node: fields.text("node")?,
    };
    fields.only(&["do", "region", "tier", "node"])?;
    Ok(leader)
}
