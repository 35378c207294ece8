//! What changes the health of nodes.
ghost use Rattle.outcomes.specs.Results.{Gives};
ghost use Rattle.request_check.specs.Refusal.{name_unless_memory};
ghost use Rattle.request_check.specs.Names.{settings};
ghost use Rattle.request_check.specs.Health.{checked_health, leader_place};

use crate::kind::NodeKind;
use crate::names::Names;
use crate::refusal::NameError;
use node_name::NodeName;
use requests::{HealthRequest, LeaderName};

/// A leader, as the nodes of a tier see it.
#[derive(Clone, Copy, PartialEq, Eq)]
pub struct LeaderPlace {
    pub region: u16,
    pub tier: u16,
    pub node: NodeName,
}

/// What changes the health of a leader or a follower, or what a tier thinks of a leader.
#[derive(Clone, Copy, PartialEq, Eq)]
pub enum CheckedHealth {
    Down { node: NodeName },
    Up { node: NodeName },
    Suspect(LeaderPlace),
    Trust(LeaderPlace),
}

pub(crate) fn checked_health(
    names: &Names<'_>,
    asked: &HealthRequest,
) -> Result<CheckedHealth, NameError>
    ensures { Gives name_unless_memory result (checked_health (settings names.now) asked.now) }
{
    match asked {
        HealthRequest::Down { node } => {
            let node = names.node(NodeKind::Cache, node)?;
            Ok(CheckedHealth::Down { node })
        }
        HealthRequest::Up { node } => {
            let node = names.node(NodeKind::Cache, node)?;
            Ok(CheckedHealth::Up { node })
        }
        HealthRequest::Suspect(leader) => leader_place(names, leader).map(CheckedHealth::Suspect),
        HealthRequest::Trust(leader) => leader_place(names, leader).map(CheckedHealth::Trust),
    }
}

fn leader_place(names: &Names<'_>, leader: &LeaderName) -> Result<LeaderPlace, NameError>
    ensures { Gives name_unless_memory result (leader_place (settings names.now) leader.now) }
{
    let place = names.tier(leader.region.as_str(), leader.tier.as_str())?;
    let node = names.node(NodeKind::Leader, &leader.node)?;
    Ok(LeaderPlace {
        region: place.region,
        tier: place.tier,
        node,
    })
}
