//! Who is chosen for the stages of a plan, and who has to be up for them.
ghost use Rattle.std.specs.Prelude.{◌≡◌, None};
ghost use Rattle.core_plans.specs.Needs.{asked_of_read, committer_of, down_of, first_down, leader_to_pass, leaders_of_write, no_needs};
ghost use Rattle.write_plan.specs.Plans.{last_leader};
ghost use Rattle.core_plans.specs.Needs.{read_down, tier_of_write, write_down, write_needs};
ghost use Rattle.std.specs.Option.{option_map};
ghost use Rattle.write_plan.specs.Plans.{next_of};

use crate::leaders::Leaders;
use core_steps::core_nodes::region_store;
use core_steps::{Nodes, TierPlace};
use node_name::NodeName;
use read_plan::{ReadPlan, ReadStage};
use topology::{Config, Topology};
use write_plan::{WritePlan, WriteStage, last_leader};

/// The nodes that have to be up for a stage: the one that acts, where it isn't chosen for the stage among those that are, and the one that sends to it.
#[derive(Clone, Copy)]
pub struct Needs {
    pub acting: Option<NodeName>,
    pub sending: Option<NodeName>,
}

impl Needs {
    fn none() -> Needs
        ensures { result ≡ no_needs }
    {
        Needs {
            acting: None,
            sending: None,
        }
    }

    fn of_sender(sending: Option<NodeName>) -> Needs
        ensures { result ≡ record { acting = None; sending = sending } }
    {
        Needs {
            acting: None,
            sending,
        }
    }
}

// ---- who is chosen

/// Who is asked at the stage `ask` of a read: the leader that the region prefers, where it is up and the session's tier doesn't suspect it, and else the
/// region's store.
#[tactic(auto, using(crate::proofs::Choosing::is_preferred))]
pub(crate) fn asked_of_read(topology: &Topology, plan: &ReadPlan) -> NodeName
    ensures { result ≡ asked_of_read topology.now plan.now }
{
    let (region, shard) = (plan.region(), plan.query().shard());
    let leader = topology.preferred(region, shard);
    if topology.leader((region, plan.tier()), region, shard) == Some(leader) {
        leader
    } else {
        NodeName::Store(region_store(region, shard))
    }
}

/// The tier of a write's session.
pub(crate) fn tier_of_write(plan: &WritePlan) -> TierPlace
    ensures { result ≡ tier_of_write plan.now }
{
    TierPlace {
        region: plan.region(),
        tier: plan.tier(),
    }
}

/// The leader of its own region that a write passes on the way to the master's; none where that is the master's region, or none can be chosen.
fn leader_to_pass(topology: &Topology, plan: &WritePlan) -> Option<NodeName>
    ensures { result ≡ leader_to_pass topology.now plan.now }
{
    let (region, shard) = (plan.region(), plan.write().shard());
    if region == topology.master(shard) {
        return None;
    }
    topology.leader((region, plan.tier()), region, shard)
}

/// The leaders of a write that is to be committed; none where no leader can commit it.
pub(crate) fn leaders_of_write(nodes: &Nodes, config: &Config, plan: &WritePlan) -> Option<Leaders>
    ensures { result ≡ leaders_of_write config.now nodes.now.topology plan.now }
{
    let leader = nodes.master_leader(config, tier_of_write(plan), plan.write().shard())?;
    let passed = leader_to_pass(&nodes.topology, plan);
    Some(Leaders { leader, passed })
}

// ---- who is down

/// The node, where there is one and it is down.
fn down_of(topology: &Topology, node: Option<NodeName>) -> Option<NodeName>
    ensures { result ≡ down_of topology.now node }
{
    let node = node?;
    if topology.is_up(node) {
        None
    } else {
        Some(node)
    }
}

/// The node that is needed and is down: the one that acts, or else the one that sends to it.
fn first_down(topology: &Topology, needs: Needs) -> Option<NodeName>
    ensures { result ≡ first_down topology.now needs }
{
    match down_of(topology, needs.acting) {
        Some(node) => Some(node),
        None => down_of(topology, needs.sending),
    }
}

/// The leader that committed a write.
fn committer_of(plan: &WritePlan) -> Option<NodeName>
    ensures { result ≡ committer_of plan.now }
{
    match plan.committed() {
        Some(committed) => Some(committed.leader),
        None => None,
    }
}

/// The last leader on the way back of a write that was committed.
fn sender_back(plan: &WritePlan) -> Option<NodeName>
    ensures { result ≡ option_map last_leader plan.now.committed }
{
    match plan.committed() {
        Some(committed) => Some(last_leader(committed)),
        None => None,
    }
}

/// Who has to be up for the next stage of a write.
fn write_needs(plan: &WritePlan) -> Needs
    ensures { result ≡ write_needs (next_of plan.now) plan.now }
{
    let follower = Some(plan.follower());
    match plan.next() {
        WriteStage::Commit => Needs::of_sender(follower),
        WriteStage::Inverse => Needs::of_sender(committer_of(plan)),
        WriteStage::End => Needs {
            acting: committer_of(plan),
            sending: None,
        },
        WriteStage::Relay => Needs {
            acting: plan.passed(),
            sending: committer_of(plan),
        },
        WriteStage::Apply => Needs {
            acting: follower,
            sending: sender_back(plan),
        },
        WriteStage::Done => Needs::none(),
    }
}

/// The node that is down and that the next stage of a read needs: its follower, or for the last stage who gave what that is to keep.
pub(crate) fn read_down(topology: &Topology, plan: &ReadPlan) -> Option<NodeName>
    ensures { result ≡ read_down topology.now plan.now }
{
    let follower = Some(plan.follower());
    match plan.next() {
        ReadStage::Keep => first_down(
            topology,
            Needs {
                acting: follower,
                sending: plan.by(),
            },
        ),
        ReadStage::Done => None,
        _ => down_of(topology, follower),
    }
}

/// The node that is down and that the next stage of a write needs.
pub(crate) fn write_down(topology: &Topology, plan: &WritePlan) -> Option<NodeName>
    ensures { result ≡ write_down topology.now plan.now }
{
    first_down(topology, write_needs(plan))
}
