//! The stages of held writes, and those at the other end.
ghost use Rattle.std.specs.Prelude.{◌≡◌, IsSome};
ghost use Rattle.core_model.specs.Consistent.{IsConsistent};
ghost use Rattle.core_model.specs.Growing.{StoresGrow};
ghost use Rattle.core_plans.specs.HeldWrites.{ComesOfWrite, DoesWriteStage, IsWriteUnderWay, PassesWriteStage, entry_position, way_given_up, write_is_down};
ghost use Rattle.core_plans.specs.LedBy.{rules_of};
ghost use Rattle.core_steps.specs.Posting.{CanPost, PostsOn};
ghost use Rattle.core_steps.specs.World.{world};
ghost use Rattle.tao_keeper.specs.KeeperState.{IsLater};
ghost use Rattle.tao_link.specs.Shown.{LinkShown};
ghost use Rattle.core_model.specs.Fleet.{Fleet};
ghost use Rattle.std.specs.Prelude.{Bool};
ghost use Rattle.tao_keeper.specs.Table.{Tables};
ghost use Rattle.topology.specs.Config.{Settings};
ghost use Rattle.write_plan.specs.Plans.{after_stage, answered_entry, next_of};
ghost use Rattle.write_plan.specs.Stages.{stage_said, write_refused};
ghost use Rattle.write_plan.specs.declared.stage.WriteStage.TheVariants as stage;

use crate::committing::commit_stage;
use crate::needs::{tier_of_write, write_down};
use crate::way_back::{apply_stage, relay_stage};
use core_model::ShardJob;
use core_steps::{JobSender, Nodes};
use node_name::NodeName;
use replies::{NodeRefused, Refusal, Reply};
use tao_keeper::Keeper;
use tao_link::Link;
use topology::Config;
use write_plan::{WritePlan, WriteResult, WriteStage, committer};

/// The stage `inverse`.
fn inverse_stage<K: Keeper, L: Link>(
    nodes: &mut Nodes,
    config: &Config,
    keepers: &mut K,
    link: &mut L,
    plan: &mut WritePlan,
)
    requires ready { CanPost K.TELLS config.now (world nodes.old (K.state keepers.old) (L.shown link.old)) }
    requires write { IsWriteUnderWay K.TELLS config.now (K.state keepers.old).told nodes.old.fleet plan.old }
    requires stage { next_of plan.old ≡ stage.Inverse }
    ensures { PassesWriteStage (rules_of K.TELLS config.now) stage.Inverse
        plan.old (world nodes.old (K.state keepers.old) (L.shown link.old))
        plan.new (world nodes.new (K.state keepers.new) (L.shown link.new)) }
{
    let carries = link.carries();
    let shard = plan.write().shard();
    let Some(job) = plan.job() else {
        unreachable!()
    };
    let sender = JobSender {
        leader: committer(plan),
        by: tier_of_write(plan),
    };
    let result = nodes.merge_over(config, keepers, link, sender, &ShardJob { shard, job });
    let hops = link.carries().saturating_sub(carries);
    plan.take(WriteResult::Inverse(result), hops);
}

/// The stage `end`.
fn end_stage<K: Keeper>(nodes: &mut Nodes, config: &Config, keepers: &mut K, plan: &mut WritePlan)
    requires consistent { IsConsistent K.TELLS config.now (K.state keepers.old).told nodes.old.fleet }
    requires write { IsWriteUnderWay K.TELLS config.now (K.state keepers.old).told nodes.old.fleet plan.old }
    requires stage { next_of plan.old ≡ stage.End }
    ensures does { (link : LinkShown) → DoesWriteStage (rules_of K.TELLS config.now) stage.End
        plan.old (world nodes.old (K.state keepers.old) link)
        plan.new (world nodes.new (K.state keepers.new) link) }
    ensures write { IsWriteUnderWay K.TELLS config.now (K.state keepers.new).told nodes.new.fleet plan.new }
    ensures same { nodes.new ≡ nodes.old }
    ensures consistent { IsConsistent K.TELLS config.now (K.state keepers.new).told nodes.new.fleet }
    ensures grows { StoresGrow K.TELLS config.now (K.state keepers.old).told (K.state keepers.new).told }
    ensures later { IsLater (K.state keepers.old) (K.state keepers.new) }
{
    let shard = plan.write().shard();
    let Some(job) = plan.job() else {
        unreachable!()
    };
    let result = nodes.end_over(config, keepers, shard, job);
    plan.take(WriteResult::End(result), 0);
}

/// The reply that there is no memory for what the session of a write is to learn: the write stands, at the position that it says.
fn out_of_memory_back(plan: &WritePlan) -> Reply
    ensures { result ≡ Reply.Refused (Refusal.Memory (entry_position (answered_entry plan.now))) }
{
    let position = match plan.entry() {
        Some(entry) => entry.position,
        None => 0,
    };
    Reply::Refused(Refusal::Memory { position })
}

/// Ends a write of which only the last stage is left, since there is no memory for what its session is to learn.
pub(crate) fn give_up_way(plan: &mut WritePlan)
    requires { next_of plan.old ≡ stage.Apply }
    ensures then { plan.new ≡ way_given_up plan.old }
    ensures write { (tells : Bool) (s : Settings) (tables : Tables) (f : Fleet) → IsWriteUnderWay tells s tables f plan.old
        → IsWriteUnderWay tells s tables f plan.new }
{
    let reply = out_of_memory_back(plan);
    plan.take(WriteResult::Apply(Err(reply)), 0);
}

/// The refusal of a write whose next stage needs a node that is down: at the position of its entry, where that stands.
fn write_is_down(node: NodeName, plan: &WritePlan) -> Reply
    ensures { result ≡ write_is_down node plan.now }
{
    let when = plan.when();
    Reply::Refused(Refusal::Node(NodeRefused::NodeDown { node, when }))
}

/// Ends a write whose next stage needs a node that is down.
fn end_down(node: NodeName, plan: &mut WritePlan)
    requires goes_on { IsSome (stage_said (next_of plan.old)) }
    ensures then { plan.new ≡ after_stage plan.old (write_refused (next_of plan.old) (write_is_down node plan.old)) 0 }
    ensures write { (tells : Bool) (s : Settings) (tables : Tables) (f : Fleet) → IsWriteUnderWay tells s tables f plan.old
        → IsWriteUnderWay tells s tables f plan.new }
{
    let reply = write_is_down(node, plan);
    let came = plan.next().refused(reply);
    plan.take(came, 0);
}

/// Does the stage of a write that follows, with all that it needs up.
fn next_stage<K: Keeper, L: Link>(
    nodes: &mut Nodes,
    config: &Config,
    keepers: &mut K,
    link: &mut L,
    plan: &mut WritePlan,
)
    requires ready { CanPost K.TELLS config.now (world nodes.old (K.state keepers.old) (L.shown link.old)) }
    requires write { IsWriteUnderWay K.TELLS config.now (K.state keepers.old).told nodes.old.fleet plan.old }
    requires goes_on { IsSome (stage_said (next_of plan.old)) }
    ensures { PassesWriteStage (rules_of K.TELLS config.now) (next_of plan.old)
        plan.old (world nodes.old (K.state keepers.old) (L.shown link.old))
        plan.new (world nodes.new (K.state keepers.new) (L.shown link.new)) }
{
    match plan.next() {
        WriteStage::Commit => commit_stage(nodes, config, keepers, link, plan),
        WriteStage::Inverse => inverse_stage(nodes, config, keepers, link, plan),
        WriteStage::End => end_stage(nodes, config, keepers, plan),
        WriteStage::Relay => relay_stage(nodes, config, link, plan),
        WriteStage::Apply => apply_stage(nodes, config, link, plan),
        WriteStage::Done => unreachable!(),
    }
}

/// Does the stage of a write that follows. Who commits it and who merges its job is chosen as the nodes are now: the leader that the region prefers, or the
/// next one round about, that is up and that the session's tier doesn't suspect; a write of another region than the master's passes one of its own, chosen
/// so, where there is one. Where none can commit it the write is refused as `no_server`. Where a node is down that the stage needs, the one that acts or the
/// one that sends to it, the write ends with `node_down`, at the position of its entry where that stands. A stage that fails ends the write.
///
/// Costs what the stage does in `core_steps`.
pub fn write_stage<K: Keeper, L: Link>(
    nodes: &mut Nodes,
    config: &Config,
    keepers: &mut K,
    link: &mut L,
    plan: &mut WritePlan,
)
    requires ready { CanPost K.TELLS config.now (world nodes.old (K.state keepers.old) (L.shown link.old)) }
    requires write { IsWriteUnderWay K.TELLS config.now (K.state keepers.old).told nodes.old.fleet plan.old }
    requires goes_on { IsSome (stage_said (next_of plan.old)) }
    ensures comes { ComesOfWrite (rules_of K.TELLS config.now)
        plan.old (world nodes.old (K.state keepers.old) (L.shown link.old))
        plan.new (world nodes.new (K.state keepers.new) (L.shown link.new)) }
    ensures write { IsWriteUnderWay K.TELLS config.now (K.state keepers.new).told nodes.new.fleet plan.new }
    ensures on { PostsOn K.TELLS config.now
        (world nodes.old (K.state keepers.old) (L.shown link.old))
        (world nodes.new (K.state keepers.new) (L.shown link.new)) }
{
    match write_down(&nodes.topology, plan) {
        Some(node) => end_down(node, plan),
        None => next_stage(nodes, config, keepers, link, plan),
    }
}
