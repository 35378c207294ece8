//! The stage `commit` of held writes.
ghost use Rattle.std.specs.Prelude.{◌≡◌, ◌<◌, Bool, IfErr, IfOk, IfSome, OnOk, Some};
ghost use Rattle.std.specs.Option.{option_map};
ghost use Rattle.core_model.specs.Pens.{pens_of};
ghost use Rattle.core_model.specs.Stores.{AreStores, store_count};
ghost use Rattle.core_steps.specs.core_nodes.Settling.{IsLaterLink};
ghost use Rattle.core_plans.specs.HeldWrites.{CommitsBy, ComesOfCommit, FindsNoLeader, IsWriteUnderWay, LeadWrite, PassesWriteStage, RefusesOnWay, taken_as};
ghost use Rattle.core_plans.specs.LedBy.{led_by, rules_of};
ghost use Rattle.core_steps.specs.Posting.{CanPost, PostsOn};
ghost use Rattle.core_steps.specs.Relays.{link_past};
ghost use Rattle.core_steps.specs.World.{World, world};
ghost use Rattle.shard_log.specs.View.{as_note};
ghost use Rattle.tao_base.specs.Writes.{write_shard};
ghost use Rattle.tao_keeper.specs.KeeperState.{KeeperState};
ghost use Rattle.write_plan.specs.Plans.{next_of};
ghost use Rattle.write_plan.specs.declared.stage.WriteStage.TheVariants as stage;

use crate::leaders::Leaders;
use crate::needs::leaders_of_write;
use core_model::AuthoredWrite;
use core_steps::{Nodes, Route};
use node_name::NodeName;
use replies::{NodeRefused, Refusal, Reply};
use shard_log::Note;
use tao_keeper::Keeper;
use tao_link::Link;
use topology::{Config, Topology};
use write_plan::{CommitAnswer, Committed, WritePlan, WriteResult};

/// The way of a write to the leader that it passes, where it passes one, and a note for its way back.
fn pass_there<L: Link>(
    nodes: &mut Nodes,
    config: &Config,
    link: &mut L,
    passed: Option<NodeName>,
    plan: &WritePlan,
) -> Result<Option<Note>, Refusal>
    requires stores { AreStores config.now (store_count config.now) nodes.old.fleet.stores }
    requires here { write_shard plan.now.write < config.now.shards }
    ensures carried { OnOk result (L.shown link.new ≡ link_past passed (L.shown link.old)) }
    ensures note { IfOk result (λ note. note ≡ option_map (λ _. as_note (pens_of nodes.old.fleet.stores (write_shard plan.now.write))) passed) }
    ensures refused { IfErr result (λ refusal. (tells : Bool) (keepers : KeeperState) → RefusesOnWay tells passed plan.now refusal
        (world nodes.old keepers (L.shown link.old)) (world nodes.new keepers (L.shown link.new))) }
    ensures same { nodes.new ≡ nodes.old }
    ensures later { IsLaterLink (L.shown link.old) (L.shown link.new) }
{
    let Some(leader) = passed else {
        return Ok(None);
    };
    let route = Route {
        follower: plan.follower(),
        leader,
    };
    match nodes.pass_with_note(config, link, route, plan.write().shard()) {
        Ok(note) => Ok(Some(note)),
        Err(refusal) => Err(refusal),
    }
}

/// The note for the way back, which then has seen all of the shard's log. Takes no memory.
fn renewed(nodes: &mut Nodes, config: &Config, shard: u16, note: Option<Note>) -> Option<Note>
    requires stores { AreStores config.now (store_count config.now) nodes.old.fleet.stores }
    requires here { shard < config.now.shards }
    requires one_log { IfSome note (λ n. (pens_of nodes.old.fleet.stores shard).log ≡ n.log) }
    ensures note { result ≡ option_map (λ _. as_note (pens_of nodes.old.fleet.stores shard)) note }
    ensures same { nodes.new ≡ nodes.old }
{
    match note {
        Some(note) => Some(nodes.fleet.renew(config, shard, note)),
        None => None,
    }
}

/// Sends a write to the leader that commits it, from its follower or from the leader that it passes. Nothing fails for memory after the commit, since the
/// notes for its way back are taken before it.
fn commit_there<K: Keeper, L: Link>(
    nodes: &mut Nodes,
    config: &Config,
    keepers: &mut K,
    link: &mut L,
    leaders: Leaders,
    plan: &WritePlan,
) -> Result<CommitAnswer, Refusal>
    requires ready { CanPost K.TELLS config.now (world nodes.old (K.state keepers.old) (L.shown link.old)) }
    requires lead { LeadWrite config.now leaders plan.now }
    requires write { IsWriteUnderWay K.TELLS config.now (K.state keepers.old).told nodes.old.fleet plan.now }
    ensures comes { ComesOfCommit (led_by (rules_of K.TELLS config.now) leaders) plan.now result
        (world nodes.old (K.state keepers.old) (L.shown link.old)) (world nodes.new (K.state keepers.new) (L.shown link.new)) }
    ensures on { PostsOn K.TELLS config.now
        (world nodes.old (K.state keepers.old) (L.shown link.old)) (world nodes.new (K.state keepers.new) (L.shown link.new)) }
{
    let note = pass_there(nodes, config, link, leaders.passed, plan)?;
    let route = Route {
        follower: leaders.passed.unwrap_or(plan.follower()),
        leader: leaders.leader,
    };
    let (origin, write) = (plan.origin(), plan.write());
    let call = AuthoredWrite { origin, write };
    match nodes.commit_over(config, keepers, link, route, &call) {
        Ok((wrote, spare)) => Ok(CommitAnswer {
            relay: renewed(nodes, config, write.shard(), note),
            committed: Committed::of(&config.schema, write, wrote, leaders.leader, leaders.passed),
            spare,
        }),
        Err(refusal) => Err(refusal),
    }
}

/// What came of a commit, as its plan takes it.
fn taken_as(given: Result<CommitAnswer, Refusal>) -> Result<CommitAnswer, Reply>
    ensures { result ≡ taken_as given }
{
    match given {
        Ok(answer) => Ok(answer),
        Err(refusal) => Err(Reply::Refused(refusal)),
    }
}

/// The stage `commit` by these leaders, which may lead it.
fn commit_by<K: Keeper, L: Link>(
    nodes: &mut Nodes,
    config: &Config,
    keepers: &mut K,
    link: &mut L,
    leaders: Leaders,
    plan: &mut WritePlan,
)
    requires ready { CanPost K.TELLS config.now (world nodes.old (K.state keepers.old) (L.shown link.old)) }
    requires lead { LeadWrite config.now leaders plan.old }
    requires write { IsWriteUnderWay K.TELLS config.now (K.state keepers.old).told nodes.old.fleet plan.old }
    requires stage { next_of plan.old ≡ stage.Commit }
    ensures does { CommitsBy (rules_of K.TELLS config.now) (Some leaders)
        plan.old (world nodes.old (K.state keepers.old) (L.shown link.old))
        plan.new (world nodes.new (K.state keepers.new) (L.shown link.new)) }
    ensures write { IsWriteUnderWay K.TELLS config.now (K.state keepers.new).told nodes.new.fleet plan.new }
    ensures on { PostsOn K.TELLS config.now
        (world nodes.old (K.state keepers.old) (L.shown link.old)) (world nodes.new (K.state keepers.new) (L.shown link.new)) }
{
    let carries = link.carries();
    let given = commit_there(nodes, config, keepers, link, leaders, plan);
    let hops = link.carries().saturating_sub(carries);
    plan.take(WriteResult::Commit(taken_as(given)), hops);
}

/// The stage `commit` where no leader of the master's region can be chosen: the write is refused.
fn refuse_commit(topology: &Topology, plan: &mut WritePlan)
    requires { next_of plan.old ≡ stage.Commit }
    ensures { (now : World) → now.states ≡ topology.now → FindsNoLeader plan.old now plan.new now }
{
    let region = topology.master(plan.write().shard());
    let reply = Reply::Refused(Refusal::Node(NodeRefused::NoServer { region }));
    plan.take(WriteResult::Commit(Err(reply)), 0);
}

/// The stage `commit`: by the leaders that are chosen for the write as the nodes are now, or by none.
pub(crate) fn commit_stage<K: Keeper, L: Link>(
    nodes: &mut Nodes,
    config: &Config,
    keepers: &mut K,
    link: &mut L,
    plan: &mut WritePlan,
)
    requires ready { CanPost K.TELLS config.now (world nodes.old (K.state keepers.old) (L.shown link.old)) }
    requires write { IsWriteUnderWay K.TELLS config.now (K.state keepers.old).told nodes.old.fleet plan.old }
    requires stage { next_of plan.old ≡ stage.Commit }
    ensures { PassesWriteStage (rules_of K.TELLS config.now) stage.Commit
        plan.old (world nodes.old (K.state keepers.old) (L.shown link.old))
        plan.new (world nodes.new (K.state keepers.new) (L.shown link.new)) }
{
    match leaders_of_write(nodes, config, plan) {
        Some(leaders) => commit_by(nodes, config, keepers, link, leaders, plan),
        None => refuse_commit(&nodes.topology, plan),
    }
}
