//! The stages `relay` and `apply` of held writes: the way back, to the leader that the write passed and then to its follower.
ghost use Rattle.std.specs.Prelude.{◌≡◌, ◌<◌, Bool, Contains, IfErr, IfSome, IsSome, OnErr, OnOk, Some, true};
ghost use Rattle.core_model.specs.Consistent.{GoesOn, HaveReached, IsFleetOf};
ghost use Rattle.core_model.specs.Fleet.{leader_names};
ghost use Rattle.core_model.specs.Serving.{IsFollowerFor};
ghost use Rattle.core_steps.specs.core_nodes.Settling.{IsLaterLink};
ghost use Rattle.core_plans.specs.HeldWrites.{DoesWriteStage, IsAnswerTo, IsWriteUnderWay, call_of_plan};
ghost use Rattle.core_plans.specs.LedBy.{rules_of};
ghost use Rattle.core_steps.specs.Relays.{LeaderRelays};
ghost use Rattle.core_steps.specs.Routes.{FailsCarry};
ghost use Rattle.core_steps.specs.World.{world};
ghost use Rattle.core_steps.specs.Writes.{CanBeApplied, FollowerTakes};
ghost use Rattle.tao_base.specs.Writes.{write_shard};
ghost use Rattle.tao_keeper.specs.KeeperState.{KeeperState};
ghost use Rattle.tao_keeper.specs.Table.{Tables};
ghost use Rattle.tao_link.specs.Shown.{after_carry};
ghost use Rattle.tao_schema.specs.Schema.{types_of};
ghost use Rattle.write_plan.specs.Plans.{answered_entry, next_of, when_of};
ghost use Rattle.write_plan.specs.declared.stage.WriteStage.TheVariants as stage;

use core_steps::{Nodes, Route, ShardNote};
use replies::{Refusal, Reply, StoreRefused};
use shard_log::Note;
use store_replies::link_fault;
use tao_link::{Link, LinkFailed};
use topology::Config;
use write_plan::{
    WritePlan, WriteResult, committer, last_before, passed_of, relay_note_of, spare_note_of,
};

/// Carries what was committed to the leader that the write passed, which the route names as `follower`, and lets that take it.
fn carry_past<L: Link>(
    nodes: &mut Nodes,
    config: &Config,
    link: &mut L,
    route: Route,
    plan: &WritePlan,
    note: Note,
) -> Result<(), Reply>
    requires fleet { IsFleetOf config.now nodes.old.fleet }
    requires leader { Contains (leader_names config.now) route.follower }
    requires here { write_shard plan.now.write < config.now.shards }
    requires apply { IfSome plan.now.committed (λ c. CanBeApplied (call_of_plan plan.now) c.wrote nodes.old.fleet.stores) }
    requires committed { IsSome plan.now.committed }
    requires note { IfSome plan.now.committed (λ c. note ≡ c.wrote.note) }
    ensures carried { OnOk result (L.shown link.new ≡ after_carry (L.shown link.old)) }
    ensures relays { OnOk result (IfSome plan.now.committed (λ c.
        LeaderRelays config.now route.follower (write_shard plan.now.write) c.wrote.entry nodes.old.fleet nodes.new.fleet)) }
    ensures failed { IfErr result (λ _. FailsCarry route.leader route.follower (L.shown link.old) (L.shown link.new)) }
    ensures reply { IfErr result (λ reply. reply ≡ Reply.Refused (Refusal.Store
        (StoreRefused.LinkFault (L.shown link.new).faults (when_of (answered_entry plan.now))))) }
    ensures stays { OnErr result (nodes.new ≡ nodes.old) }
    ensures rest { nodes.new ≡ record nodes.old { fleet = record nodes.old.fleet { leaders = nodes.new.fleet.leaders } } }
    ensures fleet { IsFleetOf config.now nodes.new.fleet }
    ensures reached { (tables : Tables) → HaveReached tables nodes.old.fleet → HaveReached tables nodes.new.fleet }
    ensures goes { GoesOn nodes.old.fleet nodes.new.fleet }
    ensures link { IsLaterLink (L.shown link.old) (L.shown link.new) }
{
    let Some(committed) = plan.committed() else {
        unreachable!()
    };
    let shard = plan.write().shard();
    let entry = &committed.wrote.entry;
    match nodes.relay_over(config, link, route, entry, ShardNote { shard, note }) {
        Ok(()) => Ok(()),
        Err(LinkFailed) => Err(Reply::Refused(link_fault(link.faults(), plan.when()))),
    }
}

/// The stage `relay`.
pub(crate) fn relay_stage<L: Link>(
    nodes: &mut Nodes,
    config: &Config,
    link: &mut L,
    plan: &mut WritePlan,
)
    requires fleet { IsFleetOf config.now nodes.old.fleet }
    requires here { write_shard plan.old.write < config.now.shards }
    requires answer { IfSome plan.old.committed (IsAnswerTo config.now nodes.old.fleet.stores plan.old) }
    requires relay { IfSome plan.old.committed (λ c. IfSome c.passed (λ _. plan.old.relay ≡ Some c.wrote.note)) }
    requires stage { next_of plan.old ≡ stage.Relay }
    ensures does { (keepers : KeeperState) → DoesWriteStage (rules_of true config.now) stage.Relay
        plan.old (world nodes.old keepers (L.shown link.old))
        plan.new (world nodes.new keepers (L.shown link.new)) }
    ensures write { (tells : Bool) (tables : Tables) → IsWriteUnderWay tells config.now tables nodes.old.fleet plan.old
        → IsWriteUnderWay tells config.now tables nodes.new.fleet plan.new }
    ensures rest { nodes.new ≡ record nodes.old { fleet = record nodes.old.fleet { leaders = nodes.new.fleet.leaders } } }
    ensures fleet { IsFleetOf config.now nodes.new.fleet }
    ensures reached { (tables : Tables) → HaveReached tables nodes.old.fleet → HaveReached tables nodes.new.fleet }
    ensures goes { GoesOn nodes.old.fleet nodes.new.fleet }
    ensures link { IsLaterLink (L.shown link.old) (L.shown link.new) }
{
    let carries = link.carries();
    let route = Route {
        follower: passed_of(plan),
        leader: committer(plan),
    };
    let note = relay_note_of(plan);
    let outcome = carry_past(nodes, config, link, route, plan, note);
    let hops = link.carries().saturating_sub(carries);
    plan.take(WriteResult::Relay(outcome), hops);
}

/// Carries what was committed back, and lets the follower take it.
fn carry_back<L: Link>(
    nodes: &mut Nodes,
    config: &Config,
    link: &mut L,
    route: Route,
    plan: &WritePlan,
    note: Note,
) -> Result<(), Reply>
    requires fleet { IsFleetOf config.now nodes.old.fleet }
    requires follower { IsFollowerFor config.now (write_shard plan.now.write) plan.now.follower }
    requires apply { IfSome plan.now.committed (λ c. CanBeApplied (call_of_plan plan.now) c.wrote nodes.old.fleet.stores) }
    requires route { route.follower ≡ plan.now.follower }
    requires committed { IsSome plan.now.committed }
    requires note { IfSome plan.now.committed (λ c. note ≡ c.wrote.note) }
    ensures carried { OnOk result (L.shown link.new ≡ after_carry (L.shown link.old)) }
    ensures takes { OnOk result (IfSome plan.now.committed (λ c.
        FollowerTakes (types_of config.now.schema) route (write_shard plan.now.write) c.wrote.entry nodes.old.fleet nodes.new.fleet)) }
    ensures failed { IfErr result (λ _. FailsCarry route.leader route.follower (L.shown link.old) (L.shown link.new)) }
    ensures reply { IfErr result (λ reply. reply ≡ Reply.Refused (Refusal.Store
        (StoreRefused.LinkFault (L.shown link.new).faults (when_of (answered_entry plan.now))))) }
    ensures stays { OnErr result (nodes.new ≡ nodes.old) }
    ensures rest { nodes.new ≡ record nodes.old { fleet = record nodes.old.fleet { followers = nodes.new.fleet.followers } } }
    ensures fleet { IsFleetOf config.now nodes.new.fleet }
    ensures reached { (tables : Tables) → HaveReached tables nodes.old.fleet → HaveReached tables nodes.new.fleet }
    ensures goes { GoesOn nodes.old.fleet nodes.new.fleet }
    ensures link { IsLaterLink (L.shown link.old) (L.shown link.new) }
{
    let Some(committed) = plan.committed() else {
        unreachable!()
    };
    let shard = plan.write().shard();
    let entry = &committed.wrote.entry;
    match nodes.apply_over(config, link, route, entry, ShardNote { shard, note }) {
        Ok(()) => Ok(()),
        Err(LinkFailed) => Err(Reply::Refused(link_fault(link.faults(), plan.when()))),
    }
}

/// The stage `apply`.
pub(crate) fn apply_stage<L: Link>(
    nodes: &mut Nodes,
    config: &Config,
    link: &mut L,
    plan: &mut WritePlan,
)
    requires fleet { IsFleetOf config.now nodes.old.fleet }
    requires follower { IsFollowerFor config.now (write_shard plan.old.write) plan.old.follower }
    requires answer { IfSome plan.old.committed (IsAnswerTo config.now nodes.old.fleet.stores plan.old) }
    requires spare { IfSome plan.old.committed (λ c. plan.old.spare ≡ Some c.wrote.note) }
    requires stage { next_of plan.old ≡ stage.Apply }
    ensures does { (keepers : KeeperState) → DoesWriteStage (rules_of true config.now) stage.Apply
        plan.old (world nodes.old keepers (L.shown link.old))
        plan.new (world nodes.new keepers (L.shown link.new)) }
    ensures write { (tells : Bool) (tables : Tables) → IsWriteUnderWay tells config.now tables nodes.old.fleet plan.old
        → IsWriteUnderWay tells config.now tables nodes.new.fleet plan.new }
    ensures rest { nodes.new ≡ record nodes.old { fleet = record nodes.old.fleet { followers = nodes.new.fleet.followers } } }
    ensures fleet { IsFleetOf config.now nodes.new.fleet }
    ensures reached { (tables : Tables) → HaveReached tables nodes.old.fleet → HaveReached tables nodes.new.fleet }
    ensures goes { GoesOn nodes.old.fleet nodes.new.fleet }
    ensures link { IsLaterLink (L.shown link.old) (L.shown link.new) }
{
    let carries = link.carries();
    let route = Route {
        follower: plan.follower(),
        leader: last_before(plan),
    };
    let note = spare_note_of(plan);
    let outcome = carry_back(nodes, config, link, route, plan, note);
    let hops = link.carries().saturating_sub(carries);
    plan.take(WriteResult::Apply(outcome), hops);
}
