//! The stages of held reads.
ghost use Rattle.std.specs.Prelude.{◌≡◌, ◌-◌, IsSome, Some, false, nat_lt, true};
ghost use Rattle.core_model.specs.Consistent.{IsConsistent, IsFleetOf};
ghost use Rattle.core_model.specs.Serving.{IsFollowerFor};
ghost use Rattle.core_model.specs.States.{AreStatesOf};
ghost use Rattle.core_plans.specs.HeldReads.{DoesReadAndPasses, EndsAskAlone, EndsReadAndPasses, IsReadUnderWay, PassesReadStage, at_bound};
ghost use Rattle.core_plans.specs.HeldReads.{read_has_no_room, read_is_down};
ghost use Rattle.core_plans.specs.LedBy.{rules_of};
ghost use Rattle.core_steps.specs.World.{world};
ghost use Rattle.read_plan.specs.Readings.{new_reading, taken};
ghost use Rattle.read_plan.specs.Standings.{IsAnsweredFrom, came_of, stage_named, stage_of};
ghost use Rattle.read_plan.specs.declared.stages.ReadStage.TheVariants as stage;
ghost use Rattle.tao_base.specs.Queries.{query_shard};

use crate::needs::{asked_of_read, read_down};
use cache_items::Look;
use core_model::{Wanted, masters_are_regions};
use core_steps::core_nodes::{FirstLook, Fleet, master_store};
use core_steps::{Nodes, Route, TierPlace};
use node_name::NodeName;
use read_plan::{ReadPlan, ReadResult, ReadStage};
use replies::{NodeRefused, Refusal, Reply, When};
use sealed_item::laws::fills_are_sealed;
use store_replies::out_of_memory;
use tao_base::{OutOfMemory, Query};
use tao_keeper::Keeper;
use tao_link::Link;
use topology::Config;

/// A read that is begun, at a floor, by a session of a tier. Takes no memory.
pub fn begin_read(
    config: &Config,
    query: Query,
    of: TierPlace,
    floor: u64,
    critical: bool,
    follower: NodeName,
) -> ReadPlan
    ensures { result ≡ at_bound config.now (new_reading query of.region of.tier floor critical follower) }
{
    let bound = config.schema.bound_of(&query.key());
    let mut plan = ReadPlan::begin(query, of.region, of.tier, floor, critical, follower);
    plan.set_bound(bound);
    plan
}

/// How many calls and carries there were.
#[derive(Clone, Copy)]
struct Tally {
    calls: u64,
    carries: u64,
}

/// How many there were so far.
fn so_far<K: Keeper, L: Link>(keepers: &K, link: &L) -> Tally
    ensures { result ≡ record { calls = (K.state keepers.now).calls; carries = (L.shown link.now).carries } }
{
    Tally {
        calls: keepers.calls(),
        carries: link.carries(),
    }
}

/// Takes what a stage over the link came to, with what it took since.
fn take_since<K: Keeper, L: Link>(
    keepers: &K,
    link: &L,
    since: Tally,
    plan: &mut ReadPlan,
    outcome: ReadResult,
)
    requires stage { came_of outcome ≡ stage_of plan.old.at }
    requires answered { IsAnsweredFrom plan.old.at outcome }
    ensures { plan.new
        ≡ taken outcome ((L.shown link.now).carries - since.carries) (nat_lt since.calls (K.state keepers.now).calls) plan.old }
{
    let hops = link.carries().saturating_sub(since.carries);
    let store = since.calls < keepers.calls();
    plan.take(outcome, hops, store);
}

/// Ends the ask of a read that is over without a fill.
fn end_ask_of(fleet: &mut Fleet, config: &Config, plan: &ReadPlan)
    requires fleet { IsFleetOf config.now fleet.old }
    requires follower { IsFollowerFor config.now (query_shard plan.now.query) plan.now.follower }
    ensures { EndsAskAlone config.now plan.now fleet.old fleet.new }
{
    fleet.end_ask(config, plan.follower(), plan.query().shard(), plan.ask());
}

/// The stage `look` of a critical read: its follower isn't to answer.
fn look_past<K: Keeper, L: Link>(
    nodes: &mut Nodes,
    config: &Config,
    keepers: &K,
    link: &L,
    plan: &mut ReadPlan,
)
    requires consistent { IsConsistent K.TELLS config.now (K.state keepers.now).told nodes.old.fleet }
    requires read { IsReadUnderWay K.TELLS config.now (K.state keepers.now).told nodes.old.fleet plan.old }
    requires stage { stage_of plan.old.at ≡ stage.Look }
    requires critical { plan.old.critical ≡ true }
    ensures { DoesReadAndPasses (rules_of K.TELLS config.now) plan.old (world nodes.old (K.state keepers.now) (L.shown link.now))
        plan.new (world nodes.new (K.state keepers.now) (L.shown link.now)) }
{
    masters_are_regions(config);
    let ask = nodes
        .fleet
        .ask_at_once(config, plan.follower(), plan.query());
    plan.set_ask(ask);
    plan.take(ReadResult::Look(Ok(Look::Miss)), 0, false);
}

/// The stage `look` of a read that isn't critical.
fn look_first<K: Keeper, L: Link>(
    nodes: &mut Nodes,
    config: &Config,
    keepers: &K,
    link: &L,
    plan: &mut ReadPlan,
)
    requires consistent { IsConsistent K.TELLS config.now (K.state keepers.now).told nodes.old.fleet }
    requires read { IsReadUnderWay K.TELLS config.now (K.state keepers.now).told nodes.old.fleet plan.old }
    requires stage { stage_of plan.old.at ≡ stage.Look }
    requires plain { plan.old.critical ≡ false }
    ensures { DoesReadAndPasses (rules_of K.TELLS config.now) plan.old (world nodes.old (K.state keepers.now) (L.shown link.now))
        plan.new (world nodes.new (K.state keepers.now) (L.shown link.now)) }
{
    masters_are_regions(config);
    match nodes
        .fleet
        .look(config, plan.follower(), plan.query(), plan.floor())
    {
        Ok(FirstLook { look, ask }) => {
            plan.set_ask(ask);
            plan.take(ReadResult::Look(Ok(look)), 0, false);
        }
        Err(OutOfMemory) => plan.take(ReadResult::Look(Err(out_of_memory())), 0, false),
    }
}

/// The stage `look`.
fn look_stage<K: Keeper, L: Link>(
    nodes: &mut Nodes,
    config: &Config,
    keepers: &K,
    link: &L,
    plan: &mut ReadPlan,
)
    requires consistent { IsConsistent K.TELLS config.now (K.state keepers.now).told nodes.old.fleet }
    requires read { IsReadUnderWay K.TELLS config.now (K.state keepers.now).told nodes.old.fleet plan.old }
    requires stage { stage_of plan.old.at ≡ stage.Look }
    ensures { DoesReadAndPasses (rules_of K.TELLS config.now) plan.old (world nodes.old (K.state keepers.now) (L.shown link.now))
        plan.new (world nodes.new (K.state keepers.now) (L.shown link.now)) }
{
    if plan.is_critical() {
        look_past(nodes, config, keepers, link, plan);
    } else {
        look_first(nodes, config, keepers, link, plan);
    }
}

/// The stage `ask`.
fn ask_stage<K: Keeper, L: Link>(
    nodes: &mut Nodes,
    config: &Config,
    keepers: &mut K,
    link: &mut L,
    plan: &mut ReadPlan,
)
    requires consistent { IsConsistent K.TELLS config.now (K.state keepers.old).told nodes.old.fleet }
    requires states { AreStatesOf config.now nodes.old.topology }
    requires read { IsReadUnderWay K.TELLS config.now (K.state keepers.old).told nodes.old.fleet plan.old }
    requires stage { stage_of plan.old.at ≡ stage.Ask }
    ensures { DoesReadAndPasses (rules_of K.TELLS config.now) plan.old (world nodes.old (K.state keepers.old) (L.shown link.old))
        plan.new (world nodes.new (K.state keepers.new) (L.shown link.new)) }
{
    let since = so_far(keepers, link);
    let node = asked_of_read(&nodes.topology, plan);
    let route = Route {
        follower: plan.follower(),
        leader: node,
    };
    let (query, floor) = (plan.query(), plan.floor());
    let read = Wanted { query, floor };
    match nodes.ask_over(config, keepers, link, route, &read) {
        Ok(given) => {
            plan.set_by(node);
            take_since(keepers, link, since, plan, ReadResult::Ask(Ok(given)));
        }
        Err(refusal) => {
            let reply = Reply::Refused(refusal);
            end_ask_of(&mut nodes.fleet, config, plan);
            take_since(keepers, link, since, plan, ReadResult::Ask(Err(reply)));
        }
    }
}

/// The stage `master`.
fn master_stage<K: Keeper, L: Link>(
    nodes: &mut Nodes,
    config: &Config,
    keepers: &mut K,
    link: &mut L,
    plan: &mut ReadPlan,
)
    requires consistent { IsConsistent K.TELLS config.now (K.state keepers.old).told nodes.old.fleet }
    requires read { IsReadUnderWay K.TELLS config.now (K.state keepers.old).told nodes.old.fleet plan.old }
    requires stage { stage_of plan.old.at ≡ stage.Master }
    ensures { DoesReadAndPasses (rules_of K.TELLS config.now) plan.old (world nodes.old (K.state keepers.old) (L.shown link.old))
        plan.new (world nodes.new (K.state keepers.new) (L.shown link.new)) }
{
    let since = so_far(keepers, link);
    let (follower, query) = (plan.follower(), plan.query());
    let node = NodeName::Store(master_store(config, query.shard()));
    match nodes.read_over(config, keepers, link, follower, query) {
        Ok(out) => {
            plan.set_by(node);
            take_since(keepers, link, since, plan, ReadResult::Master(Ok(out)));
        }
        Err(refusal) => {
            let reply = Reply::Refused(refusal);
            end_ask_of(&mut nodes.fleet, config, plan);
            take_since(keepers, link, since, plan, ReadResult::Master(Err(reply)));
        }
    }
}

/// The stage `keep`.
fn keep_stage<K: Keeper, L: Link>(
    nodes: &mut Nodes,
    config: &Config,
    keepers: &K,
    link: &L,
    plan: &mut ReadPlan,
)
    requires consistent { IsConsistent K.TELLS config.now (K.state keepers.now).told nodes.old.fleet }
    requires read { IsReadUnderWay K.TELLS config.now (K.state keepers.now).told nodes.old.fleet plan.old }
    requires stage { stage_of plan.old.at ≡ stage.Keep }
    ensures { DoesReadAndPasses (rules_of K.TELLS config.now) plan.old (world nodes.old (K.state keepers.now) (L.shown link.now))
        plan.new (world nodes.new (K.state keepers.now) (L.shown link.now)) }
{
    masters_are_regions(config);
    match plan.fill() {
        Some(fill) => {
            fills_are_sealed(&fill);
            let (follower, query) = (plan.follower(), plan.query());
            let read = Wanted {
                query,
                floor: plan.floor(),
            };
            match nodes.fleet.keep(config, follower, &read, plan.ask(), fill) {
                Ok(found) => plan.take(ReadResult::Keep(Ok(Some(found))), 0, false),
                Err(OutOfMemory) => plan.take(ReadResult::Keep(Err(out_of_memory())), 0, false),
            }
        }
        None => {
            end_ask_of(&mut nodes.fleet, config, plan);
            plan.take(ReadResult::Keep(Ok(None)), 0, false);
        }
    }
}

/// Ends a read with that reply in place of its next stage, and its ask.
fn end_read<K: Keeper, L: Link>(
    nodes: &mut Nodes,
    config: &Config,
    keepers: &K,
    link: &L,
    reply: Reply,
    plan: &mut ReadPlan,
)
    requires consistent { IsConsistent K.TELLS config.now (K.state keepers.now).told nodes.old.fleet }
    requires read { IsReadUnderWay K.TELLS config.now (K.state keepers.now).told nodes.old.fleet plan.old }
    requires goes_on { IsSome (stage_named (stage_of plan.old.at)) }
    ensures { EndsReadAndPasses (rules_of K.TELLS config.now) reply plan.old (world nodes.old (K.state keepers.now) (L.shown link.now))
        plan.new (world nodes.new (K.state keepers.now) (L.shown link.now)) }
{
    end_ask_of(&mut nodes.fleet, config, plan);
    let outcome = plan.next().refused(reply);
    plan.take(outcome, 0, false);
}

/// The refusal of a read whose next stage needs a node that is down.
fn read_is_down(node: NodeName) -> Reply
    ensures { result ≡ read_is_down node }
{
    Reply::Refused(Refusal::Node(NodeRefused::NodeDown {
        node,
        when: When::Before,
    }))
}

/// Ends a read in place of a stage that may be its last, since there is no memory for what its session is to learn.
pub(crate) fn give_up_read<K: Keeper, L: Link>(
    nodes: &mut Nodes,
    config: &Config,
    keepers: &K,
    link: &L,
    plan: &mut ReadPlan,
)
    requires consistent { IsConsistent K.TELLS config.now (K.state keepers.now).told nodes.old.fleet }
    requires read { IsReadUnderWay K.TELLS config.now (K.state keepers.now).told nodes.old.fleet plan.old }
    requires goes_on { IsSome (stage_named (stage_of plan.old.at)) }
    ensures { EndsReadAndPasses (rules_of K.TELLS config.now) read_has_no_room plan.old (world nodes.old (K.state keepers.now) (L.shown link.now))
        plan.new (world nodes.new (K.state keepers.now) (L.shown link.now)) }
{
    end_read(nodes, config, keepers, link, out_of_memory(), plan);
}

/// Does the stage of a read that follows, with all that it needs up.
fn next_stage<K: Keeper, L: Link>(
    nodes: &mut Nodes,
    config: &Config,
    keepers: &mut K,
    link: &mut L,
    plan: &mut ReadPlan,
)
    requires consistent { IsConsistent K.TELLS config.now (K.state keepers.old).told nodes.old.fleet }
    requires states { AreStatesOf config.now nodes.old.topology }
    requires read { IsReadUnderWay K.TELLS config.now (K.state keepers.old).told nodes.old.fleet plan.old }
    requires goes_on { IsSome (stage_named (stage_of plan.old.at)) }
    ensures { DoesReadAndPasses (rules_of K.TELLS config.now) plan.old (world nodes.old (K.state keepers.old) (L.shown link.old))
        plan.new (world nodes.new (K.state keepers.new) (L.shown link.new)) }
{
    match plan.next() {
        ReadStage::Look => look_stage(nodes, config, keepers, link, plan),
        ReadStage::Ask => ask_stage(nodes, config, keepers, link, plan),
        ReadStage::Master => master_stage(nodes, config, keepers, link, plan),
        ReadStage::Keep => keep_stage(nodes, config, keepers, link, plan),
        ReadStage::Done => unreachable!(),
    }
}

/// Does the stage of a read that follows. Who is asked is chosen as the nodes are now: the leader that the region prefers, where it is up and the
/// session's tier doesn't suspect it, and else the region's store. Where the follower is down, or for the last stage who gave what it is to keep, the read
/// ends with `node_down`. A stage that fails ends the read, and its ask. The reply of a read that has ended is legal in the log as it is then.
///
/// Costs what the stage does in `core_steps`.
pub fn read_stage<K: Keeper, L: Link>(
    nodes: &mut Nodes,
    config: &Config,
    keepers: &mut K,
    link: &mut L,
    plan: &mut ReadPlan,
)
    requires consistent { IsConsistent K.TELLS config.now (K.state keepers.old).told nodes.old.fleet }
    requires states { AreStatesOf config.now nodes.old.topology }
    requires read { IsReadUnderWay K.TELLS config.now (K.state keepers.old).told nodes.old.fleet plan.old }
    requires goes_on { IsSome (stage_named (stage_of plan.old.at)) }
    ensures { PassesReadStage (rules_of K.TELLS config.now) plan.old (world nodes.old (K.state keepers.old) (L.shown link.old))
        plan.new (world nodes.new (K.state keepers.new) (L.shown link.new)) }
{
    match read_down(&nodes.topology, plan) {
        Some(node) => end_read(nodes, config, keepers, link, read_is_down(node), plan),
        None => next_stage(nodes, config, keepers, link, plan),
    }
}
