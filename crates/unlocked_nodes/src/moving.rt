//! The first half of a settle: jobs are run and streams moved, while empty nodes stand in for the cluster's own.
ghost use Rattle.std.specs.Prelude.{◌≡◌, ◌≤◌, IfErr, IfOk, OnOk};
ghost use Rattle.unlocked_nodes.specs.Settling.{HasStopCause, MovesStores, RestsWhole, stores_now};
ghost use Rattle.core_mail.specs.Inboxes.{AreEmpty, AreInboxesOf};
ghost use Rattle.core_model.specs.Asked.{settings};
ghost use Rattle.core_model.specs.Pens.{Pens};
ghost use Rattle.core_model.specs.Stores.{AreStoresOf};
ghost use Rattle.core_nodes.specs.Beginning.{MayStand};
ghost use Rattle.core_nodes.specs.Opening.{IsUnmade};
ghost use Rattle.core_nodes.specs.Outside.{outside};
ghost use Rattle.core_nodes.specs.Settling.{StopsLengths};
ghost use Rattle.core_repairs.specs.core_steps.Posting.{CanPost};
ghost use Rattle.core_repairs.specs.core_steps.World.{world};
ghost use Rattle.graph_model.specs.Told.{WhereTold};
ghost use Rattle.tao_keeper.specs.KeeperState.{IsLater, KeeperState, KeepsTables};
ghost use Rattle.topology.specs.States.{all_up};

use core_mail::Mail;
use core_model::Around;
use core_nodes::{Caches, Fleet, FleetParts, SettleStop, begin};
use core_repairs::core_steps::Nodes;
use core_repairs::{run_jobs, run_streams};
use replies::{OpenRefusal, UnsettledWhy};
use shard_tables::StoreNode;
use tao_base::OutOfMemory;
use tao_keeper::Keeper;
use tao_link::Link;
use topology::{Config, Topology};

/// What stands in for the nodes of a cluster: nodes that hold nothing, with inboxes in which no message waits.
struct StandIns {
    caches: Caches,
    mail: Mail,
    topology: Topology,
}

/// What a settle stops with where no nodes can stand in, since the lengths of the logs aren't known; which store was asked last isn't known then.
fn unbegun<K: Keeper>(config: &Config, keepers: &K, refusal: OpenRefusal) -> SettleStop
    requires shards { 1 ≤ config.now.shards }
    ensures { (before : KeeperState) → IsUnmade before.faults (K.state keepers.now).faults refusal
        → StopsLengths config.now before (K.state keepers.now) result }
{
    let _ = (config.shards, keepers.faults());
    match refusal {
        OpenRefusal::OutOfMemory => SettleStop::OutOfMemory,
        _ => SettleStop::Unsettled {
            shard: 0,
            why: UnsettledWhy::KeeperFault,
        },
    }
}

/// Inboxes in which no message waits.
fn inboxes_for(around: &Around<'_>) -> Result<(Mail, Topology), OutOfMemory>
    ensures mail { IfOk result (λ made. (pens : Pens) → AreInboxesOf (settings around.now) pens made.0) }
    ensures empty { IfOk result (λ made. AreEmpty made.0) }
    ensures up { IfOk result (λ made. made.1 ≡ all_up (settings around.now)) }
{
    let mail = Mail::open(around.alloc, around.config)?;
    let topology = Topology::make(around.alloc, around.config)?;
    Ok((mail, topology))
}

/// Nodes that hold nothing before these stores, with their inboxes, all up.
fn stand_ins<K: Keeper>(
    around: &Around<'_>,
    stores: &mut [StoreNode],
    keepers: &mut K,
) -> Result<StandIns, SettleStop>
    requires stores { AreStoresOf K.TELLS (settings around.now) (K.state keepers.old).told stores.old }
    ensures stand { IfOk result (λ ins. MayStand K.TELLS (settings around.now) (K.state keepers.old).told stores.old
        ins.caches.leaders.items ins.caches.followers.items) }
    ensures mail { IfOk result (λ ins. (pens : Pens) → AreInboxesOf (settings around.now) pens ins.mail) }
    ensures empty { IfOk result (λ ins. AreEmpty ins.mail) }
    ensures up { IfOk result (λ ins. ins.topology ≡ all_up (settings around.now)) }
    ensures same { stores.new ≡ stores.old }
    ensures stop { IfErr result (StopsLengths (settings around.now) (K.state keepers.old) (K.state keepers.new)) }
    ensures stays { KeepsTables K.TELLS (K.state keepers.old) (K.state keepers.new) }
    ensures later { IsLater (K.state keepers.old) (K.state keepers.new) }
{
    let config = around.config;
    let _shards = config.shards;
    let (mail, topology) = match inboxes_for(around) {
        Ok(made) => made,
        Err(OutOfMemory) => return Err(SettleStop::OutOfMemory),
    };
    match begin(around.alloc, config, stores, keepers) {
        Ok(caches) => Ok(StandIns {
            caches,
            mail,
            topology,
        }),
        Err(refusal) => Err(unbegun(config, keepers, refusal)),
    }
}

/// Runs all open jobs, and moves every stream to its end.
fn run_both<K: Keeper, L: Link>(
    nodes: &mut Nodes,
    config: &Config,
    keepers: &mut K,
    link: &mut L,
) -> Result<(), SettleStop>
    requires ready { CanPost K.TELLS config.now (world nodes.old (K.state keepers.old) (L.shown link.old)) }
    ensures moves { MovesStores K.TELLS config.now
        (stores_now nodes.old.fleet.stores (outside (K.state keepers.old) (L.shown link.old)))
        (stores_now nodes.new.fleet.stores (outside (K.state keepers.new) (L.shown link.new))) }
    ensures rests { WhereTold K.TELLS (OnOk result (RestsWhole config.now (K.state keepers.new).told)) }
    ensures cause { IfErr result (λ stop. HasStopCause K.TELLS config.now stop
        (outside (K.state keepers.old) (L.shown link.old)) (outside (K.state keepers.new) (L.shown link.new))) }
{
    run_jobs(nodes, config, keepers, link)?;
    run_streams(nodes, config, keepers, link)
}

/// The stores, and what came of moving what they have.
pub(crate) struct Moved {
    pub(crate) stores: Vec<StoreNode>,
    pub(crate) outcome: Result<(), SettleStop>,
}

/// The nodes at work: stores, with nodes standing in before them.
fn nodes_of(around: &Around<'_>, ins: StandIns, stores: Vec<StoreNode>) -> Nodes
    ensures leaders { result.fleet.leaders ≡ ins.caches.leaders.items }
    ensures followers { result.fleet.followers ≡ ins.caches.followers.items }
    ensures stores { result.fleet.stores ≡ stores.items }
    ensures mail { result.mail ≡ ins.mail }
    ensures up { result.topology ≡ ins.topology }
{
    let StandIns {
        caches,
        mail,
        topology,
    } = ins;
    let Caches { leaders, followers } = caches;
    Nodes {
        alloc: around.alloc,
        fleet: Fleet::of_parts(FleetParts {
            leaders,
            followers,
            stores,
        }),
        mail,
        topology,
    }
}

/// The stores, without the nodes that stood in.
fn stores_of(nodes: Nodes) -> Vec<StoreNode>
    ensures { result.items ≡ nodes.fleet.stores }
{
    let Nodes { fleet, .. } = nodes;
    let FleetParts { stores, .. } = fleet.into_parts();
    stores
}

/// Runs all open jobs, and moves every stream to its end, while these nodes stand in.
fn move_with<K: Keeper, L: Link>(
    around: &Around<'_>,
    ins: StandIns,
    stores: Vec<StoreNode>,
    keepers: &mut K,
    link: &mut L,
) -> Moved
    requires stores { AreStoresOf K.TELLS (settings around.now) (K.state keepers.old).told stores.items }
    requires stand { MayStand K.TELLS (settings around.now) (K.state keepers.old).told stores.items ins.caches.leaders.items ins.caches.followers.items }
    requires mail { (pens : Pens) → AreInboxesOf (settings around.now) pens ins.mail }
    requires empty { AreEmpty ins.mail }
    requires up { ins.topology ≡ all_up (settings around.now) }
    ensures moves { MovesStores K.TELLS (settings around.now)
        (stores_now stores.items (outside (K.state keepers.old) (L.shown link.old)))
        (stores_now result.stores.items (outside (K.state keepers.new) (L.shown link.new))) }
    ensures rests { WhereTold K.TELLS (OnOk result.outcome (RestsWhole (settings around.now) (K.state keepers.new).told)) }
    ensures cause { IfErr result.outcome (λ stop. HasStopCause K.TELLS (settings around.now) stop
        (outside (K.state keepers.old) (L.shown link.old)) (outside (K.state keepers.new) (L.shown link.new))) }
{
    let mut nodes = nodes_of(around, ins, stores);
    let outcome = run_both(&mut nodes, around.config, keepers, link);
    Moved {
        stores: stores_of(nodes),
        outcome,
    }
}

/// Runs all open jobs, and moves every stream to its end, over the stores alone: nodes that hold nothing stand in for the cluster's.
pub(crate) fn move_all<K: Keeper, L: Link>(
    around: &Around<'_>,
    stores: Vec<StoreNode>,
    keepers: &mut K,
    link: &mut L,
) -> Moved
    requires stores { AreStoresOf K.TELLS (settings around.now) (K.state keepers.old).told stores.items }
    ensures moves { MovesStores K.TELLS (settings around.now)
        (stores_now stores.items (outside (K.state keepers.old) (L.shown link.old)))
        (stores_now result.stores.items (outside (K.state keepers.new) (L.shown link.new))) }
    ensures rests { WhereTold K.TELLS (OnOk result.outcome (RestsWhole (settings around.now) (K.state keepers.new).told)) }
    ensures cause { IfErr result.outcome (λ stop. HasStopCause K.TELLS (settings around.now) stop
        (outside (K.state keepers.old) (L.shown link.old)) (outside (K.state keepers.new) (L.shown link.new))) }
{
    let mut stores = stores;
    match stand_ins(around, stores.as_mut_slice(), keepers) {
        Ok(ins) => move_with(around, ins, stores, keepers, link),
        Err(stop) => Moved {
            stores,
            outcome: Err(stop),
        },
    }
}
