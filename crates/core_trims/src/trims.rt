//! A trim: what it needs is prepared, then the log is cut, and then the nodes begin anew.
ghost use Rattle.std.specs.Prelude.{◌≡◌, ◌<◌, IfErr, IfOk, OnErr, length};
ghost use Rattle.core_mail.specs.Inboxes.{AreInboxesOf, HaveArrived};
ghost use Rattle.core_model.specs.Consistent.{IsConsistent};
ghost use Rattle.core_model.specs.Cuts.{ArePastCuts};
ghost use Rattle.core_model.specs.Emptied.{region_tables};
ghost use Rattle.core_model.specs.Pens.{pens_of};
ghost use Rattle.core_model.specs.Stores.{IsConfiguredStore};
ghost use Rattle.core_steps.specs.World.{world};
ghost use Rattle.core_trims.specs.Trims.{AreOfRegion, ArePrepared, AreSteady, IsPrepared, ResetEach, ResetsNode, ResetsOn, TrimsOn, TrimsOver, count_up};
ghost use Rattle.core_trims.specs.Trims.{names_of};
ghost use Rattle.graph_model.specs.Told.{WhereTold};
ghost use Rattle.shard_tables.specs.Refusals.{IsOfReads};
ghost use Rattle.tao_keeper.specs.KeeperState.{CallsKeeper, KeepsTables};
ghost use Rattle.tao_link.specs.Shown.{LinkShown};

use core_steps::Nodes;
use core_steps::node_stages::Stand;
use node_name::NodeName;
use replies::Trimmed;
use shard_tables::StoreRefusal;
use tao_base::StoreName;
use tao_keeper::Keeper;
use topology::{Config, Topology};

/// A leader or follower that is to begin anew, and what it then begins with.
#[derive(Drop)]
pub struct Reset {
    pub node: NodeName,
    pub stand: Stand,
}

/// What these nodes begin with at the stores of the region. Costs a call of the keeper for each shard that each of them serves.
fn resets_for<K: Keeper>(
    nodes: &mut Nodes,
    config: &Config,
    keepers: &mut K,
    region: u16,
    names: &[NodeName],
) -> Result<Vec<Reset>, StoreRefusal>
    requires consistent { IsConsistent K.TELLS config.now (K.state keepers.old).told nodes.old.fleet }
    requires here { region < length config.now.regions }
    requires names { AreOfRegion config.now region names.now }
    ensures names { IfOk result (λ resets. names_of resets.items ≡ names.now) }
    ensures prepared { IfOk result (λ resets. ArePrepared config.now (pens_of nodes.old.fleet.stores)
        (region_tables K.TELLS (K.state keepers.old).told region) resets.items) }
    ensures same { nodes.new ≡ nodes.old }
    ensures consistent { IsConsistent K.TELLS config.now (K.state keepers.new).told nodes.new.fleet }
    ensures refused { IfErr result IsOfReads }
    ensures tables { KeepsTables K.TELLS (K.state keepers.old) (K.state keepers.new) }
    ensures calls { CallsKeeper StoreRefusal.KeeperFault (K.state keepers.old) (K.state keepers.new) result }
{
    let mut resets = Vec::new(nodes.alloc);
    for name in names {
        let stand = nodes.fleet.restart(nodes.alloc, config, keepers, *name)?;
        let reset = Reset { node: *name, stand };
        if resets.push(reset).is_err() {
            return Err(StoreRefusal::OutOfMemory);
        }
    }
    Ok(resets)
}

/// How many of the nodes are up.
fn count_up(topology: &Topology, names: &[NodeName]) -> u64
    ensures { result ≡ count_up topology.now names.now }
{
    names.iter().filter(|name| topology.is_up(**name)).count() as u64
}

/// A node loses all that it holds, and the messages that wait for it, and begins anew. Takes no memory.
fn reset_node<K: Keeper>(nodes: &mut Nodes, config: &Config, keepers: &K, region: u16, reset: Reset)
    requires order { AreSteady K.TELLS config.now (K.state keepers.now).told nodes.old.fleet nodes.old.mail }
    requires prepared { IsPrepared config.now (pens_of nodes.old.fleet.stores) (region_tables K.TELLS (K.state keepers.now).told region) reset }
    ensures resets { (link : LinkShown) → ResetsNode (region_tables K.TELLS (K.state keepers.now).told region) reset.node
        (world nodes.old (K.state keepers.now) link) (world nodes.new (K.state keepers.now) link) }
    ensures on { ResetsOn K.TELLS config.now (K.state keepers.now).told nodes.old nodes.new }
    ensures rest { nodes.new ≡ record nodes.old { fleet = nodes.new.fleet; mail = nodes.new.mail } }
{
    let _ = keepers;
    let _ = region;
    let Reset { node, stand } = reset;
    let Stand { lows, notes } = stand;
    nodes.fleet.empty(config, node, &lows, notes);
    nodes.mail.clear_inbox(node);
}

/// The nodes begin anew, the last one first. Takes no memory.
fn reset_all<K: Keeper>(
    nodes: &mut Nodes,
    config: &Config,
    keepers: &K,
    region: u16,
    resets: Vec<Reset>,
)
    requires order { AreSteady K.TELLS config.now (K.state keepers.now).told nodes.old.fleet nodes.old.mail }
    requires prepared { ArePrepared config.now (pens_of nodes.old.fleet.stores) (region_tables K.TELLS (K.state keepers.now).told region) resets.items }
    ensures resets { (link : LinkShown) → ResetEach (region_tables K.TELLS (K.state keepers.now).told region) (names_of resets.items)
        (world nodes.old (K.state keepers.now) link) (world nodes.new (K.state keepers.now) link) }
    ensures on { ResetsOn K.TELLS config.now (K.state keepers.now).told nodes.old nodes.new }
    ensures rest { nodes.new ≡ record nodes.old { fleet = nodes.new.fleet; mail = nodes.new.mail } }
{
    let mut left = resets;
    while let Some(reset) = left.pop() {
        reset_node(nodes, config, keepers, region, reset);
    }
}

/// Cuts the log of a store at the least of the position and of the lengths of all stores of its shard, and lets each leader and follower of the store's
/// region that serves the shard and lies behind begin anew at its region's stores. A node that is down and behind does so too, which nobody sees, and is not
/// counted.
///
/// `KeeperFault` comes only where the keepers' count of faults rose, and `OutOfMemory` where there was no memory: all of that before the cut, and then nothing
/// has changed. Costs a call of the keeper for each region, one for each shard that a node serves which lies behind, two more, and a third where the cut rises.
pub fn trim_over<K: Keeper>(
    nodes: &mut Nodes,
    config: &Config,
    keepers: &mut K,
    at: StoreName,
    position: u64,
) -> Result<Trimmed, StoreRefusal>
    requires consistent { IsConsistent K.TELLS config.now (K.state keepers.old).told nodes.old.fleet }
    requires inboxes { AreInboxesOf config.now (pens_of nodes.old.fleet.stores) nodes.old.mail }
    requires arrived { WhereTold K.TELLS (HaveArrived (K.state keepers.old).told nodes.old.mail) }
    requires past { WhereTold K.TELLS (ArePastCuts (K.state keepers.old).told nodes.old.fleet) }
    requires here { IsConfiguredStore config.now at }
    ensures trims { (link : LinkShown) → IfOk result (λ trimmed. TrimsOver K.TELLS config.now at position trimmed
        (world nodes.old (K.state keepers.old) link) (world nodes.new (K.state keepers.new) link)) }
    ensures same { OnErr result (nodes.new ≡ nodes.old) }
    ensures stays { OnErr result (KeepsTables K.TELLS (K.state keepers.old) (K.state keepers.new)) }
    ensures refused { IfErr result IsOfReads }
    ensures on { (link : LinkShown) → TrimsOn K.TELLS config.now
        (world nodes.old (K.state keepers.old) link) (world nodes.new (K.state keepers.new) link) }
    ensures calls { CallsKeeper StoreRefusal.KeeperFault (K.state keepers.old) (K.state keepers.new) result }
{
    let least = nodes.fleet.least_mark(config, keepers, at.shard, position)?;
    let names = nodes.fleet.names_behind(nodes.alloc, config, at, least)?;
    let resets = resets_for(nodes, config, keepers, at.region, &names)?;
    let cut = nodes.fleet.cut_log(config, keepers, at, least)?;
    let reset = count_up(&nodes.topology, &names);
    reset_all(nodes, config, keepers, at.region, resets);
    Ok(Trimmed { cut, reset })
}
