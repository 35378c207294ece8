//! The settle of nodes that came out of their locks.
ghost use Rattle.std.specs.Prelude.{◌≡◌};
ghost use Rattle.core_model.specs.Asked.{settings};
ghost use Rattle.core_model.specs.Consistent.{IsConsistent};
ghost use Rattle.core_model.specs.Cuts.{ArePastCuts};
ghost use Rattle.core_nodes.specs.Outside.{outside};
ghost use Rattle.graph_model.specs.Told.{WhereTold};
ghost use Rattle.topology.specs.States.{all_up};
ghost use Rattle.unlocked_nodes.specs.Settling.{CatchesUpAll, ComesTo, closed_now};
ghost use Rattle.unlocked_nodes.specs.Unlocked.{IsMet, MaySettle, fleet_of};

use crate::looking::look_through;
use crate::moving::{Moved, move_all};
use crate::unlocked::Unlocked;
use core_model::{Around, masters_are_regions};
use core_nodes::{Ends, Fleet, FleetParts, SettleStop, shard_lengths};
use shard_tables::inverses_match;
use shared_stores::{CountedNote, Sharing};
use tao_base::OutOfMemory;
use tao_keeper::Keeper;
use tao_link::Link;
use topology::Topology;

/// What lay behind the locks, and what came of a settle: the lengths of the shards' logs, or why it came to no end.
pub struct Settled {
    pub unlocked: Unlocked,
    pub outcome: Result<Vec<u64>, SettleStop>,
}

/// Each leader and follower processes the rest of the logs that it serves. Answers the lengths of the shards' logs.
fn catch_up_all<K: Keeper, L: Link>(
    around: &Around<'_>,
    topology: &Topology,
    fleet: &mut Fleet,
    keepers: &mut K,
    link: &mut L,
) -> Result<Vec<u64>, SettleStop>
    requires up { topology.now ≡ all_up (settings around.now) }
    requires consistent { IsConsistent K.TELLS (settings around.now) (K.state keepers.old).told fleet.old }
    requires past { WhereTold K.TELLS (ArePastCuts (K.state keepers.old).told fleet.old) }
    ensures catches { CatchesUpAll K.TELLS (settings around.now) result
        (closed_now fleet.old (outside (K.state keepers.old) (L.shown link.old))) (closed_now fleet.new (outside (K.state keepers.new) (L.shown link.new))) }
{
    let Around { alloc, config } = *around;
    let stores = fleet.lengths(alloc, config, keepers)?;
    let lengths = stores.as_slice();
    let shards = match shard_lengths(alloc, config, lengths) {
        Ok(shards) => shards,
        Err(OutOfMemory) => return Err(SettleStop::OutOfMemory),
    };
    let ends = Ends {
        alloc,
        config,
        topology,
        lengths,
    };
    fleet.catch_up(&ends, keepers, link)?;
    Ok(shards)
}

/// The nodes, and what came of a settle.
struct NodesSettled {
    fleet: Fleet,
    outcome: Result<Vec<u64>, SettleStop>,
}

/// Lets the nodes process the rest of the logs that they serve, once every store has its shard's whole log.
fn settle_moved<K: Keeper, L: Link>(
    around: &Around<'_>,
    topology: &Topology,
    fleet: Fleet,
    keepers: &mut K,
    link: &mut L,
) -> NodesSettled
    requires up { topology.now ≡ all_up (settings around.now) }
    requires consistent { IsConsistent K.TELLS (settings around.now) (K.state keepers.old).told fleet }
    requires past { WhereTold K.TELLS (ArePastCuts (K.state keepers.old).told fleet) }
    ensures catches { CatchesUpAll K.TELLS (settings around.now) result.outcome
        (closed_now fleet (outside (K.state keepers.old) (L.shown link.old))) (closed_now result.fleet (outside (K.state keepers.new) (L.shown link.new))) }
{
    let mut fleet = fleet;
    let outcome = catch_up_all(around, topology, &mut fleet, keepers, link);
    NodesSettled { fleet, outcome }
}

/// Settles nodes that have met: the jobs and streams of their stores, and then the nodes themselves.
fn settle_met<K: Keeper, J: Sharing, L: Link>(
    around: &Around<'_>,
    topology: &Topology,
    parts: FleetParts,
    keepers: &mut K,
    link: &mut L,
) -> NodesSettled
    requires made { settings around.now ≡ J.making.settings }
    requires up { topology.now ≡ all_up (settings around.now) }
    requires met { IsMet K.TELLS J.making J.log (K.state keepers.old).told (fleet_of parts) }
    ensures met { IsMet K.TELLS J.making J.log (K.state keepers.new).told result.fleet }
    ensures comes { ComesTo K.TELLS (settings around.now) result.outcome
        (closed_now (fleet_of parts) (outside (K.state keepers.old) (L.shown link.old)))
        (closed_now result.fleet (outside (K.state keepers.new) (L.shown link.new))) }
{
    let config = around.config;
    masters_are_regions(config);
    inverses_match(&config.schema);
    let FleetParts {
        leaders,
        followers,
        stores,
    } = parts;
    let Moved { stores, outcome } = move_all(around, stores, keepers, link);
    let fleet = Fleet::of_parts(FleetParts {
        leaders,
        followers,
        stores,
    });
    match outcome {
        Ok(()) => settle_moved(around, topology, fleet, keepers, link),
        Err(stop) => NodesSettled {
            fleet,
            outcome: Err(stop),
        },
    }
}

/// Settles nodes that have met, with the notes of their stores, which are asked no more.
fn settle_parts<K: Keeper, J: Sharing, L: Link>(
    around: &Around<'_>,
    topology: &Topology,
    parts: FleetParts,
    noted: Vec<Vec<CountedNote>>,
    keepers: &mut K,
    link: &mut L,
) -> Settled
    requires made { settings around.now ≡ J.making.settings }
    requires up { topology.now ≡ all_up (settings around.now) }
    requires met { IsMet K.TELLS J.making J.log (K.state keepers.old).told (fleet_of parts) }
    ensures ready { MaySettle K.TELLS J.making J.log (K.state keepers.new).told result.unlocked }
    ensures comes { ComesTo K.TELLS (settings around.now) result.outcome
        (closed_now (fleet_of parts) (outside (K.state keepers.old) (L.shown link.old)))
        (closed_now result.unlocked.fleet (outside (K.state keepers.new) (L.shown link.new))) }
{
    let NodesSettled { fleet, outcome } = settle_met::<K, J, L>(
        around, topology, parts, keepers, link,
    );
    Settled {
        unlocked: Unlocked {
            fleet,
            noted,
            met: true,
        },
        outcome,
    }
}

/// Settles what lay behind locks, over keepers that are one: runs all open jobs, moves every stream to its end, and lets each leader and follower process
/// the rest of its region's logs that it serves. What was done stays, whatever it comes to, and it may be settled again.
///
/// It stops as `Unsettled` with the shard of the job, the stream or the node, where a keeper or a carry failed, and its count rose, or where an entry would
/// be written to a full log; as `NoServer` where what is owed lies on a shard that isn't configured; and as `OutOfMemory`. Costs what the core's settle does;
/// the first one takes besides a note for each that stores and nodes have, and reads the logs of all shards.
pub fn settle_unlocked<K: Keeper, J: Sharing, L: Link>(
    around: &Around<'_>,
    topology: &Topology,
    unlocked: Unlocked,
    keepers: &mut K,
    link: &mut L,
) -> Settled
    requires made { settings around.now ≡ J.making.settings }
    requires up { topology.now ≡ all_up (settings around.now) }
    requires ready { MaySettle K.TELLS J.making J.log (K.state keepers.old).told unlocked }
    ensures ready { MaySettle K.TELLS J.making J.log (K.state keepers.new).told result.unlocked }
    ensures comes { ComesTo K.TELLS (settings around.now) result.outcome
        (closed_now unlocked.fleet (outside (K.state keepers.old) (L.shown link.old)))
        (closed_now result.unlocked.fleet (outside (K.state keepers.new) (L.shown link.new))) }
{
    let Unlocked { fleet, noted, met } = unlocked;
    let mut parts = fleet.into_parts();
    if met {
        return settle_parts::<K, J, L>(around, topology, parts, noted, keepers, link);
    }
    let mut noted = noted;
    match look_through::<K, J>(around, &mut parts, noted.as_mut_slice(), keepers) {
        Ok(()) => settle_parts::<K, J, L>(around, topology, parts, noted, keepers, link),
        Err(stop) => Settled {
            unlocked: Unlocked {
                fleet: Fleet::of_parts(parts),
                noted,
                met: false,
            },
            outcome: Err(stop),
        },
    }
}
