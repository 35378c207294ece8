//! A settle's jobs: all that are open, shard by shard, each run as a repair runs one.
ghost use Rattle.std.specs.Prelude.{◌≡◌, ◌<◌};
ghost use Rattle.core_repairs.specs.Repairs.{RunsJobs, RunsShard};
ghost use Rattle.core_steps.specs.Posting.{CanPost, PostsOn};
ghost use Rattle.core_steps.specs.World.{world};

use crate::repairs::repair_first;
use crate::stops::stop_of;
use core_steps::Nodes;
use core_steps::core_nodes::SettleStop;
use shard_tables::inverses_match;
use tao_keeper::Keeper;
use tao_link::Link;
use topology::Config;

/// Runs the open jobs of a shard, in order of position.
fn run_shard<K: Keeper, L: Link>(
    nodes: &mut Nodes,
    config: &Config,
    keepers: &mut K,
    link: &mut L,
    shard: u16,
) -> Result<(), SettleStop>
    requires ready { CanPost K.TELLS config.now (world nodes.old (K.state keepers.old) (L.shown link.old)) }
    requires here { shard < config.now.shards }
    ensures runs { RunsShard K.TELLS config.now shard result
        (world nodes.old (K.state keepers.old) (L.shown link.old)) (world nodes.new (K.state keepers.new) (L.shown link.new)) }
    ensures rest { nodes.new.fleet ≡ record nodes.old.fleet { stores = nodes.new.fleet.stores } }
    ensures on { PostsOn K.TELLS config.now
        (world nodes.old (K.state keepers.old) (L.shown link.old)) (world nodes.new (K.state keepers.new) (L.shown link.new)) }
{
    inverses_match(&config.schema);
    let mut last = 0;
    loop {
        let found = match repair_first(nodes, config, keepers, link, shard) {
            Ok(found) => found,
            Err(refusal) => {
                let stop = stop_of(shard, &refusal);
                drop(refusal);
                return Err(stop);
            }
        };
        let Some(ran) = found else { return Ok(()) };
        let position = ran.job.position;
        drop(ran);
        // A keeper that tells its tables gives later jobs only; one that doesn't may give the same one for ever.
        if position <= last {
            return Ok(());
        }
        last = position;
    }
}

/// Runs all open jobs, shard by shard, each shard's in order of position, as [`repair_first`] runs one. The first that can't be run ends it, and what was
/// done stays; no shard below the one at which it stops has an open job then. Costs what the jobs do, and one more call of the keeper for each shard.
pub fn run_jobs<K: Keeper, L: Link>(
    nodes: &mut Nodes,
    config: &Config,
    keepers: &mut K,
    link: &mut L,
) -> Result<(), SettleStop>
    requires ready { CanPost K.TELLS config.now (world nodes.old (K.state keepers.old) (L.shown link.old)) }
    ensures runs { RunsJobs K.TELLS config.now result
        (world nodes.old (K.state keepers.old) (L.shown link.old)) (world nodes.new (K.state keepers.new) (L.shown link.new)) }
    ensures rest { nodes.new.fleet ≡ record nodes.old.fleet { stores = nodes.new.fleet.stores } }
    ensures on { PostsOn K.TELLS config.now
        (world nodes.old (K.state keepers.old) (L.shown link.old)) (world nodes.new (K.state keepers.new) (L.shown link.new)) }
{
    for shard in 0..config.shards {
        run_shard(nodes, config, keepers, link, shard)?;
    }
    Ok(())
}
