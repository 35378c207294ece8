//! A settle's streams: each is moved to its end, region by region and in each of them shard by shard.
ghost use Rattle.std.specs.Prelude.{◌≡◌, ◌<◌, ◌+◌, length};
ghost use Rattle.core_model.specs.Stores.{IsConfiguredStore, region_store};
ghost use Rattle.core_steps.specs.core_nodes.Opening.{IsSlaveStore};
ghost use Rattle.core_repairs.specs.Streams.{RunsStreams, StreamsFrom, StreamsOnce, goes_further};
ghost use Rattle.core_steps.specs.Posting.{CanPost, PostsOn};
ghost use Rattle.core_steps.specs.World.{world};

use crate::stops::stop_of;
use core_model::master_of;
use core_steps::core_nodes::SettleStop;
use core_steps::{AskedStream, Nodes};
use replies::{StreamVerdict, Streamed};
use tao_base::StoreName;
use tao_keeper::Keeper;
use tao_link::Link;
use topology::Config;

/// A step of the stream into a slave's store: the entry that the store takes next.
fn stream_once<K: Keeper, L: Link>(
    nodes: &mut Nodes,
    config: &Config,
    keepers: &mut K,
    link: &mut L,
    at: StoreName,
) -> Result<Streamed, SettleStop>
    requires ready { CanPost K.TELLS config.now (world nodes.old (K.state keepers.old) (L.shown link.old)) }
    requires slave { IsSlaveStore config.now at }
    ensures streams { StreamsOnce K.TELLS config.now at result
        (world nodes.old (K.state keepers.old) (L.shown link.old)) (world nodes.new (K.state keepers.new) (L.shown link.new)) }
    ensures followers { nodes.new.fleet.followers ≡ nodes.old.fleet.followers }
    ensures on { PostsOn K.TELLS config.now
        (world nodes.old (K.state keepers.old) (L.shown link.old)) (world nodes.new (K.state keepers.new) (L.shown link.new)) }
{
    let asked = AskedStream { at, position: None };
    match nodes.stream_over(config, keepers, link, asked) {
        Ok(streamed) => Ok(streamed),
        Err(refusal) => {
            let stop = stop_of(at.shard, &refusal);
            drop(refusal);
            Err(stop)
        }
    }
}

/// Whether more is to come after a step: the store took the entry, and takes a position behind the last one next.
fn goes_further(last: u64, streamed: &Streamed) -> bool
    ensures { result ≡ goes_further last streamed.now }
{
    match streamed.verdict {
        StreamVerdict::Applied => last < streamed.next,
        StreamVerdict::Old | StreamVerdict::Gap | StreamVerdict::None => false,
    }
}

/// Moves the stream into a slave's store to its end.
fn stream_to_end<K: Keeper, L: Link>(
    nodes: &mut Nodes,
    config: &Config,
    keepers: &mut K,
    link: &mut L,
    at: StoreName,
) -> Result<(), SettleStop>
    requires ready { CanPost K.TELLS config.now (world nodes.old (K.state keepers.old) (L.shown link.old)) }
    requires slave { IsSlaveStore config.now at }
    ensures runs { StreamsFrom K.TELLS config.now at (region_store at.region (at.shard + 1)) result
        (world nodes.old (K.state keepers.old) (L.shown link.old)) (world nodes.new (K.state keepers.new) (L.shown link.new)) }
    ensures followers { nodes.new.fleet.followers ≡ nodes.old.fleet.followers }
    ensures on { PostsOn K.TELLS config.now
        (world nodes.old (K.state keepers.old) (L.shown link.old)) (world nodes.new (K.state keepers.new) (L.shown link.new)) }
{
    let mut last = 0;
    loop {
        let streamed = stream_once(nodes, config, keepers, link, at)?;
        // A keeper that tells its tables is at a later position after each entry; one that doesn't may give entries for ever.
        if !goes_further(last, &streamed) {
            return Ok(());
        }
        last = streamed.next;
    }
}

/// Moves the stream into a region's store of the shard to its end. Into the master's store there is none.
fn stream_shard<K: Keeper, L: Link>(
    nodes: &mut Nodes,
    config: &Config,
    keepers: &mut K,
    link: &mut L,
    at: StoreName,
) -> Result<(), SettleStop>
    requires ready { CanPost K.TELLS config.now (world nodes.old (K.state keepers.old) (L.shown link.old)) }
    requires here { IsConfiguredStore config.now at }
    ensures runs { StreamsFrom K.TELLS config.now at (region_store at.region (at.shard + 1)) result
        (world nodes.old (K.state keepers.old) (L.shown link.old)) (world nodes.new (K.state keepers.new) (L.shown link.new)) }
    ensures followers { nodes.new.fleet.followers ≡ nodes.old.fleet.followers }
    ensures on { PostsOn K.TELLS config.now
        (world nodes.old (K.state keepers.old) (L.shown link.old)) (world nodes.new (K.state keepers.new) (L.shown link.new)) }
{
    if at.region == master_of(config, at.shard) {
        return Ok(());
    }
    stream_to_end(nodes, config, keepers, link, at)
}

/// Moves the streams into a region's stores to their ends, shard by shard.
fn stream_region<K: Keeper, L: Link>(
    nodes: &mut Nodes,
    config: &Config,
    keepers: &mut K,
    link: &mut L,
    region: u16,
) -> Result<(), SettleStop>
    requires ready { CanPost K.TELLS config.now (world nodes.old (K.state keepers.old) (L.shown link.old)) }
    requires here { region < length config.now.regions }
    ensures runs { StreamsFrom K.TELLS config.now (region_store region 0) (region_store (region + 1) 0) result
        (world nodes.old (K.state keepers.old) (L.shown link.old)) (world nodes.new (K.state keepers.new) (L.shown link.new)) }
    ensures followers { nodes.new.fleet.followers ≡ nodes.old.fleet.followers }
    ensures on { PostsOn K.TELLS config.now
        (world nodes.old (K.state keepers.old) (L.shown link.old)) (world nodes.new (K.state keepers.new) (L.shown link.new)) }
{
    for shard in 0..config.shards {
        stream_shard(nodes, config, keepers, link, StoreName { region, shard })?;
    }
    Ok(())
}

/// How many regions there are.
fn region_count(config: &Config) -> u16
    ensures { result ≡ length config.now.regions }
{
    config.regions.as_slice().len() as u16
}

/// Moves every stream to its end, region by region, and in each region shard by shard: into each slave's store the entries of its shard's log that it
/// lacks are carried one by one from the master's store, and processed there as by a step of the stream. Then every store has all of its shard's
/// log.
///
/// The first fault ends it, and what was done stays: the streams before the one at which it stopped are at their ends. It stops as `Unsettled` with
/// that stream's shard, where a keeper or the carry failed, and its count rose, and as `OutOfMemory`. Costs a carry and at most four calls of the
/// keepers for each entry, and two calls for each slave's store.
pub fn run_streams<K: Keeper, L: Link>(
    nodes: &mut Nodes,
    config: &Config,
    keepers: &mut K,
    link: &mut L,
) -> Result<(), SettleStop>
    requires ready { CanPost K.TELLS config.now (world nodes.old (K.state keepers.old) (L.shown link.old)) }
    ensures runs { RunsStreams K.TELLS config.now result
        (world nodes.old (K.state keepers.old) (L.shown link.old)) (world nodes.new (K.state keepers.new) (L.shown link.new)) }
    ensures followers { nodes.new.fleet.followers ≡ nodes.old.fleet.followers }
    ensures on { PostsOn K.TELLS config.now
        (world nodes.old (K.state keepers.old) (L.shown link.old)) (world nodes.new (K.state keepers.new) (L.shown link.new)) }
{
    for region in 0..region_count(config) {
        stream_region(nodes, config, keepers, link, region)?;
    }
    Ok(())
}
