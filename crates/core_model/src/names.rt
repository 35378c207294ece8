//! The names of a configuration's nodes, and who serves a shard.
ghost use Rattle.std.specs.Prelude.{◌≡◌, ◌%◌, IfOk, length, map};
ghost use Rattle.std.specs.List.{range_with_len};
ghost use Rattle.core_model.specs.Stores.{HaveMasterRegions, master_of, role_in, store_place};
ghost use Rattle.core_model.specs.Fleet.{follower_names, leader_names, region_of, regions_of, served_by, serves_in_turn, tiers_from, tiers_of};
ghost use Rattle.node_name.specs.declared.NodeName.TheVariants.{Follower as FollowerName, Leader as LeaderName};
ghost use Rattle.topology.specs.Choices.{serving_follower};
ghost use Rattle.topology.specs.Counts.{follower_count, leader_count, tier_count};

use leader_tier::shard_tables::StoreRole;
use node_name::NodeName;
use std::alloc::Global;
use tao_base::{OutOfMemory, StoreName};
use topology::Config;

/// How many leaders the region at a place has; none where there is no such region.
fn leader_count(config: &Config, region: u16) -> u16
    ensures { result ≡ leader_count (regions_of config.now) region }
{
    match config.regions.as_slice().get(usize::from(region)) {
        Some(region) => region.leaders,
        None => 0,
    }
}

/// How many tiers the region at a place has; none where there is no such region.
pub fn tier_count(config: &Config, region: u16) -> u16
    ensures { result ≡ tier_count (regions_of config.now) region }
{
    match config.regions.as_slice().get(usize::from(region)) {
        Some(region) => region.tiers.as_slice().len() as u16,
        None => 0,
    }
}

/// How many followers the tier at a place of a region has; none where there is no such tier.
fn follower_count(config: &Config, region: u16, tier: u16) -> u16
    ensures { result ≡ follower_count (regions_of config.now) region tier }
{
    let Some(region) = config.regions.as_slice().get(usize::from(region)) else {
        return 0;
    };
    match region.tiers.as_slice().get(usize::from(tier)) {
        Some(tier) => tier.followers,
        None => 0,
    }
}

/// How many regions there are.
fn region_count(config: &Config) -> u16
    ensures { result ≡ length config.now.regions }
{
    config.regions.as_slice().len() as u16
}

/// The leaders of a region that has so many.
fn region_leaders(alloc: Global, region: u16, count: u16) -> Result<Vec<NodeName>, OutOfMemory>
    ensures { IfOk result (λ names. names.items ≡ map (LeaderName region) (range_with_len 0 count)) }
{
    Ok(
        (0..count)
            .map(|index| NodeName::Leader { region, index })
            .collect(alloc)?,
    )
}

/// The followers of a tier that has so many.
fn tier_followers(
    alloc: Global,
    region: u16,
    tier: u16,
    count: u16,
) -> Result<Vec<NodeName>, OutOfMemory>
    ensures { IfOk result (λ names. names.items ≡ map (FollowerName region tier) (range_with_len 0 count)) }
{
    Ok(
        (0..count)
            .map(|index| NodeName::Follower {
                region,
                tier,
                index,
            })
            .collect(alloc)?,
    )
}

/// The leaders of a configuration, region by region.
pub fn leader_names(alloc: Global, config: &Config) -> Result<Vec<NodeName>, OutOfMemory>
    ensures { IfOk result (λ names. names.items ≡ leader_names config.now) }
{
    let mut names = Vec::new(alloc);
    for region in 0..region_count(config) {
        let leaders = region_leaders(alloc, region, leader_count(config, region))?;
        names.extend_from_slice(&leaders)?;
    }
    Ok(names)
}

/// The followers of a region, tier by tier.
fn region_followers(
    alloc: Global,
    config: &Config,
    region: u16,
) -> Result<Vec<NodeName>, OutOfMemory>
    ensures { IfOk result (λ names. names.items ≡ tiers_from region 0 (tiers_of config.now region)) }
{
    let mut names = Vec::new(alloc);
    for tier in 0..tier_count(config, region) {
        let followers = tier_followers(alloc, region, tier, follower_count(config, region, tier))?;
        names.extend_from_slice(&followers)?;
    }
    Ok(names)
}

/// The followers of a configuration, region by region and tier by tier.
pub fn follower_names(alloc: Global, config: &Config) -> Result<Vec<NodeName>, OutOfMemory>
    ensures { IfOk result (λ names. names.items ≡ follower_names config.now) }
{
    let mut names = Vec::new(alloc);
    for region in 0..region_count(config) {
        let followers = region_followers(alloc, config, region)?;
        names.extend_from_slice(&followers)?;
    }
    Ok(names)
}

/// The shard itself where there are no nodes to share it.
fn remainder(shard: u16, count: u16) -> u16
    ensures { result ≡ shard % count }
{
    if count == 0 { shard } else { shard % count }
}

/// The follower of a tier of a region that serves a shard.
pub fn serving_follower(config: &Config, region: u16, tier: u16, shard: u16) -> NodeName
    ensures { result ≡ serving_follower (regions_of config.now) region tier shard }
{
    NodeName::Follower {
        region,
        tier,
        index: remainder(shard, follower_count(config, region, tier)),
    }
}

/// The region of a node.
pub fn region_of(node: NodeName) -> u16
    ensures { result ≡ region_of node }
{
    match node {
        NodeName::Store(store) => store.region,
        NodeName::Leader { region, .. } | NodeName::Follower { region, .. } => region,
    }
}

/// Whether the node serves the shard: the nodes of a tier, and the leaders of a region, take turns.
pub fn serves_in_turn(config: &Config, name: NodeName, shard: u16) -> bool
    ensures { result ≡ serves_in_turn (regions_of config.now) name shard }
{
    match name {
        NodeName::Store(store) => store.shard == shard,
        NodeName::Leader { region, index } => {
            remainder(shard, leader_count(config, region)) == index
        }
        NodeName::Follower {
            region,
            tier,
            index,
        } => remainder(shard, follower_count(config, region, tier)) == index,
    }
}

/// The shards that a node serves, in order.
pub fn served_by(alloc: Global, config: &Config, name: NodeName) -> Result<Vec<u16>, OutOfMemory>
    ensures { IfOk result (λ shards. shards.items ≡ served_by config.now name) }
{
    Ok(
        (0..config.shards)
            .filter(|shard| serves_in_turn(config, name, *shard))
            .collect(alloc)?,
    )
}

/// The place of a store: region by region, and in each of them shard by shard.
pub fn store_place(config: &Config, at: StoreName) -> usize
    ensures { result ≡ store_place config.now at }
{
    usize::from(at.region) * usize::from(config.shards) + usize::from(at.shard)
}

/// The master region of a shard: the masters take turns.
pub fn master_of(config: &Config, shard: u16) -> u16
    ensures { result ≡ master_of config.now shard }
{
    let masters = config.masters.as_slice();
    masters[usize::from(shard) % masters.len()]
}

/// Whether a store makes the writes of its shard, or takes those of its master.
pub fn role_in(config: &Config, at: StoreName) -> StoreRole
    ensures { result ≡ role_in config.now at }
{
    if at.region == master_of(config, at.shard) {
        StoreRole::Master
    } else {
        StoreRole::Slave
    }
}

/// Each shard's master region is one of the configuration's.
pub fn masters_are_regions(config: &Config)
    ensures { HaveMasterRegions config.now }
{
    let _ = config.masters.as_slice();
}
