//! Which followers serve which shards.
ghost use Rattle.std.specs.Prelude.{◌≡◌, ◌↔◌, ◌<◌, ◌%◌, IfOk, IsFalse, IsTrue};
ghost use Rattle.topology.specs.Counts.{follower_count, tier_count};
ghost use Rattle.shard_clone.specs.Clones.{ChangesClone, SetsClone, is_clone, is_follower, is_preferred, may_clone, no_clones, serves};
ghost use Rattle.shard_clone.specs.Clones.{clone_place, follower_index};

use crate::counts::{Counts, region_counts};
use crate::flags::Flags;
use node_name::NodeName;
use std::alloc::Global;
use std::marker::Model;
use tao_base::OutOfMemory;
use topology::Config;

/// The followers that serve a shard beside the preferred one of their tier. Contracts see the numbers of the
/// configuration's nodes and shards, and the flags of the clones.
///
/// Takes four kilobytes. Each call takes time in the number of a region's followers at most, 16.
#[derive(Drop)]
pub struct CloneTable {
    regions: Vec<Counts>,
    shards: u16,
    flags: Flags,
}

impl Model for CloneTable {
    ghost use Rattle.shard_clone.specs.Clones.{Clones, KeepClones, clones_of};

    ghost Value = { Clones };

    ghost view = { λ t. clones_of t.regions.items t.shards t.flags };

    ghost invariant = { λ t. KeepClones (clones_of t.regions.items t.shards t.flags) };
}

impl CloneTable {
    /// The table of a configuration, without a clone. The one error is out of memory.
    pub fn make(alloc: Global, config: &Config) -> Result<CloneTable, OutOfMemory>
        ensures { IfOk result (λ table. table ≡ no_clones config.now) }
    {
        Ok(CloneTable {
            regions: region_counts(alloc, &config.regions)?,
            shards: config.shards,
            flags: Flags::make(alloc, 4096)?,
        })
    }

    /// Lets a follower serve a shard beside the preferred one of its tier, or takes this back. Answers whether that is
    /// a change: the preferred follower always serves. Where the node is no configured follower, or the shard isn't
    /// configured, the answer is false, and nothing changes. Takes no memory.
    pub fn set(&mut self, follower: NodeName, shard: u16, on: bool) -> bool
        ensures changed { IsTrue result ↔ ChangesClone follower shard on self.old }
        ensures set { IsTrue result → SetsClone follower shard on self.old self.new }
        ensures same { IsFalse result → self.new ≡ self.old }
    {
        if !self.may_clone(follower, shard) || self.serves(follower, shard) == on {
            return false;
        }
        self.flags.set(clone_place(follower, shard), on);
        true
    }

    /// Whether a follower serves a shard: as the preferred one of its tier, or as a clone. No other node does. Takes
    /// constant time.
    pub fn serves(&self, follower: NodeName, shard: u16) -> bool
        ensures { result ≡ serves self.now follower shard }
    {
        self.is_preferred(follower, shard) || self.is_clone(follower, shard)
    }

    /// Whether a node is the follower of its tier that serves a shard by itself.
    fn is_preferred(&self, follower: NodeName, shard: u16) -> bool
        ensures { result ≡ is_preferred self.now.regions follower shard }
    {
        match follower {
            NodeName::Follower {
                region,
                tier,
                index,
            } => {
                let count = self.follower_count(region, tier);
                index < count && index == remainder(shard, count)
            }
            _ => false,
        }
    }

    fn is_clone(&self, follower: NodeName, shard: u16) -> bool
        ensures { result ≡ is_clone self.now follower shard }
    {
        self.may_clone(follower, shard) && self.flags.at(clone_place(follower, shard))
    }

    /// Whether a node is a configured follower, not the preferred one, and the shard is configured.
    fn may_clone(&self, follower: NodeName, shard: u16) -> bool
        ensures { result ≡ may_clone self.now follower shard }
    {
        shard < self.shards && self.is_follower(follower) && !self.is_preferred(follower, shard)
    }

    fn is_follower(&self, node: NodeName) -> bool
        ensures { result ≡ is_follower self.now.regions node }
    {
        match node {
            NodeName::Follower {
                region,
                tier,
                index,
            } => index < self.follower_count(region, tier),
            _ => false,
        }
    }

    pub(crate) fn follower_count(&self, region: u16, tier: u16) -> u16
        ensures { result ≡ follower_count self.now.regions region tier }
    {
        match self.regions.get(usize::from(region)) {
            Some(counts) => counts.followers(tier),
            None => 0,
        }
    }

    pub(crate) fn tier_count(&self, region: u16) -> u16
        ensures { result ≡ tier_count self.now.regions region }
    {
        match self.regions.get(usize::from(region)) {
            Some(counts) => counts.tiers(),
            None => 0,
        }
    }
}

/// The place of a clone's flag.
fn clone_place(follower: NodeName, shard: u16) -> usize
    ensures { result ≡ clone_place follower shard }
{
    usize::from(shard) * 64 + follower_index(follower)
}

/// The place of a follower among those of all tiers.
fn follower_index(node: NodeName) -> usize
    ensures place { result ≡ follower_index node }
    ensures bound { result < 2097152 }
{
    match node {
        NodeName::Follower {
            region,
            tier,
            index,
        } => (usize::from(region) * 4 + usize::from(tier)) * 4 + usize::from(index),
        _ => 0,
    }
}

/// The shard itself where there are no nodes to share it.
pub(crate) fn remainder(shard: u16, count: u16) -> u16
    ensures { result ≡ shard % count }
{
    if count == 0 { shard } else { shard % count }
}
