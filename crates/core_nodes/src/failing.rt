//! Nodes that go down: they lose all that they hold, and their marks stay.
ghost use Rattle.std.specs.Prelude.{◌≡◌, IfOk, OnErr, OnOk};
ghost use Rattle.core_model.specs.Consistent.{GoesOn, IsFleetOf};
ghost use Rattle.core_model.specs.Emptied.{EmptiesCache, at_marks};
ghost use Rattle.core_model.specs.Evictions.{IsCacheOf};
ghost use Rattle.core_model.specs.Fleet.{HasNode};
ghost use Rattle.core_model.specs.Pens.{pens_of};
ghost use Rattle.core_nodes.specs.Emptying.{CacheIs, ServesTruly};
ghost use Rattle.core_nodes.specs.Stages.{NodeIs};
ghost use Rattle.node_stages.specs.Standing.{StandsSo};
ghost use Rattle.served_shards.specs.Begun.{AreReached};

use crate::fleet::Fleet;
use crate::places::place_of;
use core_model::{Named, served_by};
use node_name::NodeName;
use node_stages::{Cache, Stand, stand_of};
use std::alloc::Global;
use tao_base::OutOfMemory;
use topology::Config;

/// Where the node, which has that name, stands with the shards that it serves.
fn stand_so<C: Cache>(
    alloc: Global,
    config: &Config,
    cache: &mut C,
    name: NodeName,
) -> Result<Stand, OutOfMemory>
    requires truth { ServesTruly config.now name (C.node cache.old) }
    ensures stands { IfOk result (StandsSo (C.node cache.old).served) }
    ensures reached { IfOk result (λ stand. AreReached stand.lows.items stand.notes.items) }
    ensures same { cache.new ≡ cache.old }
{
    let shards = served_by(alloc, config, name)?;
    stand_of(alloc, cache, &shards)
}

/// Where the node of that name stands with the shards that it serves.
fn stand_at<C: Cache>(
    alloc: Global,
    config: &Config,
    caches: &mut [Named<C>],
    name: NodeName,
) -> Result<Stand, OutOfMemory>
    requires there { HasNode name caches.old }
    requires truth { NodeIs name (λ cache. ServesTruly config.now name (C.node cache)) caches.old }
    ensures stands { IfOk result (λ stand. NodeIs name (λ cache. StandsSo (C.node cache).served stand) caches.old) }
    ensures reached { IfOk result (λ stand. AreReached stand.lows.items stand.notes.items) }
    ensures same { caches.new ≡ caches.old }
{
    let place = place_of(caches, name);
    stand_so(alloc, config, &mut caches[place].node, name)
}

impl Fleet {
    /// Where the leader or follower stands with the shards that it serves.
    fn stand(
        &mut self,
        alloc: Global,
        config: &Config,
        node: NodeName,
    ) -> Result<Stand, OutOfMemory>
        requires fleet { IsFleetOf config.now self.old }
        requires node { IsCacheOf config.now node }
        ensures stands { IfOk result (λ stand. CacheIs node (λ n. StandsSo n.served stand) self.old) }
        ensures reached { IfOk result (λ stand. AreReached stand.lows.items stand.notes.items) }
        ensures same { self.new ≡ self.old }
    {
        match node {
            NodeName::Leader { .. } => stand_at(alloc, config, &mut self.leaders, node),
            NodeName::Follower { .. } => stand_at(alloc, config, &mut self.followers, node),
            NodeName::Store(_) => unreachable!(),
        }
    }

    /// The leader or follower goes down: it loses all that it holds, and its low-water marks stay. Where it can't, nothing changes. Calls no
    /// keeper; the one error is out of memory.
    pub fn go_down(
        &mut self,
        alloc: Global,
        config: &Config,
        node: NodeName,
    ) -> Result<(), OutOfMemory>
        requires fleet { IsFleetOf config.now self.old }
        requires node { IsCacheOf config.now node }
        ensures begins { OnOk result (EmptiesCache node (pens_of self.old.stores) at_marks self.old self.new) }
        ensures same { OnErr result (self.new ≡ self.old) }
        ensures fleet { IsFleetOf config.now self.new }
        ensures goes { GoesOn self.old self.new }
    {
        let Stand { lows, notes } = self.stand(alloc, config, node)?;
        self.empty(config, node, &lows, notes);
        Ok(())
    }
}
