//! Items that are dropped from cache nodes.
ghost use Rattle.core_model.specs.Consistent.{GoesOn, IsFleetOf};
ghost use Rattle.core_model.specs.Evictions.{ChangesCache, Evicts, IsCacheOf};
ghost use Rattle.core_model.specs.Fleet.{ChangesNode, HasNode};
ghost use Rattle.node_stages.specs.Caches.{EvictsAs};
ghost use Rattle.node_stages.specs.Stages.{CacheDoes};

use crate::fleet::Fleet;
use crate::places::place_of;
use core_model::Named;
use node_name::NodeName;
use node_stages::{Cache, evict_from};
use tao_base::Key;
use topology::Config;

/// The node of that name drops the item at the key, or without a key the one that was used least recently.
fn evict_at<C: Cache>(caches: &mut [Named<C>], name: NodeName, key: Option<Key>) -> bool
    requires { HasNode name caches.old }
    ensures { ChangesNode name (CacheDoes C.node (EvictsAs C.node C.refills key result)) caches.old caches.new }
{
    let place = place_of(caches, name);
    evict_from(&mut caches[place].node, key)
}

impl Fleet {
    /// Drops the item at the key of a leader or follower, or without a key the one that was used least recently there. Answers
    /// whether there was one. Takes no memory.
    pub fn evict(&mut self, config: &Config, node: NodeName, key: Option<Key>) -> bool
        requires fleet { IsFleetOf config.now self.old }
        requires node { IsCacheOf config.now node }
        ensures evicts { ChangesCache node (Evicts key result) self.old self.new }
        ensures fleet { IsFleetOf config.now self.new }
        ensures goes { GoesOn self.old self.new }
    {
        match node {
            NodeName::Leader { .. } => evict_at(&mut self.leaders, node, key),
            NodeName::Follower { .. } => evict_at(&mut self.followers, node, key),
            NodeName::Store(_) => unreachable!(),
        }
    }
}
