//! What a cache node holds and has processed.
ghost use Rattle.std.specs.Prelude.{option_copied};
ghost use Rattle.core_nodes.specs.Shown.{IsHeldAt, IsMarkAt, IsReadOf, item_of, mark_of};

use crate::fleet::Fleet;
use core_model::{Named, find_node};
use follower_cache::Item;
use node_name::NodeName;
use node_stages::Cache;
use tao_base::Key;

/// The item that the node of that name holds at the key.
fn held_at<C: Cache>(caches: &[Named<C>], name: NodeName, key: Key) -> Option<&Item>
    ensures { IsReadOf C.node (item_of key) name caches.now (option_copied result) }
{
    find_node(caches, name)?.item(key)
}

/// The low-water mark of the node of that name for a shard.
fn marked_at<C: Cache>(caches: &[Named<C>], name: NodeName, shard: u16) -> Option<u64>
    ensures { IsReadOf C.node (mark_of shard) name caches.now result }
{
    Some(find_node(caches, name)?.mark(shard))
}

impl Fleet {
    /// The item that a leader or follower holds at the key. None exactly where the name is none of theirs, or the node holds no such
    /// item. The order of its items stays.
    pub fn item(&self, node: NodeName, key: Key) -> Option<&Item>
        ensures { IsHeldAt self.now node key (option_copied result) }
    {
        match node {
            NodeName::Leader { .. } => held_at(&self.leaders, node, key),
            NodeName::Follower { .. } => held_at(&self.followers, node, key),
            NodeName::Store(_) => None,
        }
    }

    /// The low-water mark of a leader or follower for a shard: every position up to it was processed; 0 where the node doesn't serve
    /// the shard. None exactly where the name is none of theirs.
    pub fn mark(&self, node: NodeName, shard: u16) -> Option<u64>
        ensures { IsMarkAt self.now node shard result }
    {
        match node {
            NodeName::Leader { .. } => marked_at(&self.leaders, node, shard),
            NodeName::Follower { .. } => marked_at(&self.followers, node, shard),
            NodeName::Store(_) => None,
        }
    }
}
