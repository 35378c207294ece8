//! Messages that a cache node processes, and the refills that they queue.
ghost use Rattle.std.specs.Prelude.{◌≡◌, IfSome, Some};
ghost use Rattle.core_model.specs.Consistent.{GoesOn, IsFleetOf};
ghost use Rattle.core_model.specs.Evictions.{IsCacheOf};
ghost use Rattle.core_model.specs.Fleet.{ChangesNode, HasNode};
ghost use Rattle.core_model.specs.Messages.{DeliversAt, IsMessageFor, IsRefillFor, TakesRefill};
ghost use Rattle.core_model.specs.Pens.{pens_of};
ghost use Rattle.core_nodes.specs.Shown.{IsMarkAt, IsReadOf, mark_of};
ghost use Rattle.core_nodes.specs.Stages.{NodeIs};
ghost use Rattle.node_stages.specs.Caches.{DeliversAs};
ghost use Rattle.node_stages.specs.Stages.{CacheDoes, FollowerDoes};
ghost use Rattle.served_shards.specs.Served.{log_at, low_at};
ghost use Rattle.tao_schema.specs.Schema.{types_of};

use crate::fleet::Fleet;
use crate::places::place_of;
use core_model::{Named, named_place};
use follower_cache::{Follower, Refill};
use maint_msg::Maint;
use node_name::NodeName;
use node_stages::{Cache, deliver_to, take_refill};
use tao_schema::Schema;
use topology::Config;

/// What a message did at its node: how many items it dropped there, and the node's low-water mark for the message's shard after it.
#[derive(Clone, Copy)]
pub struct Delivery {
    pub dropped: u64,
    pub mark: u64,
}

/// A node processes a message, and its mark is read.
fn deliver_marked<C: Cache>(cache: &mut C, schema: &Schema, message: Maint) -> Delivery
    requires { log_at message.shard (C.node cache.old).served ≡ Some message.note.log }
    ensures does { CacheDoes C.node (DeliversAs C.node C.refills (types_of schema.now) message result.dropped) cache.old cache.new }
    ensures mark { result.mark ≡ low_at message.shard (C.node cache.new).served }
{
    let shard = message.shard();
    let dropped = deliver_to(cache, schema, message);
    let mark = cache.mark(shard);
    Delivery { dropped, mark }
}

/// The node of that name processes a message.
fn deliver_at<C: Cache>(
    caches: &mut [Named<C>],
    schema: &Schema,
    name: NodeName,
    message: Maint,
) -> Delivery
    requires there { HasNode name caches.old }
    requires log { NodeIs name (λ cache. log_at message.shard (C.node cache).served ≡ Some message.note.log) caches.old }
    ensures does { ChangesNode name (CacheDoes C.node (DeliversAs C.node C.refills (types_of schema.now) message result.dropped)) caches.old caches.new }
    ensures mark { IsReadOf C.node (mark_of message.shard) name caches.new (Some result.mark) }
{
    let place = place_of(caches, name);
    deliver_marked(&mut caches[place].node, schema, message)
}

/// Takes the oldest refill of the follower of that name out.
fn refill_at(followers: &mut [Named<Follower>], name: NodeName) -> Option<Refill>
    requires { HasNode name followers.old }
    ensures { ChangesNode name (FollowerDoes (TakesRefill result)) followers.old followers.new }
{
    let place = named_place(followers, name);
    take_refill(&mut followers[place].node)
}

impl Fleet {
    /// A leader or follower processes a message for it: it drops each named item that is below its version, raises the floors of
    /// its asks on the named keys, and marks the position. A follower queues a refill for each list that it dropped, while fewer
    /// than 256 wait and there is memory. Answers how many items it dropped, and its mark since; takes no other memory.
    pub fn deliver(&mut self, config: &Config, node: NodeName, message: Maint) -> Delivery
        requires fleet { IsFleetOf config.now self.old }
        requires node { IsCacheOf config.now node }
        requires message { IsMessageFor config.now (pens_of self.old.stores) node message }
        ensures delivers { DeliversAt (types_of config.now.schema) message result.dropped node self.old self.new }
        ensures mark { IsMarkAt self.new node message.shard (Some result.mark) }
        ensures fleet { IsFleetOf config.now self.new }
        ensures goes { GoesOn self.old self.new }
    {
        match node {
            NodeName::Leader { .. } => {
                deliver_at(&mut self.leaders, &config.schema, node, message)
            }
            NodeName::Follower { .. } => {
                deliver_at(&mut self.followers, &config.schema, node, message)
            }
            NodeName::Store(_) => unreachable!(),
        }
    }

    /// Takes the oldest refill of a follower out, which can be asked for: the follower serves its shard. None exactly where none
    /// waits. Takes no memory.
    pub fn next_refill(&mut self, config: &Config, follower: NodeName) -> Option<Refill>
        requires fleet { IsFleetOf config.now self.old }
        requires follower { HasNode follower self.old.followers }
        ensures takes { ChangesNode follower (TakesRefill result) self.old.followers self.new.followers }
        ensures rest { self.new ≡ record self.old { followers = self.new.followers } }
        ensures refill { IfSome result (IsRefillFor config.now (pens_of self.old.stores) follower) }
        ensures fleet { IsFleetOf config.now self.new }
        ensures goes { GoesOn self.old self.new }
    {
        refill_at(&mut self.followers, follower)
    }
}
