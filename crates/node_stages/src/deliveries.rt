//! Messages that a node processes, and the refills that they queue.
ghost use Rattle.std.specs.Prelude.{◌≡◌, Some};
ghost use Rattle.core_model.specs.Messages.{TakesRefill};
ghost use Rattle.node_stages.specs.Caches.{DeliversAs};
ghost use Rattle.node_stages.specs.Stages.{CacheDoes, FollowerDoes};
ghost use Rattle.served_shards.specs.Served.{log_at};
ghost use Rattle.tao_schema.specs.Schema.{types_of};

use crate::cache::Cache;
use core_model::follower_cache::{Follower, Refill, followers_are_true};
use maint_msg::Maint;
use tao_schema::Schema;

/// A node processes a message, and a follower queues a refill for each list that it dropped. Answers how many items it dropped.
pub fn deliver_to<C: Cache>(cache: &mut C, schema: &Schema, message: Maint) -> u64
    requires { log_at message.shard (C.node cache.old).served ≡ Some message.note.log }
    ensures { CacheDoes C.node (DeliversAs C.node C.refills (types_of schema.now) message result) cache.old cache.new }
{
    cache.is_true();
    let dropped = cache.deliver(schema, message);
    cache.is_true();
    dropped
}

/// Takes the oldest refill of a follower out. None exactly where none waits. Takes no memory.
pub fn take_refill(follower: &mut Follower) -> Option<Refill>
    ensures { FollowerDoes (TakesRefill result) follower.old follower.new }
{
    followers_are_true(follower);
    let refill = follower.next_refill();
    followers_are_true(follower);
    refill
}
