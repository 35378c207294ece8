//! What is asked of cache nodes.
ghost use Rattle.request_check.specs.Caches.{IsPlacedCache};
ghost use Rattle.tao_core.specs.CacheReplies.{AnswersCache};
ghost use Rattle.tao_core.specs.Core.{IsCoreOf, StaysUsable, moment};

use crate::serving::Core;
use replies::Reply;
use request_check::CheckedCache;
use std::alloc::Global;
use tao_keeper::Keeper;
use tao_link::Link;

impl<'c> Core<'c> {
    /// Does what is asked of a cache node.
    pub(crate) fn perform_cache<K: Keeper, L: Link>(
        &mut self,
        alloc: Global,
        keepers: &mut K,
        link: &mut L,
        asked: CheckedCache,
    ) -> Reply
        requires keepers { IsCoreOf K.TELLS (K.state keepers.old).told self.old }
        requires can { IsPlacedCache self.old.settings asked }
        ensures does { AnswersCache K.TELLS asked (moment self.old (K.state keepers.old) (L.shown link.old)) result
            (moment self.new (K.state keepers.new) (L.shown link.new)) }
        ensures usable { StaysUsable K.TELLS (K.state keepers.old) (K.state keepers.new) self.old self.new }
    {
        match asked {
            CheckedCache::Deliver { node, message } => self.deliver(node, message),
            CheckedCache::Again { node, message } => self.deliver_again(node, message),
            CheckedCache::Drop { node, message } => self.lose(node, message),
            CheckedCache::Refill { node } => self.refill(keepers, link, node),
            CheckedCache::Evict { node, key } => self.evict(node, key),
            CheckedCache::Show { node, key } => self.show(alloc, node, key),
            CheckedCache::Inbox { node } => self.show_inbox(alloc, node),
        }
    }
}
