//! What is asked of stores.
ghost use Rattle.request_check.specs.Stores.{IsPlacedStore};
ghost use Rattle.tao_core.specs.Core.{IsCoreOf, StaysUsable, moment};
ghost use Rattle.tao_core.specs.StoreReplies.{AnswersStore};

use crate::audits::audit;
use crate::serving::Core;
use core_nodes::region_store;
use core_steps::AskedStream;
use replies::Reply;
use request_check::CheckedStore;
use std::alloc::Global;
use tao_keeper::Keeper;
use tao_link::Link;

impl<'c> Core<'c> {
    /// Does what is asked of stores.
    pub(crate) fn perform_store<K: Keeper, L: Link>(
        &mut self,
        alloc: Global,
        keepers: &mut K,
        link: &mut L,
        asked: CheckedStore,
    ) -> Reply
        requires keepers { IsCoreOf K.TELLS (K.state keepers.old).told self.old }
        requires can { IsPlacedStore self.old.settings asked }
        ensures does { AnswersStore K.TELLS asked (moment self.old (K.state keepers.old) (L.shown link.old)) result
            (moment self.new (K.state keepers.new) (L.shown link.new)) }
        ensures usable { StaysUsable K.TELLS (K.state keepers.old) (K.state keepers.new) self.old self.new }
    {
        match asked {
            CheckedStore::Stream {
                region,
                shard,
                position,
            } => {
                let at = region_store(region, shard);
                self.stream(keepers, link, AskedStream { at, position })
            }
            CheckedStore::Trim {
                region,
                shard,
                position,
            } => self.trim(keepers, region_store(region, shard), position),
            CheckedStore::Repair { shard } => self.repair(keepers, link, shard),
            CheckedStore::Settle => self.settle(keepers, link),
            CheckedStore::Audit(call) => audit(alloc, self.config, keepers, &call),
        }
    }
}
