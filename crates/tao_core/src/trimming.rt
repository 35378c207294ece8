//! Trims of the logs of stores.
ghost use Rattle.std.specs.Prelude.{◌≡◌};
ghost use Rattle.core_model.specs.Stores.{IsConfiguredStore};
ghost use Rattle.tao_core.specs.Core.{IsCoreOf, StaysUsable, moment};
ghost use Rattle.tao_core.specs.Trims.{AnswersTrim};
ghost use Rattle.tao_link.specs.Shown.{LinkShown};

use crate::serving::Core;
use core_trims::trim_over;
use replies::{NodeReply, Reply};
use store_replies::refused_as;
use tao_base::StoreName;
use tao_keeper::Keeper;

impl<'c> Core<'c> {
    /// Cuts the log of a region's store at the least of the position and of the lengths of all stores of its shard: the entries up to there are old, which
    /// audits and openings alone read. The leaders and followers of the region that lie behind begin anew, as by `down` and `up`.
    ///
    /// `keeper_fault` comes where that count rose, and `memory`; then nothing has changed. Costs a call of the keeper for each region, one for each shard that
    /// a node serves which lies behind, two more, and a third where the cut rises.
    pub(crate) fn trim<K: Keeper>(&mut self, keepers: &mut K, at: StoreName, position: u64) -> Reply
        requires keepers { IsCoreOf K.TELLS (K.state keepers.old).told self.old }
        requires here { IsConfiguredStore self.old.settings at }
        ensures does { (link : LinkShown) → AnswersTrim K.TELLS at position (moment self.old (K.state keepers.old) link) result
            (moment self.new (K.state keepers.new) link) }
        ensures usable { StaysUsable K.TELLS (K.state keepers.old) (K.state keepers.new) self.old self.new }
    {
        match trim_over(&mut self.nodes, self.config, keepers, at, position) {
            Ok(trimmed) => Reply::Node(NodeReply::Trimmed(trimmed)),
            Err(refusal) => Reply::Refused(refused_as(refusal, keepers.faults())),
        }
    }
}
