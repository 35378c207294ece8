//! Streams into the stores of slave regions.
ghost use Rattle.std.specs.Prelude.{◌≡◌};
ghost use Rattle.core_model.specs.Stores.{IsConfiguredStore};
ghost use Rattle.tao_core.specs.Core.{IsConsistentCore, LeavesCore, moment};
ghost use Rattle.tao_core.specs.Streams.{AnswersStream, streamed_as};

use crate::refusals::is_master;
use crate::serving::Core;
use core_model::master_of;
use core_steps::AskedStream;
use replies::{NodeReply, Refusal, Reply, Streamed};
use tao_keeper::Keeper;
use tao_link::Link;

/// How it is replied what came of a step of a stream.
fn streamed_as(outcome: Result<Streamed, Refusal>) -> Reply
    ensures { result ≡ streamed_as outcome }
{
    match outcome {
        Ok(streamed) => Reply::Node(NodeReply::Streamed(streamed)),
        Err(refusal) => Reply::Refused(refusal),
    }
}

impl<'c> Core<'c> {
    /// Makes a step of the stream into a region's store of a shard: an entry of the shard's log is carried there from the master's store, and where it comes
    /// next, the store takes it, and with it the leader that the region prefers, where that is up; its followers are sent a message.
    ///
    /// `is_master` comes exactly where the region is the shard's master's; else `no_entry` where the log has no entry at the position that is asked for,
    /// `keeper_fault` and `link_fault` where that count rose, and `memory`. After each of these no node, message or log has changed.
    ///
    /// Costs at most four calls of the keeper and one carry.
    pub(crate) fn stream<K: Keeper, L: Link>(
        &mut self,
        keepers: &mut K,
        link: &mut L,
        asked: AskedStream,
    ) -> Reply
        requires keepers { IsConsistentCore K.TELLS (K.state keepers.old).told self.old }
        requires here { IsConfiguredStore self.old.settings asked.at }
        ensures does { AnswersStream K.TELLS asked (moment self.old (K.state keepers.old) (L.shown link.old)) result
            (moment self.new (K.state keepers.new) (L.shown link.new)) }
        ensures leaves { LeavesCore K.TELLS (K.state keepers.old) (K.state keepers.new) self.old self.new }
        ensures rest { self.new ≡ record self.old { fleet = self.new.fleet; mail = self.new.mail } }
    {
        if asked.at.region == master_of(self.config, asked.at.shard) {
            return is_master(asked.at);
        }
        let outcome = self.nodes.stream_over(self.config, keepers, link, asked);
        streamed_as(outcome)
    }
}
