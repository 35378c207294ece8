//! `Cluster`, the nodes behind locks as their callers see them.
ghost use Rattle.std.specs.Prelude.{◌≡◌, ◌≤◌, ◌<◌, [], IfErr, IfNone, IfOk, IfSome, length};
ghost use Rattle.cluster_closing.specs.cluster_opening.Opening.{IsOpenedOver, logs_of, making_of};
ghost use Rattle.core_model.specs.Stores.{store_count};
ghost use Rattle.keepers.specs.Shown.{told_in};
ghost use Rattle.cluster_closing.specs.locked_nodes.Nodes.{HasTier};
ghost use Rattle.cluster_closing.specs.locked_nodes.Passes.{IsPassOf};
ghost use Rattle.replies.specs.declared.opening.OpenRefusal.TheVariants.{OutOfMemory as NoMemory};

use cluster_closing::cluster_opening::{OpenFail, Opened};
use cluster_closing::locked_nodes::LockedNodes;
use session_pass::Pass;
use shared_stores::Sharing;
use std::marker::Model;
use std::sync::Wait;
use tao_base::OutOfMemory;
use tao_keeper::Keeper;
use topology::Config;

/// The nodes of a configuration, which many threads call: reads and writes of sessions go by `call`. One that nobody calls any more is closed (`close`).
///
/// `J` names the cluster's logs and what it was made with, and is the same at all that is shared with it.
#[derive(Drop)]
pub struct Cluster<'c, K: Keeper, J: Sharing> {
    pub(crate) nodes: LockedNodes<'c, K, J>,
}

impl<'c, K: Keeper, J: Sharing> Model for Cluster<'c, K, J> {
    ghost use Rattle.cluster_closing.specs.locked_nodes.Nodes.{SeenNodes};

    ghost Value = { SeenNodes };

    ghost view = { λ c. c.nodes };
}

impl<'c, K: Keeper + Drop, J: Sharing> Cluster<'c, K, J> {
    /// Puts what was opened behind locks, with an inbox in which no message waits for each leader and follower.
    ///
    /// The one error is out of memory, and then the keepers come back as they were.
    pub fn make(opened: Opened<'c, K>) -> Result<Cluster<'c, K, J>, OpenFail<K>>
        requires many { length opened.keepers.items ≡ store_count opened.config.now }
        requires opened { IsOpenedOver K.TELLS opened.config.now (told_in K.state opened.config.now.shards opened.keepers.items) opened.fleet
            opened.cuts.items }
        requires log { J.log ≡ logs_of opened.fleet.stores }
        requires making { J.making ≡ making_of opened.config.now opened.fleet.stores opened.cuts.items }
        ensures config { IfOk result (λ cluster. cluster.settings ≡ opened.entry.config.now) }
        ensures why { IfErr result (λ fail. fail.why ≡ NoMemory) }
        ensures back { IfErr result (λ fail. fail.keepers.items ≡ opened.entry.keepers.items) }
    {
        match opened.named::<J>() {
            Ok(nodes) => Ok(Cluster { nodes }),
            Err(fail) => Err(fail),
        }
    }
}

impl<'c, K: Keeper, J: Sharing> Cluster<'c, K, J> {
    /// The configuration that it was made with. Takes no memory.
    pub fn config(&self) -> &Config
        ensures { result.now ≡ J.making.settings }
    {
        self.nodes.config()
    }

    /// How many entries of a shard's log were old when the cluster was made, which no call changes. None exactly where the shard isn't configured. Takes no
    /// memory.
    pub fn cut_of(&self, shard: u16) -> Option<u64>
        ensures some { IfSome result (λ cut. (shard < J.making.settings.shards) × (cut ≡ J.making.cut shard)) }
        ensures none { IfNone result (J.making.settings.shards ≤ shard) }
    {
        self.nodes.cut_of(shard)
    }

    /// The pass of a session of a configured tier, by its place in its region, which was told of nothing yet. It has a note of each shard's log, taken under the lock of
    /// the shard's master's store. The one error is out of memory.
    pub fn pass<R: Wait>(
        &self,
        rt: &R,
        session: u32,
        region: u16,
        tier: u16,
    ) -> Result<Pass, OutOfMemory>
        requires home { region < length J.making.settings.regions }
        requires tier { HasTier J.making.settings region tier }
        ensures pass { IfOk result (IsPassOf J.making J.log) }
        ensures session { IfOk result (λ pass. pass.session ≡ session) }
        ensures region { IfOk result (λ pass. pass.region ≡ region) }
        ensures tier { IfOk result (λ pass. pass.tier ≡ tier) }
        ensures floors { IfOk result (λ pass. pass.floors ≡ []) }
    {
        self.nodes.pass(rt, session, region, tier)
    }
}
