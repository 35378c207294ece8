//! Repairs and settles.
ghost use Rattle.std.specs.Prelude.{◌≡◌, ◌<◌, IfErr, IfOk};
ghost use Rattle.core_mail.specs.Inboxes.{AreEmpty};
ghost use Rattle.core_model.specs.Consistent.{IsConsistent};
ghost use Rattle.core_model.specs.Cuts.{ArePastCuts};
ghost use Rattle.core_nodes.specs.Beginning.{AreLengths};
ghost use Rattle.core_nodes.specs.Settling.{StopsLengths, log_lengths};
ghost use Rattle.graph_model.specs.Told.{WhereTold};
ghost use Rattle.tao_core.specs.Core.{IsConsistentCore, IsCoreOf, LeavesCore, StaysUsable, moment};
ghost use Rattle.tao_core.specs.Settling.{AnswersRepair, AnswersSettle, IsUnsettled, SettlesCore, repaired_as, repaired_of};
ghost use Rattle.tao_keeper.specs.KeeperState.{IsLater, KeepsTables};

use crate::serving::Core;
use core_nodes::{Ends, Fleet, SettleStop, shard_lengths};
use core_repairs::{Ran, repair_first, run_jobs, run_streams, unsettled_as};
use replies::{Lengths, NodeReply, Refusal, Repaired, Reply};
use shard_tables::inverses_match;
use std::alloc::Global;
use tao_base::OutOfMemory;
use tao_keeper::Keeper;
use tao_link::Link;
use topology::Config;

/// What a repair came to: the job that was run, if one was open.
fn repaired_of(found: &Option<Ran>) -> Repaired
    ensures { result ≡ repaired_of found.now }
{
    match found {
        None => Repaired {
            hops: 0,
            job: 0,
            wrote: false,
        },
        Some(ran) => Repaired {
            hops: 2,
            job: ran.job.position,
            wrote: ran.wrote.is_some(),
        },
    }
}

/// How it is replied what came of a shard's first job.
fn repaired_as(outcome: Result<Option<Ran>, Refusal>) -> Reply
    ensures { result ≡ repaired_as outcome }
{
    match outcome {
        Ok(found) => {
            let repaired = repaired_of(&found);
            drop(found);
            Reply::Node(NodeReply::Repaired(repaired))
        }
        Err(refusal) => Reply::Refused(refusal),
    }
}

/// The lengths of the stores' logs, region by region and in each shard by shard, and of these the lengths of the shards' own logs.
#[derive(Drop)]
struct Measured {
    stores: Vec<u64>,
    shards: Vec<u64>,
}

/// The lengths of the logs. One call of the keeper for each store.
fn measure<K: Keeper>(
    alloc: Global,
    fleet: &mut Fleet,
    config: &Config,
    keepers: &mut K,
) -> Result<Measured, SettleStop>
    requires consistent { IsConsistent K.TELLS config.now (K.state keepers.old).told fleet.old }
    ensures stores { IfOk result (λ m. AreLengths K.TELLS config.now (K.state keepers.new).told m.stores.items) }
    ensures shards { WhereTold K.TELLS (IfOk result (λ m. m.shards.items ≡ log_lengths config.now (K.state keepers.new).told)) }
    ensures stop { IfErr result (StopsLengths config.now (K.state keepers.old) (K.state keepers.new)) }
    ensures same { fleet.new ≡ fleet.old }
    ensures consistent { IsConsistent K.TELLS config.now (K.state keepers.new).told fleet.new }
    ensures tables { KeepsTables K.TELLS (K.state keepers.old) (K.state keepers.new) }
    ensures later { IsLater (K.state keepers.old) (K.state keepers.new) }
{
    let stores = fleet.lengths(alloc, config, keepers)?;
    match shard_lengths(alloc, config, stores.as_slice()) {
        Ok(shards) => Ok(Measured { stores, shards }),
        Err(OutOfMemory) => Err(SettleStop::OutOfMemory),
    }
}

impl<'c> Core<'c> {
    /// Runs the first open job of a shard, where one is open: it is merged from store to store at the shard on which its records lie, and then ended.
    pub(crate) fn repair<K: Keeper, L: Link>(
        &mut self,
        keepers: &mut K,
        link: &mut L,
        shard: u16,
    ) -> Reply
        requires keepers { IsConsistentCore K.TELLS (K.state keepers.old).told self.old }
        requires here { shard < self.old.settings.shards }
        ensures does { AnswersRepair K.TELLS shard (moment self.old (K.state keepers.old) (L.shown link.old)) result
            (moment self.new (K.state keepers.new) (L.shown link.new)) }
        ensures leaves { LeavesCore K.TELLS (K.state keepers.old) (K.state keepers.new) self.old self.new }
    {
        let outcome = repair_first(&mut self.nodes, self.config, keepers, link, shard);
        repaired_as(outcome)
    }

    /// Runs all open jobs, shard by shard, each shard's in order of position; moves every stream to its end, region by region, and in each region shard by
    /// shard; lets each leader and follower that is up process the rest of its region's logs that it serves, where it drops what is behind its region's
    /// stores and nothing else; and empties all inboxes. Then no job is open, every edge has its inverse, every store has all of its shard's log, and until
    /// the next commit every read that begins answers as that log.
    ///
    /// It carries a job there and back, each entry that a slave's store lacks once from the master's store, and then once to each node for each shard at
    /// which that lies behind its region's store, in the order of the nodes: region by region, leaders before followers.
    ///
    /// The first fault, and the first full log, ends it as `unsettled`, and out of memory as `memory`: what was done stays, and whoever comes after is as it
    /// was. The shard is the job's, the stream's or the node's; where a store doesn't tell the length of its log, any. `no_server` comes where what is owed
    /// lies on a shard that isn't configured.
    ///
    /// Costs what the jobs and the streams do, two calls of the keeper for each store, and one for each entry that a node has yet to process.
    pub fn settle<K: Keeper, L: Link>(&mut self, keepers: &mut K, link: &mut L) -> Reply
        requires keepers { IsCoreOf K.TELLS (K.state keepers.old).told self.old }
        ensures does { AnswersSettle K.TELLS (moment self.old (K.state keepers.old) (L.shown link.old)) result
            (moment self.new (K.state keepers.new) (L.shown link.new)) }
        ensures usable { StaysUsable K.TELLS (K.state keepers.old) (K.state keepers.new) self.old self.new }
    {
        match self.settle_all(keepers, link) {
            Ok(logs) => Reply::Settled {
                logs: Lengths::of(logs),
            },
            Err(stop) => unsettled_as(&self.nodes.topology, stop),
        }
    }

    /// Settles, and gives the lengths of the shards' logs.
    fn settle_all<K: Keeper, L: Link>(
        &mut self,
        keepers: &mut K,
        link: &mut L,
    ) -> Result<Vec<u64>, SettleStop>
        requires keepers { IsConsistentCore K.TELLS (K.state keepers.old).told self.old }
        requires past { WhereTold K.TELLS (ArePastCuts (K.state keepers.old).told self.old.fleet) }
        ensures settles { IfOk result (λ logs. SettlesCore K.TELLS logs.items (moment self.old (K.state keepers.old) (L.shown link.old))
            (moment self.new (K.state keepers.new) (L.shown link.new))) }
        ensures empty { IfOk result (λ logs. AreEmpty self.new.mail) }
        ensures stops { IfErr result (λ stop. IsUnsettled K.TELLS stop (moment self.old (K.state keepers.old) (L.shown link.old))
            (moment self.new (K.state keepers.new) (L.shown link.new))) }
        ensures leaves { LeavesCore K.TELLS (K.state keepers.old) (K.state keepers.new) self.old self.new }
        ensures rest { self.new ≡ record self.old { fleet = self.new.fleet; mail = self.new.mail } }
    {
        let config = self.config;
        inverses_match(&config.schema);
        run_jobs(&mut self.nodes, config, keepers, link)?;
        run_streams(&mut self.nodes, config, keepers, link)?;
        let measured = measure(self.nodes.alloc, &mut self.nodes.fleet, config, keepers)?;
        let lengths = measured.stores.as_slice();
        let ends = Ends {
            alloc: self.nodes.alloc,
            config,
            topology: &self.nodes.topology,
            lengths,
        };
        self.nodes.fleet.catch_up(&ends, keepers, link)?;
        self.nodes.mail.clear();
        Ok(measured.shards)
    }
}
