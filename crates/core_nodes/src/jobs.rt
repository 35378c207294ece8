//! The stages of a job: it is merged where it is owed, and then ended.
ghost use Rattle.std.specs.Bool.{OnTrue};
ghost use Rattle.std.specs.Prelude.{◌≡◌, ◌<◌, IfErr, IfOk, IfSome, OnErr, OnOk, Some};
ghost use Rattle.core_model.specs.Asked.{lent_job, settings};
ghost use Rattle.core_model.specs.Consistent.{GoesOn, IsConsistent};
ghost use Rattle.core_model.specs.Fleet.{ChangesNode, HasNode, serves};
ghost use Rattle.core_model.specs.Growing.{StoresGrow};
ghost use Rattle.core_model.specs.Jobs.{EndsOwed, IsFirstJobOf, IsMergedJob, IsOwedJob, MergesOwed, far_shard, job_on};
ghost use Rattle.core_model.specs.Pens.{IsSeen, Rise, pens_of, store_in};
ghost use Rattle.core_model.specs.Serving.{IsLeaderIn};
ghost use Rattle.core_model.specs.Stores.{AreStoresOf, master_of, master_store};
ghost use Rattle.core_nodes.specs.MasterWrites.{job_of_master};
ghost use Rattle.core_nodes.specs.Repairs.{MergesFar};
ghost use Rattle.core_nodes.specs.Outside.{outside};
ghost use Rattle.core_nodes.specs.Stages.{NodeIs, taken_by};
ghost use Rattle.edge_repair.specs.declared.refusal.RepairRefusal.TheVariants as repair;
ghost use Rattle.graph_model.specs.Told.{WhereTold};
ghost use Rattle.core_model.specs.leader_tier.TakenWrites.{TakesWritten, taken_entry};
ghost use Rattle.node_stages.specs.Stages.{LeaderDoes};
ghost use Rattle.served_shards.specs.Served.{log_at};
ghost use Rattle.shard_log.specs.View.{as_note};
ghost use Rattle.shard_tables.specs.Refusals.{IsOfReads};
ghost use Rattle.shard_tables.specs.StoreView.{Store as StoreSeen};
ghost use Rattle.shard_tables.specs.WriteDone.{MergeDone};
ghost use Rattle.shard_tables.specs.Written.{LiesOn, StandsIn};
ghost use Rattle.tao_keeper.specs.Given.{IsGivenJob};
ghost use Rattle.tao_keeper.specs.Growing.{LogsGrow};
ghost use Rattle.tao_keeper.specs.KeeperState.{CallsKeeper, KeepsTables};
ghost use Rattle.tao_keeper.specs.Table.{Changes, IsLeastJob, after_end};
ghost use Rattle.tao_schema.specs.Schema.{types_of};

use crate::fleet::Fleet;
use crate::stores::{master_store, region_store};
use core_model::leader_tier::Leader;
use core_model::{
    Around, Named, ShardJob, far_shard, master_of, masters_are_regions, named_place,
    serves_in_turn, store_place,
};
use edge_repair::{RepairOutcome, RepairRefusal, merge_far};
use node_name::NodeName;
use node_stages::merge_of;
use shard_tables::{StoreNode, StoreRefusal, Wrote, inverses_match};
use std::alloc::Global;
use tao_keeper::{Job, Keeper};
use tao_link::Link;
use tao_schema::Schema;
use topology::Config;

/// Merges the job at the leader of that name and the store of the shard where it is owed.
fn merge_at<K: Keeper>(
    around: &Around<'_>,
    leaders: &mut [Named<Leader>],
    stores: &mut [StoreNode],
    keepers: &mut K,
    name: NodeName,
    job: &ShardJob<'_>,
) -> Result<Wrote, StoreRefusal>
    requires there { HasNode name leaders.old }
    requires shard { far_shard job.now.job.now < (settings around.now).shards }
    requires logs { OnTrue (serves (settings around.now) name (far_shard job.now.job.now)) (NodeIs name (λ node. (store : StoreSeen)
        → store_in stores.old (master_store (settings around.now) (far_shard job.now.job.now)) ≡ Some store
        → log_at (far_shard job.now.job.now) node.served ≡ Some store.view.log) leaders.old) }
    requires stores { AreStoresOf K.TELLS (settings around.now) (K.state keepers.old).told stores.old }
    requires given { IsGivenJob job.now.job.now }
    requires owed { WhereTold K.TELLS (IsOwedJob (settings around.now) (K.state keepers.old).told (lent_job job.now)) }
    ensures node { ChangesNode name (LeaderDoes (TakesWritten (types_of (settings around.now).schema) (far_shard job.now.job.now)
        (taken_entry (serves (settings around.now) name (far_shard job.now.job.now)) result)
        (as_note (pens_of stores.new (far_shard job.now.job.now))))) leaders.old leaders.new }
    ensures rest { OnErr result (stores.new ≡ stores.old) }
    ensures stores { AreStoresOf K.TELLS (settings around.now) (K.state keepers.new).told stores.new }
    ensures rise { Rise (pens_of stores.old) (pens_of stores.new) }
    ensures note { IfOk result (λ wrote. wrote.note ≡ as_note (pens_of stores.new (far_shard job.now.job.now))) }
    ensures done { MergeDone K.TELLS (master_store (settings around.now) (far_shard job.now.job.now))
        (job_of_master (settings around.now) (K.state keepers.old).told (lent_job job.now)) (K.state keepers.old) (K.state keepers.new) result }
    ensures step { WhereTold K.TELLS (OnOk result
        (MergesOwed (settings around.now) (K.state keepers.old).told (K.state keepers.new).told (lent_job job.now))) }
    ensures merged { WhereTold K.TELLS (OnOk result (IsMergedJob (settings around.now) (K.state keepers.new).told (lent_job job.now))) }
{
    let config = around.config;
    masters_are_regions(config);
    inverses_match(&config.schema);
    let spot = named_place(leaders, name);
    let shard = far_shard(job.job);
    let preferred = serves_in_turn(config, name, shard);
    let at = region_store(master_of(config, shard), shard);
    let place = store_place(config, at);
    let leader = &mut leaders[spot].node;
    let store = &mut stores[place];
    merge_of(around, leader, preferred, store, keepers, job)
}

/// Ends the job at its own shard's store.
fn end_at<K: Keeper>(
    stores: &mut [StoreNode],
    keepers: &mut K,
    config: &Config,
    shard: u16,
    job: &Job,
) -> Result<(), StoreRefusal>
    requires stores { AreStoresOf K.TELLS config.now (K.state keepers.old).told stores.old }
    requires here { shard < config.now.shards }
    requires merged { WhereTold K.TELLS (IsMergedJob config.now (K.state keepers.old).told (job_on shard job.now)) }
    ensures same { stores.new ≡ stores.old }
    ensures stores { AreStoresOf K.TELLS config.now (K.state keepers.new).told stores.new }
    ensures ends { WhereTold K.TELLS (Changes result (K.state keepers.old).told (K.state keepers.new).told (master_store config.now shard)
        (after_end ((K.state keepers.old).told (master_store config.now shard)) job.now.position)) }
    ensures step { WhereTold K.TELLS (OnOk result (EndsOwed config.now (K.state keepers.old).told (K.state keepers.new).told (job_on shard job.now))) }
    ensures refusals { IfErr result IsOfReads }
    ensures logs { LogsGrow K.TELLS (K.state keepers.old).told (K.state keepers.new).told }
    ensures calls { CallsKeeper StoreRefusal.KeeperFault (K.state keepers.old) (K.state keepers.new) result }
{
    masters_are_regions(config);
    let at = region_store(master_of(config, shard), shard);
    let place = store_place(config, at);
    let store = &mut stores[place];
    store.end_job(keepers, job.position)
}

/// Finds the first open job at the shard's store.
fn first_at<K: Keeper>(
    stores: &mut [StoreNode],
    keepers: &mut K,
    config: &Config,
    shard: u16,
) -> Result<Option<Job>, StoreRefusal>
    requires stores { AreStoresOf K.TELLS config.now (K.state keepers.old).told stores.old }
    requires here { shard < config.now.shards }
    ensures answer { WhereTold K.TELLS (IfOk result (IsLeastJob ((K.state keepers.old).told (master_store config.now shard)).jobs)) }
    ensures first { WhereTold K.TELLS (IfOk result (λ found. IfSome found (λ job.
        IsFirstJobOf config.now (K.state keepers.new).told (job_on shard job)))) }
    ensures given { IfOk result (λ found. IfSome found IsGivenJob) }
    ensures same { stores.new ≡ stores.old }
    ensures stores { AreStoresOf K.TELLS config.now (K.state keepers.new).told stores.new }
    ensures refusals { IfErr result IsOfReads }
    ensures tables { KeepsTables K.TELLS (K.state keepers.old) (K.state keepers.new) }
    ensures logs { LogsGrow K.TELLS (K.state keepers.old).told (K.state keepers.new).told }
    ensures calls { CallsKeeper StoreRefusal.KeeperFault (K.state keepers.old) (K.state keepers.new) result }
{
    masters_are_regions(config);
    let at = region_store(master_of(config, shard), shard);
    let place = store_place(config, at);
    let store = &mut stores[place];
    store.first_job(keepers)
}

/// Merges the job from its own shard's store at the store of the shard where it is owed.
fn merge_over<K: Keeper, L: Link>(
    alloc: Global,
    stores: &mut [StoreNode],
    keepers: &mut K,
    link: &mut L,
    config: &Config,
    job: &ShardJob<'_>,
) -> Result<RepairOutcome, RepairRefusal>
    requires stores { AreStoresOf K.TELLS config.now (K.state keepers.old).told stores.old }
    requires here { job.now.shard < config.now.shards }
    requires there { far_shard job.now.job.now < config.now.shards }
    requires given { IsGivenJob job.now.job.now }
    requires owed { WhereTold K.TELLS (IsOwedJob config.now (K.state keepers.old).told (lent_job job.now)) }
    ensures merges { MergesFar K.TELLS config.now (lent_job job.now) result
        (outside (K.state keepers.old) (L.shown link.old)) (outside (K.state keepers.new) (L.shown link.new)) }
    ensures stands { IfOk result (λ repaired. IfSome repaired.wrote (StandsIn (pens_of stores.new (far_shard job.now.job.now)))) }
    ensures lies { IfOk result (λ repaired. IfSome repaired.wrote (LiesOn (pens_of stores.new (far_shard job.now.job.now)) (far_shard job.now.job.now))) }
    ensures stores { AreStoresOf K.TELLS config.now (K.state keepers.new).told stores.new }
    ensures rise { Rise (pens_of stores.old) (pens_of stores.new) }
    ensures grows { StoresGrow K.TELLS config.now (K.state keepers.old).told (K.state keepers.new).told }
    ensures calls { CallsKeeper repair.KeeperFault (K.state keepers.old) (K.state keepers.new) result }
{
    masters_are_regions(config);
    inverses_match(&config.schema);
    let from = master_store(config, job.shard);
    let shard = far_shard(job.job);
    let at = region_store(master_of(config, shard), shard);
    let place = store_place(config, at);
    let to = &mut stores[place];
    merge_far(alloc, from, to, keepers, link, job.job)
}

impl Fleet {
    /// The stage `inverse`, once it was carried to a leader of the master's region of the shard on which the job's records lie: it merges the
    /// job at that shard's store. Where it serves the shard its items take what was written; one that stands in for another stays as it is.
    /// The job stays open.
    ///
    /// Refused as the store refuses it, with no node changed. Costs what `Leader::merge` does.
    pub fn merge<K: Keeper>(
        &mut self,
        alloc: Global,
        config: &Config,
        keepers: &mut K,
        leader: NodeName,
        job: &ShardJob<'_>,
    ) -> Result<Wrote, StoreRefusal>
        requires consistent { IsConsistent K.TELLS config.now (K.state keepers.old).told self.old }
        requires leader { IsLeaderIn config.now (master_of config.now (far_shard job.now.job.now)) leader }
        requires there { far_shard job.now.job.now < config.now.shards }
        requires given { IsGivenJob job.now.job.now }
        requires owed { WhereTold K.TELLS (IsOwedJob config.now (K.state keepers.old).told (lent_job job.now)) }

        // What the nodes are then.
        ensures node { IfOk result (λ wrote. ChangesNode leader (TakesWritten (types_of config.now.schema) (far_shard job.now.job.now)
            (taken_by (serves config.now leader (far_shard job.now.job.now)) wrote.entry) wrote.note) self.old.leaders self.new.leaders) }
        ensures err { OnErr result (self.new ≡ self.old) }
        ensures consistent { IsConsistent K.TELLS config.now (K.state keepers.new).told self.new }
        ensures goes { GoesOn self.old self.new }
        ensures followers { self.new.followers ≡ self.old.followers }

        // The answer and the tables, as a merge of the store leaves them: a step of the plain machine.
        ensures done { MergeDone K.TELLS (master_store config.now (far_shard job.now.job.now))
            (job_of_master config.now (K.state keepers.old).told (lent_job job.now)) (K.state keepers.old) (K.state keepers.new) result }
        ensures step { WhereTold K.TELLS (OnOk result (MergesOwed config.now (K.state keepers.old).told (K.state keepers.new).told (lent_job job.now))) }
        ensures merged { WhereTold K.TELLS (OnOk result (IsMergedJob config.now (K.state keepers.new).told (lent_job job.now))) }
        ensures seen { IfOk result (λ wrote. IsSeen (pens_of self.new.stores) (far_shard job.now.job.now) wrote.note) }
    {
        masters_are_regions(config);
        merge_at(
            &Around { alloc, config },
            &mut self.leaders,
            &mut self.stores,
            keepers,
            leader,
            job,
        )
    }

    /// The stage `end`: a job that was merged is ended at its own shard's store. Nothing changes where it isn't open any more, nor where
    /// the call is refused. One call of the keeper.
    pub fn end_job<K: Keeper>(
        &mut self,
        config: &Config,
        keepers: &mut K,
        shard: u16,
        job: &Job,
    ) -> Result<(), StoreRefusal>
        requires consistent { IsConsistent K.TELLS config.now (K.state keepers.old).told self.old }
        requires here { shard < config.now.shards }
        requires merged { WhereTold K.TELLS (IsMergedJob config.now (K.state keepers.old).told (job_on shard job.now)) }
        ensures same { self.new ≡ self.old }
        ensures consistent { IsConsistent K.TELLS config.now (K.state keepers.new).told self.new }
        ensures ends { WhereTold K.TELLS (Changes result (K.state keepers.old).told (K.state keepers.new).told (master_store config.now shard)
            (after_end ((K.state keepers.old).told (master_store config.now shard)) job.now.position)) }
        ensures step { WhereTold K.TELLS (OnOk result (EndsOwed config.now (K.state keepers.old).told (K.state keepers.new).told (job_on shard job.now))) }
        ensures refusals { IfErr result IsOfReads }
        ensures logs { LogsGrow K.TELLS (K.state keepers.old).told (K.state keepers.new).told }
        ensures calls { CallsKeeper StoreRefusal.KeeperFault (K.state keepers.old) (K.state keepers.new) result }
    {
        end_at(&mut self.stores, keepers, config, shard, job)
    }

    /// The open job of the least position of a shard, where one is open. One call of the keeper.
    pub fn first_job<K: Keeper>(
        &mut self,
        config: &Config,
        keepers: &mut K,
        shard: u16,
    ) -> Result<Option<Job>, StoreRefusal>
        requires consistent { IsConsistent K.TELLS config.now (K.state keepers.old).told self.old }
        requires here { shard < config.now.shards }
        ensures answer { WhereTold K.TELLS (IfOk result (IsLeastJob ((K.state keepers.old).told (master_store config.now shard)).jobs)) }
        ensures first { WhereTold K.TELLS (IfOk result (λ found. IfSome found (λ job.
            IsFirstJobOf config.now (K.state keepers.new).told (job_on shard job)))) }
        ensures given { IfOk result (λ found. IfSome found IsGivenJob) }
        ensures same { self.new ≡ self.old }
        ensures consistent { IsConsistent K.TELLS config.now (K.state keepers.new).told self.new }
        ensures refusals { IfErr result IsOfReads }
        ensures tables { KeepsTables K.TELLS (K.state keepers.old) (K.state keepers.new) }
        ensures logs { LogsGrow K.TELLS (K.state keepers.old).told (K.state keepers.new).told }
        ensures calls { CallsKeeper StoreRefusal.KeeperFault (K.state keepers.old) (K.state keepers.new) result }
    {
        first_at(&mut self.stores, keepers, config, shard)
    }

    /// Merges a job of a shard at the store of the shard on which its records lie, over the link from store to store and back, also where
    /// the merge was refused. No leader takes part, and the job stays open.
    ///
    /// `LinkFault` comes only where the link's count of faults rose, and `KeeperFault` only where the keepers' did. Costs a merge.
    pub fn merge_far<K: Keeper, L: Link>(
        &mut self,
        alloc: Global,
        config: &Config,
        keepers: &mut K,
        link: &mut L,
        job: &ShardJob<'_>,
    ) -> Result<RepairOutcome, RepairRefusal>
        requires consistent { IsConsistent K.TELLS config.now (K.state keepers.old).told self.old }
        requires here { job.now.shard < config.now.shards }
        requires there { far_shard job.now.job.now < config.now.shards }
        requires given { IsGivenJob job.now.job.now }
        requires owed { WhereTold K.TELLS (IsOwedJob config.now (K.state keepers.old).told (lent_job job.now)) }
        ensures merges { MergesFar K.TELLS config.now (lent_job job.now) result
            (outside (K.state keepers.old) (L.shown link.old)) (outside (K.state keepers.new) (L.shown link.new)) }
        ensures stands { IfOk result (λ repaired. IfSome repaired.wrote (StandsIn (pens_of self.new.stores (far_shard job.now.job.now)))) }
        ensures lies { IfOk result (λ repaired.
            IfSome repaired.wrote (LiesOn (pens_of self.new.stores (far_shard job.now.job.now)) (far_shard job.now.job.now))) }
        ensures rest { self.new ≡ record self.old { stores = self.new.stores } }
        ensures consistent { IsConsistent K.TELLS config.now (K.state keepers.new).told self.new }
        ensures goes { GoesOn self.old self.new }
        ensures grows { StoresGrow K.TELLS config.now (K.state keepers.old).told (K.state keepers.new).told }
        ensures calls { CallsKeeper repair.KeeperFault (K.state keepers.old) (K.state keepers.new) result }
    {
        merge_over(alloc, &mut self.stores, keepers, link, config, job)
    }
}
