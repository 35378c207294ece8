//! The stages of a write.
ghost use Rattle.std.specs.Bool.{OnTrue};
ghost use Rattle.std.specs.Prelude.{◌≡◌, ◌<◌, IfOk, IfSome, IsTrue, OnErr, Some};
ghost use Rattle.core_model.specs.Asked.{settings};
ghost use Rattle.core_model.specs.Consistent.{GoesOn, IsConsistent, IsFleetOf};
ghost use Rattle.core_model.specs.Fleet.{ChangesNode, HasNode, serves};
ghost use Rattle.core_model.specs.Jobs.{IsOwedJob, job_on};
ghost use Rattle.core_model.specs.Pens.{IsSeen, Rise, pens_of, store_in};
ghost use Rattle.core_model.specs.Serving.{IsFollowerFor, IsLeaderIn};
ghost use Rattle.core_model.specs.Stores.{AreStoresOf, master_of, master_store};
ghost use Rattle.core_model.specs.Writes.{AppliesTo, IsSeenEntry};
ghost use Rattle.core_nodes.specs.MasterWrites.{asked_of_master};
ghost use Rattle.core_nodes.specs.Stages.{NodeIs, taken_by};
ghost use Rattle.graph_model.specs.Soundness.{is_client};
ghost use Rattle.graph_model.specs.Told.{WhereTold};
ghost use Rattle.core_model.specs.leader_tier.TakenWrites.{TakesWritten, taken_entry};
ghost use Rattle.node_stages.specs.Stages.{FollowerDoes, LeaderDoes};
ghost use Rattle.served_shards.specs.Served.{log_at};
ghost use Rattle.shard_log.specs.View.{as_note};
ghost use Rattle.shard_tables.specs.StoreView.{Store as StoreSeen};
ghost use Rattle.shard_tables.specs.WriteDone.{WriteDone};
ghost use Rattle.shard_tables.specs.Written.{LiesOn, StandsIn};
ghost use Rattle.tao_base.specs.Writes.{ChangesType, write_shard};
ghost use Rattle.tao_schema.specs.Schema.{types_of};

use crate::fleet::Fleet;
use crate::stores::region_store;
use core_model::leader_tier::Leader;
use core_model::{
    Around, AuthoredWrite, Named, master_of, masters_are_regions, named_place, serves_in_turn,
    store_place,
};
use follower_cache::Follower;
use node_name::NodeName;
use node_stages::{apply_of, commit_of};
use shard_log::Note;
use shard_tables::{StoreNode, StoreRefusal, Wrote, inverses_match};
use std::alloc::Global;
use tao_base::Entry;
use tao_keeper::Keeper;
use tao_schema::Schema;
use topology::Config;

/// Makes the write at the leader of that name and the shard's store.
fn commit_at<K: Keeper>(
    around: &Around<'_>,
    leaders: &mut [Named<Leader>],
    stores: &mut [StoreNode],
    keepers: &mut K,
    name: NodeName,
    call: &AuthoredWrite<'_>,
) -> Result<Wrote, StoreRefusal>
    requires there { HasNode name leaders.old }
    requires shard { write_shard call.now.write.now < (settings around.now).shards }
    requires logs { OnTrue (serves (settings around.now) name (write_shard call.now.write.now)) (NodeIs name (λ node. (store : StoreSeen)
        → store_in stores.old (master_store (settings around.now) (write_shard call.now.write.now)) ≡ Some store
        → log_at (write_shard call.now.write.now) node.served ≡ Some store.view.log) leaders.old) }
    requires stores { AreStoresOf K.TELLS (settings around.now) (K.state keepers.old).told stores.old }
    requires client { IsTrue (is_client call.now.origin) }
    requires changes { ChangesType (types_of (settings around.now).schema) call.now.write.now }
    ensures node { ChangesNode name (LeaderDoes (TakesWritten (types_of (settings around.now).schema) (write_shard call.now.write.now)
        (taken_entry (serves (settings around.now) name (write_shard call.now.write.now)) result)
        (as_note (pens_of stores.new (write_shard call.now.write.now))))) leaders.old leaders.new }
    ensures rest { OnErr result (stores.new ≡ stores.old) }
    ensures stores { AreStoresOf K.TELLS (settings around.now) (K.state keepers.new).told stores.new }
    ensures rise { Rise (pens_of stores.old) (pens_of stores.new) }
    ensures note { IfOk result (λ wrote. wrote.note ≡ as_note (pens_of stores.new (write_shard call.now.write.now))) }
    ensures done { WriteDone K.TELLS (master_store (settings around.now) (write_shard call.now.write.now))
        (asked_of_master (settings around.now) (K.state keepers.old).told call.now.origin call.now.write.now)
        (K.state keepers.old) (K.state keepers.new) result }
    ensures owes { WhereTold K.TELLS (IfOk result (λ wrote. IfSome wrote.job (λ job.
        IsOwedJob (settings around.now) (K.state keepers.new).told (job_on (write_shard call.now.write.now) job)))) }
{
    let config = around.config;
    masters_are_regions(config);
    let spot = named_place(leaders, name);
    let shard = call.write.shard();
    let preferred = serves_in_turn(config, name, shard);
    let at = region_store(master_of(config, shard), shard);
    let place = store_place(config, at);
    let leader = &mut leaders[spot].node;
    let store = &mut stores[place];
    inverses_match(&config.schema);
    commit_of(around, leader, preferred, store, keepers, call)
}

/// Applies the entry at the follower of that name.
fn apply_at(
    followers: &mut [Named<Follower>],
    schema: &Schema,
    name: NodeName,
    shard: u16,
    entry: &Entry,
    note: Note,
)
    requires there { HasNode name followers.old }
    requires log { NodeIs name (λ follower. log_at shard follower.node.served ≡ Some note.log) followers.old }
    requires stands { StandsIn note entry.now }
    requires here { LiesOn note shard entry.now }
    ensures { ChangesNode name (FollowerDoes (AppliesTo (types_of schema.now) shard entry.now note)) followers.old followers.new }
{
    let place = named_place(followers, name);
    apply_of(&mut followers[place].node, schema, shard, entry, note);
}

impl Fleet {
    /// The stage `commit`, once it was carried to a leader of the master's region: it makes the write of a client at the shard's store. Where
    /// it serves the shard its items take what was written; one that stands in for another stays as it is.
    ///
    /// Refused as the store refuses it, with no node changed. Costs what `Leader::write` does.
    pub fn commit<K: Keeper>(
        &mut self,
        alloc: Global,
        config: &Config,
        keepers: &mut K,
        leader: NodeName,
        call: &AuthoredWrite<'_>,
    ) -> Result<Wrote, StoreRefusal>
        requires consistent { IsConsistent K.TELLS config.now (K.state keepers.old).told self.old }
        requires leader { IsLeaderIn config.now (master_of config.now (write_shard call.now.write.now)) leader }
        requires here { write_shard call.now.write.now < config.now.shards }
        requires client { IsTrue (is_client call.now.origin) }
        requires changes { ChangesType (types_of config.now.schema) call.now.write.now }

        // What the nodes are then.
        ensures node { IfOk result (λ wrote. ChangesNode leader (TakesWritten (types_of config.now.schema) (write_shard call.now.write.now)
            (taken_by (serves config.now leader (write_shard call.now.write.now)) wrote.entry) wrote.note) self.old.leaders self.new.leaders) }
        ensures err { OnErr result (self.new ≡ self.old) }
        ensures consistent { IsConsistent K.TELLS config.now (K.state keepers.new).told self.new }
        ensures goes { GoesOn self.old self.new }
        ensures followers { self.new.followers ≡ self.old.followers }

        // The answer and the tables, as a write of the store leaves them.
        ensures done { WriteDone K.TELLS (master_store config.now (write_shard call.now.write.now))
            (asked_of_master config.now (K.state keepers.old).told call.now.origin call.now.write.now)
            (K.state keepers.old) (K.state keepers.new) result }
        ensures owes { WhereTold K.TELLS (IfOk result (λ wrote. IfSome wrote.job (λ job.
            IsOwedJob config.now (K.state keepers.new).told (job_on (write_shard call.now.write.now) job)))) }
        ensures seen { IfOk result (λ wrote. IsSeen (pens_of self.new.stores) (write_shard call.now.write.now) wrote.note) }
        ensures note { IfOk result (λ wrote. wrote.note ≡ as_note (pens_of self.new.stores (write_shard call.now.write.now))) }
    {
        masters_are_regions(config);
        commit_at(
            &Around { alloc, config },
            &mut self.leaders,
            &mut self.stores,
            keepers,
            leader,
            call,
        )
    }

    /// The stage `apply`, once it was carried to the follower: its items take the changes of the entry, and nothing is marked.
    pub fn apply(
        &mut self,
        config: &Config,
        follower: NodeName,
        shard: u16,
        entry: &Entry,
        note: Note,
    )
        requires fleet { IsFleetOf config.now self.old }
        requires follower { IsFollowerFor config.now shard follower }
        requires seen { IsSeenEntry (pens_of self.old.stores) shard note entry.now }
        requires here { LiesOn note shard entry.now }
        ensures applies { ChangesNode follower (AppliesTo (types_of config.now.schema) shard entry.now note) self.old.followers self.new.followers }
        ensures rest { self.new ≡ record self.old { followers = self.new.followers } }
        ensures fleet { IsFleetOf config.now self.new }
        ensures goes { GoesOn self.old self.new }
    {
        apply_at(
            &mut self.followers,
            &config.schema,
            follower,
            shard,
            entry,
            note,
        );
    }
}
