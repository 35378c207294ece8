//! The stages of a write at its own shard: its commit, and its way back to the follower.
ghost use Rattle.std.specs.Prelude.{◌≡◌, ◌<◌, IfErr, IfOk, IfSome, IsTrue, OnErr, OnOk};
ghost use Rattle.core_model.specs.Consistent.{GoesOn, HaveReached, IsFleetOf};
ghost use Rattle.core_model.specs.Jobs.{CanBeMerged, job_on};
ghost use Rattle.core_model.specs.Pens.{pens_of};
ghost use Rattle.core_model.specs.Serving.{IsFollowerFor, IsLeaderIn};
ghost use Rattle.core_model.specs.Stores.{AreStores, master_of, store_count};
ghost use Rattle.core_model.specs.Writes.{IsSeenEntry};
ghost use Rattle.core_steps.specs.Routes.{FailsCarry};
ghost use Rattle.core_steps.specs.Posting.{CanPost, PostsOn};
ghost use Rattle.core_steps.specs.World.{world};
ghost use Rattle.core_model.specs.Asked.{lent_call};
ghost use Rattle.core_steps.specs.Writes.{CanBeApplied, FollowerTakes, IsCommitted, RefusesCommit, sent_write};
ghost use Rattle.graph_model.specs.Soundness.{is_client};
ghost use Rattle.shard_log.specs.View.{as_note};
ghost use Rattle.shard_tables.specs.Written.{LiesOn};
ghost use Rattle.tao_base.specs.Writes.{ChangesType, write_shard};
ghost use Rattle.tao_keeper.specs.Table.{Tables};
ghost use Rattle.tao_link.specs.Shown.{after_carry};
ghost use Rattle.tao_schema.specs.Schema.{types_of};

use crate::nodes::Nodes;
use crate::routes::{Route, carry};
use core_model::{AuthoredWrite, masters_are_regions};
use replies::{Refusal, When};
use shard_log::Note;
use shard_tables::Wrote;
use store_replies::{link_fault, refused_as};
use tao_base::{Entry, OutOfMemory};
use tao_keeper::Keeper;
use tao_link::{Link, LinkFailed};
use topology::Config;

/// A shard, and a note of its log.
#[derive(Drop)]
pub struct ShardNote {
    pub shard: u16,
    pub note: Note,
}

impl Nodes {
    /// A note of a shard's log for the way back of a write, taken before that is made, since nothing may fail for memory after it.
    pub(crate) fn spare_note(&mut self, config: &Config, shard: u16) -> Result<Note, Refusal>
        requires stores { AreStores config.now (store_count config.now) self.old.fleet.stores }
        requires here { shard < config.now.shards }
        ensures view { IfOk result (λ note. note ≡ as_note (pens_of self.old.fleet.stores shard)) }
        ensures err { IfErr result (λ refusal. refusal ≡ Refusal.Memory 0) }
        ensures same { self.new ≡ self.old }
    {
        match self.fleet.note(config, shard) {
            Ok(note) => Ok(note),
            Err(OutOfMemory) => Err(Refusal::Memory { position: 0 }),
        }
    }

    /// Lets the follower of the route take what was committed, where there is an entry.
    fn apply_written(
        &mut self,
        config: &Config,
        route: Route,
        shard: u16,
        entry: &Option<Entry>,
        note: Note,
    )
        requires fleet { IsFleetOf config.now self.old.fleet }
        requires follower { IsFollowerFor config.now shard route.follower }
        requires seen { IfSome entry.now (IsSeenEntry (pens_of self.old.fleet.stores) shard note) }
        requires here { IfSome entry.now (LiesOn note shard) }
        ensures takes { FollowerTakes (types_of config.now.schema) route shard entry.now self.old.fleet self.new.fleet }
        ensures rest { self.new ≡ record self.old { fleet = record self.old.fleet { followers = self.new.fleet.followers } } }
        ensures fleet { IsFleetOf config.now self.new.fleet }
        ensures reached { (tables : Tables) → HaveReached tables self.old.fleet → HaveReached tables self.new.fleet }
        ensures goes { GoesOn self.old.fleet self.new.fleet }
    {
        if let Some(entry) = entry {
            self.fleet.apply(config, route.follower, shard, entry, note);
        }
    }

    /// The stage `apply`: what was committed is carried back to the follower, which takes the changes. Where the link fails, no node
    /// changes. Takes no memory but for items that grow.
    pub fn apply_over<L: Link>(
        &mut self,
        config: &Config,
        link: &mut L,
        route: Route,
        entry: &Option<Entry>,
        at: ShardNote,
    ) -> Result<(), LinkFailed>
        requires fleet { IsFleetOf config.now self.old.fleet }
        requires follower { IsFollowerFor config.now at.shard route.follower }
        requires seen { IfSome entry.now (IsSeenEntry (pens_of self.old.fleet.stores) at.shard at.note) }
        requires here { IfSome entry.now (LiesOn at.note at.shard) }
        ensures carried { OnOk result (L.shown link.new ≡ after_carry (L.shown link.old)) }
        ensures failed { IfErr result (λ _. FailsCarry route.leader route.follower (L.shown link.old) (L.shown link.new)) }
        ensures takes { OnOk result (FollowerTakes (types_of config.now.schema) route at.shard entry.now self.old.fleet self.new.fleet) }
        ensures stays { OnErr result (self.new ≡ self.old) }
        ensures rest { self.new ≡ record self.old { fleet = record self.old.fleet { followers = self.new.fleet.followers } } }
        ensures fleet { IsFleetOf config.now self.new.fleet }
        ensures reached { (tables : Tables) → HaveReached tables self.old.fleet → HaveReached tables self.new.fleet }
        ensures goes { GoesOn self.old.fleet self.new.fleet }
    {
        if let Err(LinkFailed) = carry(link, route.leader, route.follower) {
            return Err(LinkFailed);
        }
        let ShardNote { shard, note } = at;
        self.apply_written(config, route, shard, entry, note);
        Ok(())
    }

    /// The stage `commit`: the write of a client is carried to a leader of the master's region, which writes to the shard's store. Where it serves
    /// the shard it takes what was written; one that stands in for another stays as it is. Of a new entry each follower of that region that
    /// serves the shard and is up is notified, by a message, and so is the leader that another stands in for.
    ///
    /// With what was written comes a second note that has seen all of the shard's log, as the first one has, for its way back. It was taken before the
    /// write, so that nothing fails for memory after that.
    ///
    /// Refused as the store refuses it, with nothing changed; `LinkFault` comes only where the link's count of faults rose at the carry.
    /// Costs what `Leader::write` does, a note, and a message for each tier of the region.
    pub fn commit_over<K: Keeper, L: Link>(
        &mut self,
        config: &Config,
        keepers: &mut K,
        link: &mut L,
        route: Route,
        call: &AuthoredWrite<'_>,
    ) -> Result<(Wrote, Note), Refusal>
        requires ready { CanPost K.TELLS config.now (world self.old (K.state keepers.old) (L.shown link.old)) }
        requires client { IsTrue (is_client call.now.origin) }
        requires changes { ChangesType (types_of config.now.schema) call.now.write.now }
        requires here { write_shard call.now.write.now < config.now.shards }
        requires leader { IsLeaderIn config.now (master_of config.now (write_shard call.now.write.now)) route.leader }
        ensures committed { IfOk result (λ answer. IsCommitted K.TELLS config.now (sent_write route (lent_call call.now)) answer.0
            (world self.old (K.state keepers.old) (L.shown link.old)) (world self.new (K.state keepers.new) (L.shown link.new))) }
        ensures apply { IfOk result (λ answer. CanBeApplied (lent_call call.now) answer.0 self.new.fleet.stores) }
        ensures spare { IfOk result (λ answer. answer.1 ≡ answer.0.note) }
        ensures all { IfOk result (λ answer. answer.0.note ≡ as_note (pens_of self.new.fleet.stores (write_shard call.now.write.now))) }
        ensures job { IfOk result (λ answer. IfSome answer.0.job (λ job.
            CanBeMerged K.TELLS config.now (K.state keepers.new).told (job_on (write_shard call.now.write.now) job))) }
        ensures refused { IfErr result (λ refusal. RefusesCommit K.TELLS config.now (sent_write route (lent_call call.now)) refusal
            (world self.old (K.state keepers.old) (L.shown link.old)) (world self.new (K.state keepers.new) (L.shown link.new))) }
        ensures on { PostsOn K.TELLS config.now
            (world self.old (K.state keepers.old) (L.shown link.old)) (world self.new (K.state keepers.new) (L.shown link.new)) }
    {
        if let Err(LinkFailed) = carry(link, route.follower, route.leader) {
            return Err(link_fault(link.faults(), When::Before));
        }
        masters_are_regions(config);
        let shard = call.write.shard();
        let spare = self.spare_note(config, shard)?;
        match self
            .fleet
            .commit(self.alloc, config, keepers, route.leader, call)
        {
            Ok(wrote) => {
                let mut wrote = wrote;
                let spare = self.fleet.renew(config, shard, spare);
                self.notify_of_new(config, route.leader, shard, &mut wrote);
                Ok((wrote, spare))
            }
            Err(refusal) => Err(refused_as(refusal, keepers.faults())),
        }
    }
}
