//! The stages of a write at a leader of its own region, where another is the master's: the write passes it on the way there, and what was committed
//! on the way back.
ghost use Rattle.std.specs.Prelude.{◌≡◌, ◌<◌, Bool, Contains, IfErr, IfOk, IfSome, OnErr, OnOk};
ghost use Rattle.core_model.specs.Consistent.{GoesOn, HaveReached, IsFleetOf};
ghost use Rattle.core_model.specs.Fleet.{leader_names};
ghost use Rattle.core_model.specs.Pens.{pens_of};
ghost use Rattle.core_model.specs.Stores.{AreStores, store_count};
ghost use Rattle.core_model.specs.Writes.{IsSeenEntry};
ghost use Rattle.core_nodes.specs.Settling.{IsLaterLink};
ghost use Rattle.core_steps.specs.Relays.{LeaderRelays, RefusesPassing};
ghost use Rattle.core_steps.specs.Routes.{FailsCarry};
ghost use Rattle.core_steps.specs.World.{world};
ghost use Rattle.shard_log.specs.View.{as_note};
ghost use Rattle.shard_tables.specs.Written.{LiesOn};
ghost use Rattle.tao_keeper.specs.KeeperState.{KeeperState};
ghost use Rattle.tao_keeper.specs.Table.{Tables};
ghost use Rattle.tao_link.specs.Shown.{after_carry};

use crate::asking::carried;
use crate::nodes::Nodes;
use crate::routes::{Route, carry};
use crate::writes::ShardNote;
use node_name::NodeName;
use replies::{Refusal, StoreRefused, When};
use shard_log::Note;
use tao_base::Entry;
use tao_link::{Link, LinkFailed};
use topology::Config;

/// Carries a write from its follower to the leader that it passes on the way to the master's. `LinkFault` comes only where the link's count of
/// faults rose.
fn pass_over<L: Link>(link: &mut L, follower: NodeName, passed: NodeName) -> Result<(), Refusal>
    ensures ok { OnOk result (L.shown link.new ≡ after_carry (L.shown link.old)) }
    ensures fails { IfErr result (λ _. FailsCarry follower passed (L.shown link.old) (L.shown link.new)) }
    ensures refusal { IfErr result (λ refusal. refusal ≡ Refusal.Store (StoreRefused.LinkFault (L.shown link.new).faults When.Before)) }
{
    carried(link, follower, passed)
}

impl Nodes {
    /// The way of a write to the leader of its own region that it passes, which the route names, with a note of the shard's log for the way
    /// back. That is taken before anything is carried, since nothing may fail for memory after the commit.
    ///
    /// `Memory` comes with nothing carried, `LinkFault` only where the link's count of faults rose. No node changes.
    pub fn pass_with_note<L: Link>(
        &mut self,
        config: &Config,
        link: &mut L,
        route: Route,
        shard: u16,
    ) -> Result<Note, Refusal>
        requires stores { AreStores config.now (store_count config.now) self.old.fleet.stores }
        requires here { shard < config.now.shards }
        ensures carried { OnOk result (L.shown link.new ≡ after_carry (L.shown link.old)) }
        ensures note { IfOk result (λ note. note ≡ as_note (pens_of self.old.fleet.stores shard)) }
        ensures refused { IfErr result (λ refusal. (tells : Bool) (keepers : KeeperState) → RefusesPassing tells route refusal
            (world self.old keepers (L.shown link.old)) (world self.new keepers (L.shown link.new))) }
        ensures same { self.new ≡ self.old }
        ensures later { IsLaterLink (L.shown link.old) (L.shown link.new) }
    {
        let note = self.spare_note(config, shard)?;
        match pass_over(link, route.follower, route.leader) {
            Ok(()) => Ok(note),
            Err(refusal) => Err(refusal),
        }
    }

    /// Lets the leader take what was committed, where there is an entry.
    fn relay_written(
        &mut self,
        config: &Config,
        leader: NodeName,
        shard: u16,
        entry: &Option<Entry>,
        note: Note,
    )
        requires fleet { IsFleetOf config.now self.old.fleet }
        requires leader { Contains (leader_names config.now) leader }
        requires shard { shard < config.now.shards }
        requires seen { IfSome entry.now (IsSeenEntry (pens_of self.old.fleet.stores) shard note) }
        requires here { IfSome entry.now (LiesOn note shard) }
        ensures relays { LeaderRelays config.now leader shard entry.now self.old.fleet self.new.fleet }
        ensures rest { self.new ≡ record self.old { fleet = record self.old.fleet { leaders = self.new.fleet.leaders } } }
        ensures fleet { IsFleetOf config.now self.new.fleet }
        ensures reached { (tables : Tables) → HaveReached tables self.old.fleet → HaveReached tables self.new.fleet }
        ensures goes { GoesOn self.old.fleet self.new.fleet }
    {
        if let Some(entry) = entry {
            self.fleet.relay(config, leader, shard, entry, note);
        }
    }

    /// The stage `relay`: what was committed is carried from the master's leader to the one that the write passed (`route` names that as `follower`),
    /// which takes the changes and marks nothing. Where the link fails, no node changes. Takes no memory but for items that grow.
    pub fn relay_over<L: Link>(
        &mut self,
        config: &Config,
        link: &mut L,
        route: Route,
        entry: &Option<Entry>,
        at: ShardNote,
    ) -> Result<(), LinkFailed>
        requires fleet { IsFleetOf config.now self.old.fleet }
        requires leader { Contains (leader_names config.now) route.follower }
        requires shard { at.shard < config.now.shards }
        requires seen { IfSome entry.now (IsSeenEntry (pens_of self.old.fleet.stores) at.shard at.note) }
        requires here { IfSome entry.now (LiesOn at.note at.shard) }
        ensures carried { OnOk result (L.shown link.new ≡ after_carry (L.shown link.old)) }
        ensures failed { IfErr result (λ _. FailsCarry route.leader route.follower (L.shown link.old) (L.shown link.new)) }
        ensures relays { OnOk result (LeaderRelays config.now route.follower at.shard entry.now self.old.fleet self.new.fleet) }
        ensures stays { OnErr result (self.new ≡ self.old) }
        ensures rest { self.new ≡ record self.old { fleet = record self.old.fleet { leaders = self.new.fleet.leaders } } }
        ensures fleet { IsFleetOf config.now self.new.fleet }
        ensures reached { (tables : Tables) → HaveReached tables self.old.fleet → HaveReached tables self.new.fleet }
        ensures goes { GoesOn self.old.fleet self.new.fleet }
    {
        if let Err(LinkFailed) = carry(link, route.leader, route.follower) {
            return Err(LinkFailed);
        }
        let ShardNote { shard, note } = at;
        self.relay_written(config, route.follower, shard, entry, note);
        Ok(())
    }
}
