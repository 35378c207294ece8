//! A step of a stream: an entry of a shard's log is carried to the store of a slave region, and processed there.
ghost use Rattle.std.specs.Prelude.{◌≡◌, ◌≤◌, ◌<◌, ◌+◌, IfErr, IfOk, IfSome, OnErr, length};
ghost use Rattle.core_mail.specs.Inboxes.{AreInboxesOf, HaveArrived, Sends, cache_names, entry_message};
ghost use Rattle.core_model.specs.Consistent.{GoesOn, IsConsistent, IsFleetOf};
ghost use Rattle.core_model.specs.Fleet.{node_names, regions_of};
ghost use Rattle.core_model.specs.Messages.{IsMessageFor, notified_of};
ghost use Rattle.core_model.specs.Pens.{IsSeen, Pens, pens_of};
ghost use Rattle.core_model.specs.States.{AreStatesOf};
ghost use Rattle.core_model.specs.Stores.{AreStores, IsConfiguredStore, store_count};
ghost use Rattle.core_model.specs.Writes.{IsSeenEntry};
ghost use Rattle.core_nodes.specs.Opening.{IsSlaveStore};
ghost use Rattle.core_nodes.specs.Streams.{FindsNext, IsOfAsked, entry_found, position_found};
ghost use Rattle.core_steps.specs.Posting.{CanPost, PostsOn};
ghost use Rattle.core_steps.specs.ReadSteps.{AskFails};
ghost use Rattle.core_steps.specs.Streams.{next_after, region_leader};
ghost use Rattle.core_steps.specs.Streams.{FailsToTake, IsLeaderMessage, IsLoad, IsNewsOf, ProcessesMessage, RegionTakes, StreamsOver};
ghost use Rattle.core_steps.specs.Streams.{TakesAs, TakesCarried, TakesLoad};
ghost use Rattle.core_steps.specs.World.{world};
ghost use Rattle.graph_model.specs.Told.{WhereTold};
ghost use Rattle.shard_log.specs.View.{as_note};
ghost use Rattle.shard_tables.specs.Written.{LiesOn, StandsIn};
ghost use Rattle.tao_keeper.specs.Given.{HaveSmallStamps, IsGivenEntry};
ghost use Rattle.tao_keeper.specs.KeeperState.{IsLater, KeeperState, KeepsTables};
ghost use Rattle.tao_link.specs.Shown.{LinkShown};

use crate::asking::carried;
use crate::nodes::Nodes;
use core_model::Around;
use core_nodes::{NextEntry, master_store};
use maint_msg::Maint;
use node_name::NodeName;
use replies::{NodeRefused, Refusal, StreamVerdict, Streamed};
use shard_log::Note;
use store_replies::refused_as;
use tao_base::{Entry, OutOfMemory, StoreName};
use tao_keeper::{Keeper, MOST_ENTRIES};
use tao_link::Link;
use topology::Config;

/// What a stream is asked for: the store of a region and a shard, and the position of the entry that is to be carried; without one it is the
/// entry that the store takes next.
#[derive(Clone, Copy, PartialEq, Eq)]
pub struct AskedStream {
    pub at: StoreName,
    pub position: Option<u64>,
}

/// What the nodes of a region are to learn of an entry that its store takes: by a note the followers, and by its message the leader that the region
/// prefers, where that is up.
#[derive(Drop)]
struct News {
    note: Note,
    message: Option<Maint>,
}

/// An entry that is to be carried, a note for the store that takes it, and the news of it. All is made before: nothing may fail once the store took it.
#[derive(Drop)]
struct Load {
    entry: Entry,
    note: Note,
    news: News,
}

/// The position that a store takes next, after it said so of an entry.
fn next_after(next: u64, verdict: StreamVerdict) -> u64
    requires { next ≤ MOST_ENTRIES + 1 }
    ensures { result ≡ next_after next verdict }
{
    match verdict {
        StreamVerdict::Applied => next + 1,
        StreamVerdict::Old | StreamVerdict::Gap | StreamVerdict::None => next,
    }
}

impl Nodes {
    /// What is to be carried.
    fn stream_next<K: Keeper>(
        &mut self,
        config: &Config,
        keepers: &mut K,
        asked: AskedStream,
    ) -> Result<NextEntry, Refusal>
        requires consistent { IsConsistent K.TELLS config.now (K.state keepers.old).told self.old.fleet }
        requires here { IsConfiguredStore config.now asked.at }
        ensures finds { WhereTold K.TELLS (IfOk result (FindsNext config.now (K.state keepers.old).told asked.at asked.position)) }
        ensures asked { IfOk result (IsOfAsked asked.position) }
        ensures few { IfOk result (λ found. position_found found ≤ MOST_ENTRIES + 1) }
        ensures given { IfOk result (λ found. IfSome (entry_found found) IsGivenEntry) }
        ensures stands { IfOk result (λ found. IfSome (entry_found found) (StandsIn (pens_of self.new.fleet.stores asked.at.shard))) }
        ensures lies { IfOk result (λ found. IfSome (entry_found found) (LiesOn (pens_of self.new.fleet.stores asked.at.shard) asked.at.shard)) }
        ensures err { IfErr result (λ refusal. AskFails refusal (K.state keepers.old) (K.state keepers.new)) }
        ensures same { self.new ≡ self.old }
        ensures consistent { IsConsistent K.TELLS config.now (K.state keepers.new).told self.new.fleet }
        ensures tables { KeepsTables K.TELLS (K.state keepers.old) (K.state keepers.new) }
        ensures later { IsLater (K.state keepers.old) (K.state keepers.new) }
    {
        match self
            .fleet
            .next_entry(config, keepers, asked.at, asked.position)
        {
            Ok(found) => Ok(found),
            Err(refusal) => Err(refused_as(refusal, keepers.faults())),
        }
    }

    /// The message of an entry for the leader that the store's region prefers, where it is up.
    fn leader_message(
        &mut self,
        config: &Config,
        at: StoreName,
        entry: &Entry,
    ) -> Result<Option<Maint>, OutOfMemory>
        requires stores { AreStores config.now (store_count config.now) self.old.fleet.stores }
        requires here { at.shard < config.now.shards }
        requires stands { StandsIn (pens_of self.old.fleet.stores at.shard) entry.now }
        requires lies { LiesOn (pens_of self.old.fleet.stores at.shard) at.shard entry.now }
        ensures message { IfOk result (IsLeaderMessage self.old.topology at
            (entry_message at.shard entry.now (as_note (pens_of self.old.fleet.stores at.shard)))) }
        ensures same { self.new ≡ self.old }
    {
        if !self
            .topology
            .is_up(self.topology.preferred(at.region, at.shard))
        {
            return Ok(None);
        }
        let note = self.fleet.note(config, at.shard)?;
        Ok(Some(Maint::of(self.alloc, entry, at.shard, note)?))
    }

    /// What the nodes of the store's region are to learn of an entry. The one error is out of memory.
    fn news_of(
        &mut self,
        config: &Config,
        at: StoreName,
        entry: &Entry,
    ) -> Result<News, OutOfMemory>
        requires stores { AreStores config.now (store_count config.now) self.old.fleet.stores }
        requires here { at.shard < config.now.shards }
        requires stands { StandsIn (pens_of self.old.fleet.stores at.shard) entry.now }
        requires lies { LiesOn (pens_of self.old.fleet.stores at.shard) at.shard entry.now }
        ensures news { IfOk result (IsNewsOf self.old.topology at entry.now (as_note (pens_of self.old.fleet.stores at.shard))) }
        ensures same { self.new ≡ self.old }
    {
        let note = self.fleet.note(config, at.shard)?;
        let message = self.leader_message(config, at, entry)?;
        Ok(News { note, message })
    }

    /// The entry, with all that is made of it before it is carried. The one error is out of memory.
    fn load(&mut self, config: &Config, at: StoreName, entry: Entry) -> Result<Load, OutOfMemory>
        requires stores { AreStores config.now (store_count config.now) self.old.fleet.stores }
        requires here { at.shard < config.now.shards }
        requires stands { StandsIn (pens_of self.old.fleet.stores at.shard) entry }
        requires lies { LiesOn (pens_of self.old.fleet.stores at.shard) at.shard entry }
        ensures load { IfOk result (IsLoad (pens_of self.old.fleet.stores) self.old.topology at entry) }
        ensures same { self.new ≡ self.old }
    {
        let note = self.fleet.note(config, at.shard)?;
        let news = self.news_of(config, at, &entry)?;
        Ok(Load { entry, note, news })
    }

    /// The entry, loaded. Where there is no memory, that is the refusal.
    fn loaded(&mut self, config: &Config, at: StoreName, entry: Entry) -> Result<Load, Refusal>
        requires stores { AreStores config.now (store_count config.now) self.old.fleet.stores }
        requires here { at.shard < config.now.shards }
        requires stands { StandsIn (pens_of self.old.fleet.stores at.shard) entry }
        requires lies { LiesOn (pens_of self.old.fleet.stores at.shard) at.shard entry }
        ensures load { IfOk result (IsLoad (pens_of self.old.fleet.stores) self.old.topology at entry) }
        ensures err { IfErr result (λ refusal. refusal ≡ Refusal.Memory 0) }
        ensures same { self.new ≡ self.old }
    {
        match self.load(config, at, entry) {
            Ok(load) => Ok(load),
            Err(OutOfMemory) => Err(Refusal::Memory { position: 0 }),
        }
    }

    /// The leader that the store's region prefers processes the message, where there is one.
    fn leader_processes(&mut self, config: &Config, at: StoreName, message: Option<Maint>)
        requires fleet { IsFleetOf config.now self.old.fleet }
        requires here { at.region < length config.now.regions }
        requires own { self.old.topology.regions ≡ regions_of config.now }
        requires message { IfSome message (IsMessageFor config.now (pens_of self.old.fleet.stores) (region_leader self.old.topology at)) }
        ensures processes { ProcessesMessage (region_leader self.old.topology at) message self.old.fleet self.new.fleet }
        ensures rest { self.new ≡ record self.old { fleet = self.new.fleet } }
        ensures fleet { IsFleetOf config.now self.new.fleet }
        ensures goes { GoesOn self.old.fleet self.new.fleet }
    {
        let leader = self.topology.preferred(at.region, at.shard);
        if let Some(message) = message {
            self.fleet.deliver(config, leader, message);
        }
    }

    /// Notifies the followers of the store's region that serve its shard, and are up, of an entry that the store took.
    fn notify_region(&mut self, config: &Config, at: StoreName, entry: &Entry, note: &mut Note)
        requires here { at.shard < config.now.shards }
        requires own { self.old.topology.regions ≡ regions_of config.now }
        requires names { node_names self.old.mail ≡ cache_names config.now }
        requires stands { StandsIn note.old entry.now }
        requires lies { LiesOn note.old at.shard entry.now }
        ensures sends { Sends (notified_of self.old.topology at.region at.shard) (entry_message at.shard entry.now note.old) self.old.mail self.new.mail }
        ensures rest { self.new ≡ record self.old { mail = self.new.mail } }
        ensures note { note.new ≡ note.old }
        ensures of { (pens : Pens) → IsSeen pens at.shard note.old → AreInboxesOf config.now pens self.old.mail
            → AreInboxesOf config.now pens self.new.mail }
    {
        let around = Around {
            alloc: self.alloc,
            config,
        };
        self.mail.send(&around, &self.topology, at, entry, note);
    }

    /// The nodes of the store's region process an entry that the store took.
    fn region_takes(&mut self, config: &Config, at: StoreName, entry: &Entry, news: News)
        requires fleet { IsFleetOf config.now self.old.fleet }
        requires inboxes { AreInboxesOf config.now (pens_of self.old.fleet.stores) self.old.mail }
        requires states { AreStatesOf config.now self.old.topology }
        requires here { IsConfiguredStore config.now at }
        requires seen { IsSeenEntry (pens_of self.old.fleet.stores) at.shard (as_note (pens_of self.old.fleet.stores at.shard)) entry.now }
        requires lies { LiesOn (pens_of self.old.fleet.stores at.shard) at.shard entry.now }
        requires news { IsNewsOf self.old.topology at entry.now (as_note (pens_of self.old.fleet.stores at.shard)) news }
        ensures takes { (keepers : KeeperState) (link : LinkShown) → RegionTakes at entry.now (world self.old keepers link) (world self.new keepers link) }
        ensures rest { self.new ≡ record self.old { fleet = record self.old.fleet { leaders = self.new.fleet.leaders }; mail = self.new.mail } }
        ensures fleet { IsFleetOf config.now self.new.fleet }
        ensures goes { GoesOn self.old.fleet self.new.fleet }
        ensures inboxes { AreInboxesOf config.now (pens_of self.new.fleet.stores) self.new.mail }
    {
        let News { mut note, message } = news;
        self.leader_processes(config, at, message);
        self.notify_region(config, at, entry, &mut note);
    }

    /// The nodes of the store's region process an entry where the store took it.
    fn region_takes_as(
        &mut self,
        config: &Config,
        at: StoreName,
        verdict: StreamVerdict,
        entry: &Entry,
        news: News,
    )
        requires fleet { IsFleetOf config.now self.old.fleet }
        requires inboxes { AreInboxesOf config.now (pens_of self.old.fleet.stores) self.old.mail }
        requires states { AreStatesOf config.now self.old.topology }
        requires here { IsConfiguredStore config.now at }
        requires seen { IsSeenEntry (pens_of self.old.fleet.stores) at.shard (as_note (pens_of self.old.fleet.stores at.shard)) entry.now }
        requires lies { LiesOn (pens_of self.old.fleet.stores at.shard) at.shard entry.now }
        requires news { IsNewsOf self.old.topology at entry.now (as_note (pens_of self.old.fleet.stores at.shard)) news }
        ensures takes { (keepers : KeeperState) (link : LinkShown) → TakesAs verdict at entry.now (world self.old keepers link) (world self.new keepers link) }
        ensures rest { self.new ≡ record self.old { fleet = record self.old.fleet { leaders = self.new.fleet.leaders }; mail = self.new.mail } }
        ensures fleet { IsFleetOf config.now self.new.fleet }
        ensures goes { GoesOn self.old.fleet self.new.fleet }
        ensures inboxes { AreInboxesOf config.now (pens_of self.new.fleet.stores) self.new.mail }
    {
        match verdict {
            StreamVerdict::Applied => self.region_takes(config, at, entry, news),
            StreamVerdict::Old | StreamVerdict::Gap | StreamVerdict::None => drop(news),
        }
    }

    /// Lets the store take what was carried to it, and the nodes of its region process what it took.
    fn land<K: Keeper>(
        &mut self,
        config: &Config,
        keepers: &mut K,
        at: StoreName,
        load: Load,
    ) -> Result<StreamVerdict, Refusal>
        requires consistent { IsConsistent K.TELLS config.now (K.state keepers.old).told self.old.fleet }
        requires inboxes { AreInboxesOf config.now (pens_of self.old.fleet.stores) self.old.mail }
        requires arrived { WhereTold K.TELLS (HaveArrived (K.state keepers.old).told self.old.mail) }
        requires states { AreStatesOf config.now self.old.topology }
        requires slave { IsSlaveStore config.now at }
        requires stands { StandsIn (pens_of self.old.fleet.stores at.shard) load.entry }
        requires lies { LiesOn (pens_of self.old.fleet.stores at.shard) at.shard load.entry }
        requires stamps { HaveSmallStamps load.entry.touches }
        requires load { IsLoad (pens_of self.old.fleet.stores) self.old.topology at load.entry load }
        ensures takes { (link : LinkShown) → IfOk result (λ verdict. TakesLoad K.TELLS config.now at load.entry verdict
            (world self.old (K.state keepers.old) link) (world self.new (K.state keepers.new) link)) }
        ensures err { IfErr result (λ refusal. AskFails refusal (K.state keepers.old) (K.state keepers.new)) }
        ensures same { OnErr result (self.new ≡ self.old) }
        ensures stays { OnErr result (KeepsTables K.TELLS (K.state keepers.old) (K.state keepers.new)) }
        ensures on { (link : LinkShown) → PostsOn K.TELLS config.now
            (world self.old (K.state keepers.old) link) (world self.new (K.state keepers.new) link) }
    {
        let Load { entry, note, news } = load;
        match self.fleet.take_streamed(config, keepers, at, &entry, note) {
            Ok(verdict) => {
                self.region_takes_as(config, at, verdict, &entry, news);
                Ok(verdict)
            }
            Err(refusal) => Err(refused_as(refusal, keepers.faults())),
        }
    }

    /// Carries an entry from its shard's master store to the store, which takes it where it comes next.
    fn stream_entry<K: Keeper, L: Link>(
        &mut self,
        config: &Config,
        keepers: &mut K,
        link: &mut L,
        at: StoreName,
        entry: Entry,
    ) -> Result<StreamVerdict, Refusal>
        requires ready { CanPost K.TELLS config.now (world self.old (K.state keepers.old) (L.shown link.old)) }
        requires slave { IsSlaveStore config.now at }
        requires stands { StandsIn (pens_of self.old.fleet.stores at.shard) entry }
        requires lies { LiesOn (pens_of self.old.fleet.stores at.shard) at.shard entry }
        requires stamps { HaveSmallStamps entry.touches }
        ensures takes { IfOk result (λ verdict. TakesCarried K.TELLS config.now at entry verdict
            (world self.old (K.state keepers.old) (L.shown link.old)) (world self.new (K.state keepers.new) (L.shown link.new))) }
        ensures err { IfErr result (λ refusal. FailsToTake K.TELLS config.now at refusal
            (world self.old (K.state keepers.old) (L.shown link.old)) (world self.new (K.state keepers.new) (L.shown link.new))) }
        ensures on { PostsOn K.TELLS config.now
            (world self.old (K.state keepers.old) (L.shown link.old)) (world self.new (K.state keepers.new) (L.shown link.new)) }
    {
        let load = self.loaded(config, at, entry)?;
        let from = NodeName::Store(master_store(config, at.shard));
        carried(link, from, NodeName::Store(at))?;
        self.land(config, keepers, at, load)
    }

    /// A step of the stream into a slave's store: the entry of the shard's log at the position that is given, or else the one that the store takes next, is
    /// carried from the master's store to it. Where it comes next the store takes it, and in the same step the leader that the region prefers for
    /// the shard processes it, where that is up, and the followers of the region that serve the shard and are up are sent a message. Where the store has
    /// all of its shard's log, or the entry at the position is an old one, nothing is carried.
    ///
    /// Refused where the log has no entry at the position, where a keeper or the carry failed, and its count rose, or where there was no memory: then no
    /// node and no table has changed. Costs at most four calls of the keepers.
    pub fn stream_over<K: Keeper, L: Link>(
        &mut self,
        config: &Config,
        keepers: &mut K,
        link: &mut L,
        asked: AskedStream,
    ) -> Result<Streamed, Refusal>
        requires ready { CanPost K.TELLS config.now (world self.old (K.state keepers.old) (L.shown link.old)) }
        requires slave { IsSlaveStore config.now asked.at }
        ensures streams { StreamsOver K.TELLS config.now asked result
            (world self.old (K.state keepers.old) (L.shown link.old)) (world self.new (K.state keepers.new) (L.shown link.new)) }
        ensures few { IfOk result (λ streamed. streamed.next ≤ MOST_ENTRIES + 2) }
        ensures on { PostsOn K.TELLS config.now
            (world self.old (K.state keepers.old) (L.shown link.old)) (world self.new (K.state keepers.new) (L.shown link.new)) }
    {
        match self.stream_next(config, keepers, asked)? {
            NextEntry::Found { entry, next } => {
                let verdict = self.stream_entry(config, keepers, link, asked.at, entry)?;
                Ok(Streamed {
                    hops: 1,
                    next: next_after(next, verdict),
                    verdict,
                })
            }
            NextEntry::Old { next } => Ok(Streamed {
                hops: 0,
                next,
                verdict: StreamVerdict::Old,
            }),
            NextEntry::Nothing { next } => Ok(Streamed {
                hops: 0,
                next,
                verdict: StreamVerdict::None,
            }),
            NextEntry::Past { length, position } => {
                Err(Refusal::Node(NodeRefused::NoEntry { length, position }))
            }
        }
    }
}
