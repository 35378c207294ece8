//! The messages of what was written.
ghost use Rattle.std.specs.Prelude.{◌≡◌, ◌<◌, IfSome};
ghost use Rattle.core_mail.specs.Inboxes.{AreInboxesOf, Sends, cache_names, entry_message};
ghost use Rattle.core_model.specs.Fleet.{node_names, regions_of};
ghost use Rattle.core_model.specs.Messages.{notified_besides, notified_by, notified_of};
ghost use Rattle.core_model.specs.Pens.{IsSeen, Pens};
ghost use Rattle.core_steps.specs.Posting.{NotifiesOfNew};
ghost use Rattle.core_steps.specs.Writes.{new_entry};
ghost use Rattle.shard_tables.specs.Written.{LiesOn, StandsIn};
ghost use Rattle.topology.specs.Choices.{master_region};

use crate::nodes::Nodes;
use core_model::{Around, serves_in_turn};
use node_name::NodeName;
use shard_log::Note;
use shard_tables::Wrote;
use tao_base::{Entry, StoreName};
use topology::Config;

impl Nodes {
    /// Notifies the leader that the master's region prefers for a shard, where it is up, of an entry that another wrote there.
    pub fn notify_besides(&mut self, config: &Config, shard: u16, entry: &Entry, note: &mut Note)
        requires here { shard < config.now.shards }
        requires own { self.old.topology.regions ≡ regions_of config.now }
        requires names { node_names self.old.mail ≡ cache_names config.now }
        requires stands { StandsIn note.old entry.now }
        requires lies { LiesOn note.old shard entry.now }
        ensures sends { Sends (notified_besides self.old.topology shard) (entry_message shard entry.now note.old) self.old.mail self.new.mail }
        ensures rest { self.new ≡ record self.old { mail = self.new.mail } }
        ensures note { note.new ≡ note.old }
        ensures of { (pens : Pens) → IsSeen pens shard note.old → AreInboxesOf config.now pens self.old.mail
            → AreInboxesOf config.now pens self.new.mail }
    {
        let leader = self.topology.preferred(self.topology.master(shard), shard);
        if self.topology.is_up(leader) {
            let around = Around {
                alloc: self.alloc,
                config,
            };
            self.mail.notify(&around, leader, shard, entry, note);
        }
    }

    /// Notifies the followers of the master's region that serve a shard, and are up, of an entry that was written there.
    pub fn notify_followers(&mut self, config: &Config, shard: u16, entry: &Entry, note: &mut Note)
        requires here { shard < config.now.shards }
        requires own { self.old.topology.regions ≡ regions_of config.now }
        requires names { node_names self.old.mail ≡ cache_names config.now }
        requires stands { StandsIn note.old entry.now }
        requires lies { LiesOn note.old shard entry.now }
        ensures sends { Sends (notified_of self.old.topology (master_region self.old.topology shard) shard) (entry_message shard entry.now note.old)
            self.old.mail self.new.mail }
        ensures rest { self.new ≡ record self.old { mail = self.new.mail } }
        ensures note { note.new ≡ note.old }
        ensures of { (pens : Pens) → IsSeen pens shard note.old → AreInboxesOf config.now pens self.old.mail
            → AreInboxesOf config.now pens self.new.mail }
    {
        let around = Around {
            alloc: self.alloc,
            config,
        };
        let region = self.topology.master(shard);
        let at = StoreName { region, shard };
        self.mail.send(&around, &self.topology, at, entry, note);
    }

    /// Notifies those who see a shard's log of an entry that a leader wrote there: the followers of the master's region, and the leader that it
    /// prefers where another wrote.
    fn notify_each(
        &mut self,
        config: &Config,
        leader: NodeName,
        shard: u16,
        entry: &Entry,
        note: &mut Note,
    )
        requires here { shard < config.now.shards }
        requires own { self.old.topology.regions ≡ regions_of config.now }
        requires names { node_names self.old.mail ≡ cache_names config.now }
        requires stands { StandsIn note.old entry.now }
        requires lies { LiesOn note.old shard entry.now }
        ensures sends { Sends (notified_by self.old.topology leader shard) (entry_message shard entry.now note.old) self.old.mail self.new.mail }
        ensures rest { self.new ≡ record self.old { mail = self.new.mail } }
        ensures note { note.new ≡ note.old }
        ensures of { (pens : Pens) → IsSeen pens shard note.old → AreInboxesOf config.now pens self.old.mail
            → AreInboxesOf config.now pens self.new.mail }
    {
        self.notify_followers(config, shard, entry, note);
        if !serves_in_turn(config, leader, shard) {
            self.notify_besides(config, shard, entry, note);
        }
    }

    /// Notifies those who see a shard's log of the entry that a leader wrote there, where there is one.
    pub(crate) fn notify_of(
        &mut self,
        config: &Config,
        leader: NodeName,
        shard: u16,
        wrote: &mut Wrote,
    )
        requires here { shard < config.now.shards }
        requires own { self.old.topology.regions ≡ regions_of config.now }
        requires names { node_names self.old.mail ≡ cache_names config.now }
        requires stands { IfSome wrote.old.entry (StandsIn wrote.old.note) }
        requires lies { IfSome wrote.old.entry (LiesOn wrote.old.note shard) }
        ensures notifies { NotifiesOfNew self.old.topology leader shard wrote.old.entry self.old.mail self.new.mail }
        ensures rest { self.new ≡ record self.old { mail = self.new.mail } }
        ensures same { wrote.new ≡ wrote.old }
        ensures of { (pens : Pens) → IsSeen pens shard wrote.old.note → AreInboxesOf config.now pens self.old.mail
            → AreInboxesOf config.now pens self.new.mail }
    {
        if let Some(entry) = &wrote.entry {
            self.notify_each(config, leader, shard, entry, &mut wrote.note);
        }
    }

    /// Notifies them of an entry that is new.
    pub(crate) fn notify_of_new(
        &mut self,
        config: &Config,
        leader: NodeName,
        shard: u16,
        wrote: &mut Wrote,
    )
        requires here { shard < config.now.shards }
        requires own { self.old.topology.regions ≡ regions_of config.now }
        requires names { node_names self.old.mail ≡ cache_names config.now }
        requires stands { IfSome wrote.old.entry (StandsIn wrote.old.note) }
        requires lies { IfSome wrote.old.entry (LiesOn wrote.old.note shard) }
        ensures notifies { NotifiesOfNew self.old.topology leader shard (new_entry wrote.old.retry wrote.old.entry) self.old.mail self.new.mail }
        ensures rest { self.new ≡ record self.old { mail = self.new.mail } }
        ensures same { wrote.new ≡ wrote.old }
        ensures of { (pens : Pens) → IsSeen pens shard wrote.old.note → AreInboxesOf config.now pens self.old.mail
            → AreInboxesOf config.now pens self.new.mail }
    {
        if !wrote.retry {
            self.notify_of(config, leader, shard, wrote);
        }
    }
}
