//! The inboxes of all leaders and followers: how the message of an entry is sent to those that are to have it, shown, taken and lost.
ghost use Rattle.std.specs.Prelude.{◌≡◌, ◌<◌, ◌∷◌, [], IfOk, IfSome, IsTrue};
ghost use Rattle.core_mail.specs.Inboxes.{AreEmpty, AreInboxesOf, LosesAll, Sends, ShowsInbox, TakesOut, WaitsAt, cache_names, entry_message};
ghost use Rattle.core_model.specs.Asked.{settings};
ghost use Rattle.core_model.specs.Fleet.{ChangesNode, HasNode, node_names, regions_of, serves_in_turn};
ghost use Rattle.core_model.specs.Messages.{IsMessageFor, notified_of};
ghost use Rattle.core_model.specs.Pens.{IsSeen, Pens};
ghost use Rattle.core_model.specs.shard_tables.Written.{LiesOn, StandsIn};
ghost use Rattle.topology.specs.Config.{Settings};

use crate::inboxes::{clear_all, clear_at, copy_at, empty_inboxes, send_at, shown, take_at};
use core_model::{
    Around, Named, find_node, follower_names, leader_names, serving_follower, tier_count,
};
use maint_msg::{Inbox, Maint};
use node_name::NodeName;
use replies::Messages;
use shard_log::Note;
use std::alloc::Global;
use std::marker::Model;
use tao_base::{Entry, OutOfMemory, StoreName};
use topology::{Config, Topology};

/// Of each leader and follower of a configuration the messages that wait for it, in the order in which they were sent: at most 4,096.
/// Contracts see these lists by the nodes' names.
///
/// A node's inbox is found among at most 80.
#[derive(Drop)]
pub struct Mail {
    inboxes: Vec<Named<Inbox>>,
}

impl Model for Mail {
    ghost use Rattle.core_mail.specs.Inboxes.{Inboxes};

    ghost Value = { Inboxes };

    ghost view = { λ m. m.inboxes.items };
}

/// Sends the followers of a store's region that serve its shard, and are up, the message of an entry.
fn send_each(
    inboxes: &mut [Named<Inbox>],
    around: &Around<'_>,
    topology: &Topology,
    at: StoreName,
    entry: &Entry,
    note: &mut Note,
)
    requires own { topology.now.regions ≡ regions_of (settings around.now) }
    requires names { node_names inboxes.old ≡ cache_names (settings around.now) }
    requires stands { StandsIn note.old entry.now }
    requires lies { LiesOn note.old at.shard entry.now }
    ensures sends { Sends (notified_of topology.now at.region at.shard) (entry_message at.shard entry.now note.old) inboxes.old inboxes.new }
    ensures note { note.new ≡ note.old }
{
    for tier in 0..tier_count(around.config, at.region) {
        let follower = serving_follower(around.config, at.region, tier, at.shard);
        if topology.is_up(follower) {
            send_at(inboxes, follower, around.alloc, at.shard, entry, note);
        }
    }
}

impl Mail {
    /// An empty inbox for each leader and follower of the configuration.
    pub fn open(alloc: Global, config: &Config) -> Result<Mail, OutOfMemory>
        ensures of { IfOk result (λ mail. (pens : Pens) → AreInboxesOf config.now pens mail) }
        ensures empty { IfOk result AreEmpty }
    {
        let mut names = leader_names(alloc, config)?;
        names.extend_from_slice(&follower_names(alloc, config)?)?;
        Ok(Mail {
            inboxes: empty_inboxes(alloc, &names)?,
        })
    }

    /// Notifies of an entry of a shard's log that the region's store took: of each tier of the region, in order, the follower that serves
    /// the shard, where it is up, is sent a message with a note of its own, which comes behind the others.
    ///
    /// With 4,096 messages waiting the message is lost, and so it is without memory for its note, its keys or its place; the others
    /// are sent all the same. Takes no other memory.
    pub fn send(
        &mut self,
        around: &Around<'_>,
        topology: &Topology,
        at: StoreName,
        entry: &Entry,
        note: &mut Note,
    )
        requires own { topology.now.regions ≡ regions_of (settings around.now) }
        requires names { node_names self.old ≡ cache_names (settings around.now) }
        requires here { at.shard < (settings around.now).shards }
        requires stands { StandsIn note.old entry.now }
        requires lies { LiesOn note.old at.shard entry.now }
        ensures sends { Sends (notified_of topology.now at.region at.shard) (entry_message at.shard entry.now note.old) self.old self.new }
        ensures note { note.new ≡ note.old }
        ensures of { (pens : Pens) → IsSeen pens at.shard note.old → AreInboxesOf (settings around.now) pens self.old
            → AreInboxesOf (settings around.now) pens self.new }
    {
        send_each(&mut self.inboxes, around, topology, at, entry, note);
    }

    /// Notifies one leader or follower of an entry of a shard that it serves: it is sent a message with a note of its own, which comes
    /// behind the others.
    ///
    /// With 4,096 messages waiting the message is lost, and so it is without memory for its note, its keys or its place. Takes no
    /// other memory.
    pub fn notify(
        &mut self,
        around: &Around<'_>,
        node: NodeName,
        shard: u16,
        entry: &Entry,
        note: &mut Note,
    )
        requires there { HasNode node self.old }
        requires here { shard < (settings around.now).shards }
        requires serves { IsTrue (serves_in_turn (regions_of (settings around.now)) node shard) }
        requires stands { StandsIn note.old entry.now }
        requires lies { LiesOn note.old shard entry.now }
        ensures sends { Sends (node ∷ []) (entry_message shard entry.now note.old) self.old self.new }
        ensures note { note.new ≡ note.old }
        ensures of { (pens : Pens) → IsSeen pens shard note.old → AreInboxesOf (settings around.now) pens self.old
            → AreInboxesOf (settings around.now) pens self.new }
    {
        send_at(&mut self.inboxes, node, around.alloc, shard, entry, note);
    }

    /// Takes out all messages of every node. Takes no memory.
    pub fn clear(&mut self)
        ensures empty { AreEmpty self.new }
        ensures names { node_names self.new ≡ node_names self.old }
        ensures of { (s : Settings) (pens : Pens) → AreInboxesOf s pens self.old → AreInboxesOf s pens self.new }
    {
        clear_all(&mut self.inboxes);
    }

    /// Takes out all messages of one node, as it goes down. Takes no memory.
    pub fn clear_inbox(&mut self, node: NodeName)
        requires { HasNode node self.old }
        ensures loses { ChangesNode node LosesAll self.old self.new }
        ensures of { (s : Settings) (pens : Pens) → AreInboxesOf s pens self.old → AreInboxesOf s pens self.new }
    {
        clear_at(&mut self.inboxes, node);
    }

    /// Takes the message at a place, the oldest at 0, out of a node's inbox; those behind it move up. None, and nothing changed,
    /// exactly where the place isn't below the length. Takes no memory.
    pub fn take(&mut self, node: NodeName, place: usize) -> Option<Maint>
        requires { HasNode node self.old }
        ensures takes { ChangesNode node (TakesOut place result) self.old self.new }
        ensures of { (s : Settings) (pens : Pens) → AreInboxesOf s pens self.old → AreInboxesOf s pens self.new }
        ensures message { (s : Settings) (pens : Pens) → AreInboxesOf s pens self.old → IfSome result (IsMessageFor s pens node) }
    {
        take_at(&mut self.inboxes, node, place)
    }

    /// A copy of the message at a place, the oldest at 0, with a note of its own; the message stays where it is, and so do all others.
    /// None exactly where the place isn't below the length. The one error is that there is no memory for the copy.
    pub fn copy(&mut self, node: NodeName, place: usize) -> Result<Option<Maint>, OutOfMemory>
        requires { HasNode node self.old }
        ensures copy { IfOk result (λ copy. WaitsAt node place copy self.old) }
        ensures same { self.new ≡ self.old }
        ensures message { IfOk result (λ copy. (s : Settings) (pens : Pens) → AreInboxesOf s pens self.old → IfSome copy (IsMessageFor s pens node)) }
    {
        copy_at(&mut self.inboxes, node, place)
    }

    /// The shard and the position of each message that waits for a node, the oldest first. The one error is out of memory.
    pub fn messages(&self, alloc: Global, node: NodeName) -> Result<Messages, OutOfMemory>
        requires { HasNode node self.now }
        ensures { IfOk result (λ messages. ShowsInbox node messages self.now) }
    {
        match find_node(&self.inboxes, node) {
            Some(inbox) => Ok(Messages::of(shown(alloc, inbox.as_slice())?)),
            None => unreachable!(),
        }
    }
}
