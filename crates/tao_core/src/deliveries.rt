//! Messages that are delivered, repeated or lost, refills, and what a node holds.
ghost use Rattle.std.specs.Prelude.{◌≡◌, Bool, Contains, IfOk, option_copied};
ghost use Rattle.core_mail.specs.Inboxes.{AreInboxesOf, shown_message};
ghost use Rattle.core_model.specs.Consistent.{IsFleetOf};
ghost use Rattle.core_model.specs.Evictions.{IsCacheOf};
ghost use Rattle.core_model.specs.Fleet.{follower_names};
ghost use Rattle.core_model.specs.Messages.{IsMessageFor, IsRefillFor};
ghost use Rattle.core_model.specs.Pens.{pens_of};
ghost use Rattle.tao_core.specs.Core.{IsConsistentCore, LeavesCore, StaysHeld, moment};
ghost use Rattle.tao_core.specs.Deliveries.{AnswersDeliver, AnswersInbox, AnswersLoss, AnswersRefill, AnswersSecond, AnswersShow, IsProcessed};
ghost use Rattle.tao_core.specs.Deliveries.{home_tier, lost_as, refill_plan, shown_content, shown_item};
ghost use Rattle.tao_core.specs.HeldCalls.{DoesAtOnce};
ghost use Rattle.tao_keeper.specs.KeeperState.{KeeperState};
ghost use Rattle.tao_link.specs.Shown.{LinkShown};

use crate::refusals::{no_message, no_refill};
use crate::serving::{Core, mark_said};
use cache_items::Item;
use core_model::region_of;
use core_plans::{begin_read, carry_read};
use core_steps::{TierPlace, refilled_as};
use follower_cache::Refill;
use maint_msg::Maint;
use node_name::NodeName;
use replies::{CacheReply, DeliveredReply, Message, NodeReply, Reply, Shown, ShownItem};
use sealed_item::Content;
use std::alloc::Global;
use store_replies::out_of_memory;
use tao_base::{Edges, Key, OutOfMemory};
use tao_keeper::Keeper;
use tao_link::Link;
use words::DeliveryWord;

/// The tier that a follower is of; 0 of another node.
fn home_tier(node: NodeName) -> u16
    ensures { result ≡ home_tier node }
{
    match node {
        NodeName::Follower { tier, .. } => tier,
        NodeName::Leader { .. } | NodeName::Store(_) => 0,
    }
}

/// A message as a reply says it.
fn said(message: &Maint) -> Message
    ensures { result ≡ shown_message message.now }
{
    Message {
        shard: message.shard(),
        position: message.position(),
    }
}

/// The reply that a message is lost.
fn lost(message: Maint) -> Reply
    ensures { result ≡ Reply.Node (NodeReply.Cache (CacheReply.Lost (shown_message message))) }
{
    Reply::Node(NodeReply::Cache(CacheReply::Lost(said(&message))))
}

/// The reply that the message at a place is lost, where one waited there.
fn lost_as(message: Option<Maint>, place: u32) -> Reply
    ensures { result ≡ lost_as place message }
{
    match message {
        Some(message) => lost(message),
        None => no_message(place),
    }
}

/// The content of an item, copied.
fn shown_content(alloc: Global, content: &Content) -> Result<ShownItem, OutOfMemory>
    ensures { IfOk result (λ shown. shown ≡ shown_content content.now) }
{
    match content {
        Content::Object(found) => Ok(ShownItem::Object(found.clone()?)),
        Content::List(prefix) => {
            Ok(ShownItem::List {
                edges: Edges::of(prefix.edges().to_vec(alloc)?),
                total: prefix.total(),
            })
        }
    }
}

/// What a node holds, copied.
fn shown_item(alloc: Global, item: Option<&Item>) -> Result<Shown, OutOfMemory>
    ensures { IfOk result (λ shown. shown ≡ shown_item (option_copied item.entry)) }
{
    match item {
        Some(item) => Ok(Shown::Held {
            version: item.version,
            item: shown_content(alloc, &item.content)?,
        }),
        None => Ok(Shown::Nothing),
    }
}

impl<'c> Core<'c> {
    /// A node processes a message for it.
    fn process(&mut self, word: DeliveryWord, node: NodeName, message: Maint) -> Reply
        requires fleet { IsFleetOf self.old.settings self.old.fleet }
        requires node { IsCacheOf self.old.settings node }
        requires message { IsMessageFor self.old.settings (pens_of self.old.fleet.stores) node message }
        ensures does { IsProcessed word node message self.old result self.new }
        ensures fleet { IsFleetOf self.old.settings self.new.fleet }
        ensures on { StaysHeld self.old.fleet self.new.fleet }
        ensures rest { self.new ≡ record self.old { fleet = self.new.fleet } }
    {
        let message_said = said(&message);
        let delivery = self.nodes.fleet.deliver(self.config, node, message);
        let mark = mark_said(&self.nodes.topology, node, delivery.mark);
        Reply::Node(NodeReply::Cache(CacheReply::Delivered(DeliveredReply {
            word,
            dropped: delivery.dropped,
            mark,
            message: message_said,
        })))
    }

    /// Takes the message at a place out of a node's inbox, and the node processes it.
    pub(crate) fn deliver(&mut self, node: NodeName, place: u32) -> Reply
        requires fleet { IsFleetOf self.old.settings self.old.fleet }
        requires inboxes { AreInboxesOf self.old.settings (pens_of self.old.fleet.stores) self.old.mail }
        requires node { IsCacheOf self.old.settings node }
        ensures does { AnswersDeliver node place self.old result self.new }
        ensures fleet { IsFleetOf self.old.settings self.new.fleet }
        ensures inboxes { AreInboxesOf self.old.settings (pens_of self.old.fleet.stores) self.new.mail }
        ensures stores { self.new.fleet.stores ≡ self.old.fleet.stores }
        ensures on { StaysHeld self.old.fleet self.new.fleet }
        ensures rest { self.new ≡ record self.old { fleet = self.new.fleet; mail = self.new.mail } }
    {
        match self.nodes.mail.take(node, place as usize) {
            Some(message) => self.process(DeliveryWord::Deliver, node, message),
            None => no_message(place),
        }
    }

    /// A node processes the message at a place of its inbox, which stays there.
    pub(crate) fn deliver_again(&mut self, node: NodeName, place: u32) -> Reply
        requires fleet { IsFleetOf self.old.settings self.old.fleet }
        requires inboxes { AreInboxesOf self.old.settings (pens_of self.old.fleet.stores) self.old.mail }
        requires node { IsCacheOf self.old.settings node }
        ensures does { AnswersSecond node place self.old result self.new }
        ensures fleet { IsFleetOf self.old.settings self.new.fleet }
        ensures stores { self.new.fleet.stores ≡ self.old.fleet.stores }
        ensures on { StaysHeld self.old.fleet self.new.fleet }
        ensures rest { self.new ≡ record self.old { fleet = self.new.fleet } }
    {
        match self.nodes.mail.copy(node, place as usize) {
            Ok(copy) => match copy {
                Some(message) => self.process(DeliveryWord::Again, node, message),
                None => no_message(place),
            },
            Err(OutOfMemory) => out_of_memory(),
        }
    }

    /// Takes the message at a place out of a node's inbox, and loses it.
    pub(crate) fn lose(&mut self, node: NodeName, place: u32) -> Reply
        requires inboxes { AreInboxesOf self.old.settings (pens_of self.old.fleet.stores) self.old.mail }
        requires node { IsCacheOf self.old.settings node }
        ensures does { AnswersLoss node place self.old result self.new }
        ensures inboxes { AreInboxesOf self.old.settings (pens_of self.old.fleet.stores) self.new.mail }
        ensures rest { self.new ≡ record self.old { mail = self.new.mail } }
    {
        lost_as(self.nodes.mail.take(node, place as usize), place)
    }

    /// The messages that wait for a node.
    pub(crate) fn show_inbox(&self, alloc: Global, node: NodeName) -> Reply
        requires inboxes { AreInboxesOf self.now.settings (pens_of self.now.fleet.stores) self.now.mail }
        requires node { IsCacheOf self.now.settings node }
        ensures { AnswersInbox node self.now result }
    {
        match self.nodes.mail.messages(alloc, node) {
            Ok(messages) => Reply::Node(NodeReply::Cache(CacheReply::Inbox { messages })),
            Err(OutOfMemory) => out_of_memory(),
        }
    }

    /// What a node holds at a key, and its mark for the key's shard.
    pub(crate) fn show(&self, alloc: Global, node: NodeName, key: Key) -> Reply
        requires fleet { IsFleetOf self.now.settings self.now.fleet }
        requires node { IsCacheOf self.now.settings node }
        ensures { (tells : Bool) (keepers : KeeperState) (link : LinkShown) → IsConsistentCore tells keepers.told self.now
            → AnswersShow tells node key (moment self.now keepers link) result }
    {
        let Some(mark) = self.mark(node, key.shard()) else {
            unreachable!()
        };
        match shown_item(alloc, self.nodes.fleet.item(node, key)) {
            Ok(item) => Reply::Node(NodeReply::Cache(CacheReply::Shown { mark, item })),
            Err(OutOfMemory) => out_of_memory(),
        }
    }

    /// Reads a refill of a follower: its plan does all of its stages.
    fn read_refill<K: Keeper, L: Link>(
        &mut self,
        keepers: &mut K,
        link: &mut L,
        node: NodeName,
        refill: Refill,
    ) -> Reply
        requires keepers { IsConsistentCore K.TELLS (K.state keepers.old).told self.old }
        requires node { Contains (follower_names self.old.settings) node }
        requires refill { IsRefillFor self.old.settings (pens_of self.old.fleet.stores) node refill }
        ensures does { DoesAtOnce K.TELLS (refill_plan self.old.settings node refill)
            (moment self.old (K.state keepers.old) (L.shown link.old)) result (moment self.new (K.state keepers.new) (L.shown link.new)) }
        ensures leaves { LeavesCore K.TELLS (K.state keepers.old) (K.state keepers.new) self.old self.new }
        ensures sessions { self.new.sessions ≡ self.old.sessions }
    {
        let Refill { query, floor } = refill;
        let (region, tier) = (region_of(node), home_tier(node));
        let of = TierPlace { region, tier };
        let mut plan = begin_read(self.config, query, of, floor, false, node);
        carry_read(&mut self.nodes, self.config, keepers, link, &mut plan);
        plan.finish()
    }

    /// Takes the oldest refill of a follower out, and reads it. None waits at one that is down.
    pub(crate) fn refill<K: Keeper, L: Link>(
        &mut self,
        keepers: &mut K,
        link: &mut L,
        node: NodeName,
    ) -> Reply
        requires keepers { IsConsistentCore K.TELLS (K.state keepers.old).told self.old }
        requires node { Contains (follower_names self.old.settings) node }
        ensures does { AnswersRefill K.TELLS node (moment self.old (K.state keepers.old) (L.shown link.old)) result
            (moment self.new (K.state keepers.new) (L.shown link.new)) }
        ensures leaves { LeavesCore K.TELLS (K.state keepers.old) (K.state keepers.new) self.old self.new }
        ensures same { self.new ≡ record self.old { fleet = self.new.fleet; mail = self.new.mail } }
    {
        if !self.nodes.topology.is_up(node) {
            return no_refill(node);
        }
        match self.nodes.fleet.next_refill(self.config, node) {
            Some(refill) => refilled_as(self.read_refill(keepers, link, node, refill)),
            None => no_refill(node),
        }
    }
}
