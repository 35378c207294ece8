//! Nodes that go down and come up, and leaders that a tier suspects or trusts.
ghost use Rattle.std.specs.Prelude.{◌≡◌, Bool};
ghost use Rattle.core_mail.specs.Inboxes.{AreInboxesOf};
ghost use Rattle.core_model.specs.Consistent.{IsFleetOf};
ghost use Rattle.core_model.specs.Pens.{pens_of};
ghost use Rattle.core_model.specs.States.{AreStatesOf};
ghost use Rattle.request_check.specs.Health.{IsPlacedHealth, IsPlacedLeader};
ghost use Rattle.request_check.specs.Placed.{IsPlacedNode};
ghost use Rattle.tao_core.specs.Core.{IsCoreOf, StaysUsable, moment};
ghost use Rattle.tao_core.specs.Health.{AnswersDown, AnswersHealth, AnswersTrust, AnswersUp, health_said};
ghost use Rattle.tao_keeper.specs.KeeperState.{KeeperState};
ghost use Rattle.tao_link.specs.Shown.{LinkShown};

use crate::serving::Core;
use node_name::NodeName;
use replies::{NodeReply, Reply};
use request_check::{CheckedHealth, LeaderPlace};
use std::alloc::Global;
use store_replies::{out_of_memory, refused_as};
use tao_base::OutOfMemory;
use tao_keeper::Keeper;
use words::HealthWord;

/// The reply to a word of health: whether anything changed.
fn health_said(word: HealthWord, changed: bool) -> Reply
    ensures { result ≡ health_said word changed }
{
    Reply::Node(NodeReply::Health { word, changed })
}

impl<'c> Core<'c> {
    /// A leader or follower goes down: it loses its items, asks, refills and messages, and its low-water marks stay. Where it is down already, or there
    /// is no memory, nothing changes.
    fn go_down(&mut self, alloc: Global, node: NodeName) -> Reply
        requires node { IsPlacedNode self.old.settings node }
        requires fleet { IsFleetOf self.old.settings self.old.fleet }
        requires states { AreStatesOf self.old.settings self.old.states }
        requires inboxes { AreInboxesOf self.old.settings (pens_of self.old.fleet.stores) self.old.mail }
        ensures does { (keepers : KeeperState) (link : LinkShown) →
            AnswersDown node (moment self.old keepers link) result (moment self.new keepers link) }
        ensures usable { (tells : Bool) (keepers : KeeperState) → IsCoreOf tells keepers.told self.old
            → StaysUsable tells keepers keepers self.old self.new }
    {
        if !self.nodes.topology.is_up(node) {
            return health_said(HealthWord::Down, false);
        }
        match self.nodes.fleet.go_down(alloc, self.config, node) {
            Ok(()) => {
                self.nodes.mail.clear_inbox(node);
                let _ = self.nodes.topology.set_up(node, false);
                health_said(HealthWord::Down, true)
            }
            Err(OutOfMemory) => out_of_memory(),
        }
    }

    /// A leader or follower comes up: it begins empty, and has processed what its region's stores have. Where it is up already, or a keeper fails or there
    /// is no memory, nothing changes.
    fn come_up<K: Keeper>(&mut self, alloc: Global, keepers: &mut K, node: NodeName) -> Reply
        requires keepers { IsCoreOf K.TELLS (K.state keepers.old).told self.old }
        requires node { IsPlacedNode self.old.settings node }
        ensures does { (link : LinkShown) → AnswersUp K.TELLS node (moment self.old (K.state keepers.old) link) result
            (moment self.new (K.state keepers.new) link) }
        ensures usable { StaysUsable K.TELLS (K.state keepers.old) (K.state keepers.new) self.old self.new }
    {
        if self.nodes.topology.is_up(node) {
            return health_said(HealthWord::Up, false);
        }
        match self.nodes.fleet.come_up(alloc, self.config, keepers, node) {
            Ok(()) => {
                let _ = self.nodes.topology.set_up(node, true);
                health_said(HealthWord::Up, true)
            }
            Err(refusal) => Reply::Refused(refused_as(refusal, keepers.faults())),
        }
    }

    /// A tier trusts a leader from now on, or suspects it. Where it did already, nothing changes.
    fn set_trust(&mut self, word: HealthWord, place: LeaderPlace, trusted: bool) -> Reply
        requires leader { IsPlacedLeader self.old.settings place }
        requires states { AreStatesOf self.old.settings self.old.states }
        ensures does { (keepers : KeeperState) (link : LinkShown) →
            AnswersTrust word trusted place (moment self.old keepers link) result (moment self.new keepers link) }
        ensures usable { (tells : Bool) (keepers : KeeperState) → IsCoreOf tells keepers.told self.old
            → StaysUsable tells keepers keepers self.old self.new }
    {
        let changed = self
            .nodes
            .topology
            .set_trust(place.region, place.tier, place.node, trusted);
        health_said(word, changed)
    }

    /// Does what is asked of the health of a node. Nothing changes where it is refused.
    ///
    /// Coming up costs one call of the keeper for each shard that the node serves; nothing else calls a keeper.
    pub(crate) fn perform_health<K: Keeper>(
        &mut self,
        alloc: Global,
        keepers: &mut K,
        asked: CheckedHealth,
    ) -> Reply
        requires keepers { IsCoreOf K.TELLS (K.state keepers.old).told self.old }
        requires can { IsPlacedHealth self.old.settings asked }
        ensures does { (link : LinkShown) → AnswersHealth K.TELLS asked (moment self.old (K.state keepers.old) link) result
            (moment self.new (K.state keepers.new) link) }
        ensures usable { StaysUsable K.TELLS (K.state keepers.old) (K.state keepers.new) self.old self.new }
    {
        match asked {
            CheckedHealth::Down { node } => self.go_down(alloc, node),
            CheckedHealth::Up { node } => self.come_up(alloc, keepers, node),
            CheckedHealth::Suspect(place) => self.set_trust(HealthWord::Suspect, place, false),
            CheckedHealth::Trust(place) => self.set_trust(HealthWord::Trust, place, true),
        }
    }
}
