//! What a follower is given that could not answer: by a leader or its region's store, or by the master's store.
ghost use Rattle.std.specs.Prelude.{ℕ, ◌≡◌, ◌<◌, IfErr, IfOk, OnErr, OnOk};
ghost use Rattle.core_model.specs.Asked.{lent_read};
ghost use Rattle.core_model.specs.Consistent.{GoesOn, IsConsistent};
ghost use Rattle.core_model.specs.Fleet.{ChangesNode};
ghost use Rattle.core_model.specs.Pens.{pens_of};
ghost use Rattle.core_model.specs.Reads.{IsGivenAnswer, LeaderAnswers, StoreAnswers, StoreReads, given_of, store_calls, wanted};
ghost use Rattle.core_model.specs.Serving.{IsLeaderFor};
ghost use Rattle.core_model.specs.Stores.{IsConfiguredStore, region_store};
ghost use Rattle.core_steps.specs.ReadSteps.{AskFails, IsGivenOver, IsNotGiven, IsNotRead, IsReached, IsReadOver, ReadsOn};
ghost use Rattle.core_steps.specs.Reads.{AnswersThere, MayBeAsked, leader_calls, master_calls};
ghost use Rattle.core_steps.specs.Routes.{FailsCarry};
ghost use Rattle.core_steps.specs.World.{world};
ghost use Rattle.tao_base.specs.Queries.{query_shard};
ghost use Rattle.tao_keeper.specs.KeeperState.{IsLater, KeepsTables};
ghost use Rattle.tao_link.specs.Shown.{after_carry};
ghost use Rattle.tao_schema.specs.Schema.{types_of};

use crate::nodes::Nodes;
use crate::routes::{Route, carry};
use core_model::leader_tier::at_floor;
use core_model::{Wanted, master_of, masters_are_regions};
use core_nodes::master_store;
use node_name::NodeName;
use replies::{Refusal, StoreRefused, When};
use shard_tables::{LeaderAnswer, ReadOut};
use store_replies::{link_fault, refused_as};
use tao_base::Query;
use tao_keeper::Keeper;
use tao_link::{Link, LinkFailed};
use topology::Config;

/// A carry, of which a refusal says that it failed.
pub(crate) fn carried<L: Link>(link: &mut L, from: NodeName, to: NodeName) -> Result<(), Refusal>
    ensures ok { OnOk result (L.shown link.new ≡ after_carry (L.shown link.old)) }
    ensures fails { IfErr result (λ _. FailsCarry from to (L.shown link.old) (L.shown link.new)) }
    ensures refusal { IfErr result (λ refusal. refusal ≡ Refusal.Store (StoreRefused.LinkFault (L.shown link.new).faults When.Before)) }
{
    match carry(link, from, to) {
        Ok(()) => Ok(()),
        Err(LinkFailed) => Err(link_fault(link.faults(), When::Before)),
    }
}

impl Nodes {
    /// What a region's store gives in the place of a leader that may not be asked.
    fn asked_of_store<K: Keeper>(
        &mut self,
        config: &Config,
        keepers: &mut K,
        region: u16,
        read: &Wanted<'_>,
    ) -> Result<LeaderAnswer, Refusal>
        requires consistent { IsConsistent K.TELLS config.now (K.state keepers.old).told self.old.fleet }
        requires here { IsConfiguredStore config.now (region_store region (query_shard read.now.query.now)) }
        ensures answers { IfOk result (λ given. StoreAnswers (types_of config.now.schema) (lent_read read.now) given
            (store_calls region self.old.fleet.stores (K.state keepers.old) (K.state keepers.new))) }
        ensures given { IfOk result (IsGivenAnswer (types_of config.now.schema) (pens_of self.new.fleet.stores) (lent_read read.now)) }
        ensures err { IfErr result (λ refusal. AskFails refusal (K.state keepers.old) (K.state keepers.new)) }
        ensures same { self.new ≡ self.old }
        ensures consistent { IsConsistent K.TELLS config.now (K.state keepers.new).told self.new.fleet }
        ensures tables { KeepsTables K.TELLS (K.state keepers.old) (K.state keepers.new) }
        ensures later { IsLater (K.state keepers.old) (K.state keepers.new) }
    {
        match self
            .fleet
            .read_store(self.alloc, config, keepers, region, read.query)
        {
            Ok(out) => Ok(at_floor(read.floor, out)),
            Err(refusal) => Err(refused_as(refusal, keepers.faults())),
        }
    }

    /// What a leader gives.
    fn asked_of_leader<K: Keeper>(
        &mut self,
        config: &Config,
        keepers: &mut K,
        leader: NodeName,
        read: &Wanted<'_>,
    ) -> Result<LeaderAnswer, Refusal>
        requires consistent { IsConsistent K.TELLS config.now (K.state keepers.old).told self.old.fleet }
        requires leader { IsLeaderFor config.now (query_shard read.now.query.now) leader }
        ensures answers { IfOk result (λ given. ChangesNode leader
            (LeaderAnswers (types_of config.now.schema) (lent_read read.now) given
            (leader_calls leader self.old.fleet.stores (K.state keepers.old) (K.state keepers.new)))
            self.old.fleet.leaders self.new.fleet.leaders) }
        ensures rest { self.new ≡ record self.old { fleet = record self.old.fleet { leaders = self.new.fleet.leaders } } }
        ensures given { IfOk result (IsGivenAnswer (types_of config.now.schema) (pens_of self.new.fleet.stores) (lent_read read.now)) }
        ensures err { IfErr result (λ refusal. AskFails refusal (K.state keepers.old) (K.state keepers.new)) }
        ensures same { OnErr result (self.new ≡ self.old) }
        ensures consistent { IsConsistent K.TELLS config.now (K.state keepers.new).told self.new.fleet }
        ensures goes { GoesOn self.old.fleet self.new.fleet }
        ensures tables { KeepsTables K.TELLS (K.state keepers.old) (K.state keepers.new) }
        ensures later { IsLater (K.state keepers.old) (K.state keepers.new) }
    {
        match self.fleet.ask(self.alloc, config, keepers, leader, read) {
            Ok(given) => Ok(given),
            Err(refusal) => Err(refused_as(refusal, keepers.faults())),
        }
    }

    /// What the node gives that is asked.
    fn asked<K: Keeper, L: Link>(
        &mut self,
        config: &Config,
        keepers: &mut K,
        link: &L,
        node: NodeName,
        read: &Wanted<'_>,
    ) -> Result<LeaderAnswer, Refusal>
        requires consistent { IsConsistent K.TELLS config.now (K.state keepers.old).told self.old.fleet }
        requires node { MayBeAsked config.now (query_shard read.now.query.now) node }
        ensures answers { IfOk result (λ given. AnswersThere (types_of config.now.schema) node (lent_read read.now) given
            (world self.old (K.state keepers.old) (L.shown link.now)) (world self.new (K.state keepers.new) (L.shown link.now))) }
        ensures rest { self.new ≡ record self.old { fleet = record self.old.fleet { leaders = self.new.fleet.leaders } } }
        ensures given { IfOk result (IsGivenAnswer (types_of config.now.schema) (pens_of self.new.fleet.stores) (lent_read read.now)) }
        ensures err { IfErr result (λ refusal. AskFails refusal (K.state keepers.old) (K.state keepers.new)) }
        ensures same { OnErr result (self.new ≡ self.old) }
        ensures consistent { IsConsistent K.TELLS config.now (K.state keepers.new).told self.new.fleet }
        ensures goes { GoesOn self.old.fleet self.new.fleet }
        ensures tables { KeepsTables K.TELLS (K.state keepers.old) (K.state keepers.new) }
        ensures later { IsLater (K.state keepers.old) (K.state keepers.new) }
    {
        match node {
            NodeName::Leader { .. } => self.asked_of_leader(config, keepers, node, read),
            NodeName::Store(at) => self.asked_of_store(config, keepers, at.region, read),
            NodeName::Follower { .. } => unreachable!(),
        }
    }

    /// The stage `ask` of a read: its question is carried to a leader, which answers of an item of its own or of its region's store, or where no leader
    /// may be asked to that store itself, and what it gives is carried back. An answer below the read's floor is answered as `Behind`.
    ///
    /// `LinkFault` comes only where the link's count of faults rose at one of the two carries, `KeeperFault` only where the keepers' rose,
    /// and `Memory` where there was none. Costs what `Leader::answer` or `StoreNode::read` does.
    pub fn ask_over<K: Keeper, L: Link>(
        &mut self,
        config: &Config,
        keepers: &mut K,
        link: &mut L,
        route: Route,
        read: &Wanted<'_>,
    ) -> Result<LeaderAnswer, Refusal>
        requires consistent { IsConsistent K.TELLS config.now (K.state keepers.old).told self.old.fleet }
        requires leader { MayBeAsked config.now (query_shard read.now.query.now) route.leader }
        ensures given { IfOk result (λ given. IsGivenOver config.now route (lent_read read.now) given
            (world self.old (K.state keepers.old) (L.shown link.old)) (world self.new (K.state keepers.new) (L.shown link.new))) }
        ensures err { IfErr result (λ refusal. IsNotGiven config.now route (lent_read read.now) refusal
            (world self.old (K.state keepers.old) (L.shown link.old)) (world self.new (K.state keepers.new) (L.shown link.new))) }
        ensures on { ReadsOn K.TELLS config.now (world self.old (K.state keepers.old) (L.shown link.old))
            (world self.new (K.state keepers.new) (L.shown link.new)) }
    {
        let Route { follower, leader } = route;
        carried(link, follower, leader)?;
        let given = self.asked(config, keepers, link, leader, read)?;
        carried(link, leader, follower)?;
        Ok(given)
    }

    /// What the master's store reads.
    fn mastered<K: Keeper>(
        &mut self,
        config: &Config,
        keepers: &mut K,
        query: &Query,
    ) -> Result<ReadOut, Refusal>
        requires consistent { IsConsistent K.TELLS config.now (K.state keepers.old).told self.old.fleet }
        requires here { query_shard query.now < config.now.shards }
        ensures reads { IfOk result (λ out.
            StoreReads (types_of config.now.schema) query.now out
            (master_calls config.now query.now self.old.fleet.stores (K.state keepers.old) (K.state keepers.new))) }
        ensures given { IfOk result (λ out. (floor : ℕ) → IsReached K.TELLS config.now (wanted query.now floor) (K.state keepers.old)
            → IsGivenAnswer (types_of config.now.schema) (pens_of self.new.fleet.stores) (wanted query.now floor) (given_of out)) }
        ensures err { IfErr result (λ refusal. AskFails refusal (K.state keepers.old) (K.state keepers.new)) }
        ensures same { self.new ≡ self.old }
        ensures consistent { IsConsistent K.TELLS config.now (K.state keepers.new).told self.new.fleet }
        ensures tables { KeepsTables K.TELLS (K.state keepers.old) (K.state keepers.new) }
        ensures later { IsLater (K.state keepers.old) (K.state keepers.new) }
    {
        masters_are_regions(config);
        let region = master_of(config, query.shard());
        match self
            .fleet
            .read_store(self.alloc, config, keepers, region, query)
        {
            Ok(out) => Ok(out),
            Err(refusal) => Err(refused_as(refusal, keepers.faults())),
        }
    }

    /// The stage `master` of a read: its question is carried from the follower to the shard's master store, which answers from all that
    /// it has, and what it reads is carried back. Where the log is told, that has each floor that the log has come to.
    ///
    /// Refused as `ask_over` is. Costs what `StoreNode::read` does.
    pub fn read_over<K: Keeper, L: Link>(
        &mut self,
        config: &Config,
        keepers: &mut K,
        link: &mut L,
        follower: NodeName,
        query: &Query,
    ) -> Result<ReadOut, Refusal>
        requires consistent { IsConsistent K.TELLS config.now (K.state keepers.old).told self.old.fleet }
        requires here { query_shard query.now < config.now.shards }
        ensures read { IfOk result (λ out. IsReadOver K.TELLS config.now query.now out
            (world self.old (K.state keepers.old) (L.shown link.old)) (world self.new (K.state keepers.new) (L.shown link.new))) }
        ensures err { IfErr result (λ refusal. IsNotRead config.now follower query.now refusal
            (world self.old (K.state keepers.old) (L.shown link.old)) (world self.new (K.state keepers.new) (L.shown link.new))) }
        ensures on { ReadsOn K.TELLS config.now (world self.old (K.state keepers.old) (L.shown link.old))
            (world self.new (K.state keepers.new) (L.shown link.new)) }
    {
        let store = NodeName::Store(master_store(config, query.shard()));
        carried(link, follower, store)?;
        let out = self.mastered(config, keepers, query)?;
        carried(link, store, follower)?;
        Ok(out)
    }
}
