//! The core.
ghost use Rattle.std.specs.Prelude.{◌≡◌, ◌<◌, Bool, Ok, IfOk, IfErr, if◌then◌else◌, false, length, option_copied};
ghost use Rattle.core_nodes.specs.Shown.{IsHeldAt};
ghost use Rattle.core_nodes.specs.Opening.{IsOpened, MayOpen, RefusesOpening};
ghost use Rattle.graph_model.specs.Told.{WhereTold};
ghost use Rattle.tao_core.specs.Asked.{CanBeDone};
ghost use Rattle.tao_core.specs.Core.{IsConsistentCore, IsCoreOf, IsNewCore, StaysHeld, StaysUsable, moment};
ghost use Rattle.tao_core.specs.Opened.{AreAsBefore};
ghost use Rattle.core_nodes.specs.Beginning.{AreAtStores};
ghost use Rattle.core_model.specs.Stores.{AreStores, store_count};
ghost use Rattle.core_model.specs.Consistent.{IsFleetOf};
ghost use Rattle.core_model.specs.Evictions.{IsCacheOf};
ghost use Rattle.tao_core.specs.CacheReplies.{AnswersEvict};
ghost use Rattle.tao_core.specs.Deliveries.{SaysMark};
ghost use Rattle.tao_core.specs.Replies.{AnswersAsked, AnswersOpen, AnswersRequest};
ghost use Rattle.tao_keeper.specs.KeeperState.{KeeperState};
ghost use Rattle.tao_link.specs.Shown.{LinkShown};
ghost use Rattle.core_sessions.specs.Sessions.{is_open, session_at};
ghost use Rattle.session_pass.specs.Floors.{floor_at};
ghost use Rattle.std.specs.Option.{option_map};
ghost use Rattle.tao_keeper.specs.Growing.{LogsGrow};
ghost use Rattle.tao_keeper.specs.Table.{Tables};
ghost use Rattle.tao_keeper.specs.KeeperState.{IsLater};
ghost use Rattle.topology.specs.States.{is_up};

use crate::links::perform_link;
use crate::resolving::resolve;
use cache_items::Item;
use core_mail::Mail;
use core_model::masters_are_regions;
use core_nodes::Fleet;
use core_plans::HeldPlans;
use core_sessions::{OpenSession, Sessions};
use core_steps::Nodes;
use node_name::NodeName;
use replies::{CacheReply, NodeReply, OpenRefusal, Reply};
use request_check::Checked;
use requests::Request;
use std::alloc::Global;
use std::marker::Model;
use store_replies::out_of_memory;
use tao_base::{Key, OutOfMemory};
use tao_keeper::Keeper;
use tao_link::Link;
use topology::{Config, Topology};

/// The core of a run: its configuration, the sessions that are open with what they have learnt, which nodes are up, the messages that
/// wait, the calls that are held, and the nodes: followers, leaders, and the stores of the shards. What the stores hold lies with the
/// keepers that each call is given.
#[derive(Drop)]
pub struct Core<'c> {
    pub(crate) config: &'c Config,
    pub(crate) sessions: Sessions,
    pub(crate) nodes: Nodes,
    pub(crate) plans: HeldPlans,
}

impl<'c> Model for Core<'c> {
    ghost use Rattle.tao_core.specs.Core.{CoreState, core_state};

    ghost Value = { CoreState };

    ghost view = { core_state };
}

impl<'c> Core<'c> {
    /// Opens the stores of each region and shard with the configuration's line, in order, and makes the nodes before them. Each is up, holds
    /// nothing yet, and has processed all that the stores of its region have; no message waits for it. No session is open then. Where every
    /// store takes the line, the logs are sound, and what is missing at the other end of an edge is owed by an open job.
    ///
    /// The logs and the open jobs are those that the keepers tell, whatever comes of it: so each write that an earlier run acknowledged stands
    /// at its position, however that run ended.
    ///
    /// `OtherLine` comes exactly where a store was first opened with another line: the stores before it
    /// are open then. `KeeperFault` comes only where the keepers' count of faults rose, and
    /// `OutOfMemory` where there was no memory; some of the first stores are open then.
    ///
    /// Costs four calls of the keeper for each store, and one for each entry that a log has.
    pub fn open<K: Keeper>(
        alloc: Global,
        config: &'c Config,
        line: &[u8],
        keepers: &mut K,
    ) -> Result<Core<'c>, OpenRefusal>
        requires kept { WhereTold K.TELLS (MayOpen config.now line.now (K.state keepers.old).told) }
        ensures settings { IfOk result (λ core. core.settings ≡ config.now) }
        ensures begun { IfOk result IsNewCore }
        ensures opened { IfOk result (λ core. WhereTold K.TELLS (IsOpened config.now line.now (K.state keepers.old).told (K.state keepers.new).told)) }
        ensures keepers { IfOk result (λ core. IsCoreOf K.TELLS (K.state keepers.new).told core) }
        ensures ends { IfOk result (λ core. WhereTold K.TELLS (AreAtStores (K.state keepers.new).told core.fleet)) }
        ensures refused { IfErr result (RefusesOpening K.TELLS config.now line.now (K.state keepers.old) (K.state keepers.new)) }
        ensures as_before { WhereTold K.TELLS (AreAsBefore (K.state keepers.old).told (K.state keepers.new).told) }
        ensures grows { LogsGrow K.TELLS (K.state keepers.old).told (K.state keepers.new).told }
        ensures later { IsLater (K.state keepers.old) (K.state keepers.new) }
    {
        masters_are_regions(config);
        let fleet = Fleet::open(alloc, config, line, keepers)?;
        let Ok(topology) = Topology::make(alloc, config) else {
            return Err(OpenRefusal::OutOfMemory);
        };
        match Mail::open(alloc, config) {
            Ok(mail) => Ok(Core {
                config,
                sessions: Sessions::new(alloc),
                nodes: Nodes {
                    alloc,
                    fleet,
                    mail,
                    topology,
                },
                plans: HeldPlans::new(alloc),
            }),
            Err(OutOfMemory) => Err(OpenRefusal::OutOfMemory),
        }
    }

    /// Answers a request: opens a session, makes a write, answers a read or an audit, does a stage of a held call, delivers a message,
    /// drops an item of a node, puts a node down or up, lets a tier suspect or trust a leader, cuts or mends a link, streams an entry, trims a
    /// log, runs a job, or settles; or refuses it. A write's one entry is committed before it is answered, and its session learns it with the
    /// answer. After a refusal no log has changed, but where it tells the position of a write that stands, and but for the jobs that a repair or
    /// a settle had merged. Logs only grow.
    ///
    /// Costs what `request_check::check` does, a binary search among the open sessions, a look-up at the follower, and where that
    /// holds nothing that answers, what its leader takes. An audit takes the whole log of its shard; what a settle takes is said at
    /// [`Core::settle`].
    pub fn call<K: Keeper, L: Link>(
        &mut self,
        alloc: Global,
        keepers: &mut K,
        link: &mut L,
        request: &Request,
    ) -> Reply
        requires keepers { IsCoreOf K.TELLS (K.state keepers.old).told self.old }
        ensures does { AnswersRequest K.TELLS (moment self.old (K.state keepers.old) (L.shown link.old)) request.now result
            (moment self.new (K.state keepers.new) (L.shown link.new)) }
        ensures usable { StaysUsable K.TELLS (K.state keepers.old) (K.state keepers.new) self.old self.new }
    {
        match resolve(alloc, self.config, &self.sessions, &self.plans, request) {
            Ok(asked) => self.perform(alloc, keepers, link, asked),
            Err(refusal) => refusal.into_reply(),
        }
    }

    /// Does what the request asks, which can be done.
    fn perform<K: Keeper, L: Link>(
        &mut self,
        alloc: Global,
        keepers: &mut K,
        link: &mut L,
        asked: Checked,
    ) -> Reply
        requires keepers { IsCoreOf K.TELLS (K.state keepers.old).told self.old }
        requires can { CanBeDone self.old.settings self.old.sessions self.old.plans asked }
        ensures does { AnswersAsked K.TELLS (moment self.old (K.state keepers.old) (L.shown link.old)) (Ok asked) result
            (moment self.new (K.state keepers.new) (L.shown link.new)) }
        ensures usable { StaysUsable K.TELLS (K.state keepers.old) (K.state keepers.new) self.old self.new }
    {
        match asked {
            Checked::Open {
                session,
                region,
                tier,
            } => {
                let opened = OpenSession {
                    session,
                    region,
                    tier,
                };
                self.open_session(alloc, opened)
            }
            Checked::Call(call) => self.answer(keepers, link, call),
            Checked::Plan(asked) => self.perform_plan(keepers, link, asked),
            Checked::Cache(asked) => self.perform_cache(alloc, keepers, link, asked),
            Checked::Store(asked) => self.perform_store(alloc, keepers, link, asked),
            Checked::Health(asked) => self.perform_health(alloc, keepers, asked),
            Checked::Link(asked) => perform_link(link, asked),
        }
    }

    /// The item that a leader or follower holds at the key. None exactly where the name is none of theirs, or the node holds no item
    /// there. A look among at most 80 names, and a look-up.
    pub fn item(&self, node: NodeName, key: Key) -> Option<&Item>
        ensures { IsHeldAt self.now.fleet node key (option_copied result) }
    {
        self.nodes.fleet.item(node, key)
    }

    /// The low-water mark of a leader or follower for the shard, up to which it has processed the shard's log; 0 where it doesn't serve
    /// the shard, or is down. None exactly where the name is none of theirs.
    pub fn mark(&self, node: NodeName, shard: u16) -> Option<u64>
        ensures { SaysMark self.now node shard result }
    {
        let low = self.nodes.fleet.mark(node, shard)?;
        Some(mark_said(&self.nodes.topology, node, low))
    }

    /// The version that a session's reads of the key have at least: the greatest that its writes which were carried out gave the key. None
    /// exactly where the session isn't open. A binary search, and a look-up.
    pub fn floor(&self, session: u32, key: Key) -> Option<u64>
        ensures { result ≡ option_map (λ s. floor_at s.floors key) (session_at self.now.sessions session) }
    {
        self.sessions.floor(session, key)
    }

    /// Opens a session, with a note of each shard's log.
    fn open_session(&mut self, alloc: Global, opened: OpenSession) -> Reply
        requires stores { AreStores self.old.settings (store_count self.old.settings) self.old.fleet.stores }
        requires new { is_open self.old.sessions opened.session ≡ false }
        requires region { opened.region < length self.old.settings.regions }
        ensures does { AnswersOpen opened self.old.sessions result self.new.sessions }
        ensures keepers { (tells : Bool) (tables : Tables) → IsConsistentCore tells tables self.old → IsConsistentCore tells tables self.new }
        ensures rest { self.new ≡ record self.old { sessions = self.new.sessions } }
    {
        let Ok(notes) = self.nodes.fleet.notes(alloc, self.config) else {
            return out_of_memory();
        };
        let session = opened.session;
        match self.sessions.add(alloc, opened, notes) {
            Ok(()) => Reply::Opened { session },
            Err(OutOfMemory) => out_of_memory(),
        }
    }

    /// Drops an item of a cache node.
    pub(crate) fn evict(&mut self, node: NodeName, key: Option<Key>) -> Reply
        requires fleet { IsFleetOf self.old.settings self.old.fleet }
        requires node { IsCacheOf self.old.settings node }
        ensures does { (keepers : KeeperState) (link : LinkShown) →
            AnswersEvict node key (moment self.old keepers link) result (moment self.new keepers link) }
        ensures fleet { IsFleetOf self.old.settings self.new.fleet }
        ensures on { StaysHeld self.old.fleet self.new.fleet }
        ensures rest { self.new ≡ record self.old { fleet = self.new.fleet } }
    {
        let evicted = self.nodes.fleet.evict(self.config, node, key);
        Reply::Node(NodeReply::Cache(CacheReply::Evicted { evicted }))
    }
}

/// What is said of the mark of a node, of which this is the low-water mark.
pub(crate) fn mark_said(topology: &Topology, node: NodeName, low: u64) -> u64
    ensures { result ≡ (if is_up topology.now node then low else 0) }
{
    if topology.is_up(node) { low } else { 0 }
}
