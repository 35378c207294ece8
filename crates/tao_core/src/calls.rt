//! Calls: the plan of a call is begun, and carried out at once or held.
ghost use Rattle.std.specs.Prelude.{◌≡◌, ◌<◌, IfErr, IfOk, IsSomeAnd, None, true};
ghost use Rattle.core_model.specs.Pens.{pens_of};
ghost use Rattle.core_model.specs.Stores.{AreStores, store_count};
ghost use Rattle.core_plans.specs.Held.{IsOver, learnt_with, next_stage};
ghost use Rattle.core_plans.specs.declared.held.HeldPlan.TheVariants.{Read, Write};
ghost use Rattle.core_sessions.specs.Sessions.{Session, is_open, session_at, sessions_of};
ghost use Rattle.tao_base.specs.Queries.{query_shard};
ghost use Rattle.tao_core.specs.Asked.{CallCanBeDone};
ghost use Rattle.tao_core.specs.Calls.{LearnsBoth, answered_version};
ghost use Rattle.tao_core.specs.Core.{IsCoreOf, StaysUsable, author, moment};
ghost use Rattle.tao_core.specs.HeldCalls.{AnswersCall, BeginsAt, IsNotBegun, LearnsOf, plan_shard};
ghost use Rattle.tao_core.specs.HeldCalls.{MayLearn, MayLearnOf, begun_plan, call_session, call_shard, call_start};
ghost use Rattle.topology.specs.Config.{Settings};

use crate::refusals::no_server;
use crate::serving::Core;
use crate::teaching::{Reader, learn_both, learn_version, ready_reader};
use core_nodes::Fleet;
use core_plans::{EndedPlan, HeldPlan, begin_read, carry_read, carry_write};
use core_sessions::{CallStart, OpenSession, Sessions};
use core_steps::TierPlace;
use node_name::NodeName;
use read_plan::ReadPlan;
use replies::{CallReply, Reply};
use request_check::{CheckedCall, CheckedRead, CheckedWrite};
use store_replies::out_of_memory;
use tao_base::{Origin, OutOfMemory};
use tao_keeper::Keeper;
use tao_link::Link;
use topology::{Config, Topology};
use write_plan::WritePlan;

/// The session of a call.
fn call_session(call: &CheckedCall) -> u32
    ensures { result ≡ call_session call.now }
{
    match call {
        CheckedCall::Write(call) => call.session,
        CheckedCall::Read(call) => call.session,
    }
}

/// The shard of a call.
fn call_shard(call: &CheckedCall) -> u16
    ensures { result ≡ call_shard call.now }
{
    match call {
        CheckedCall::Write(call) => call.write.shard(),
        CheckedCall::Read(call) => call.query.shard(),
    }
}

/// Where a session's call begins: its place, and the version that the answer has at least, which for a read is its floor of its key.
fn call_start(sessions: &Sessions, seat: usize, call: &CheckedCall) -> CallStart
    requires { is_open (sessions_of sessions.now) (call_session call.now) ≡ true }
    ensures { IsSomeAnd (session_at (sessions_of sessions.now) (call_session call.now)) (λ s. result ≡ call_start call.now s) }
{
    match call {
        CheckedCall::Write(call) => CallStart {
            place: sessions.at(call.session, seat),
            floor: 0,
        },
        CheckedCall::Read(call) => match sessions.start(call.session, seat, call.query.key()) {
            Some(start) => start,
            None => unreachable!(),
        },
    }
}

/// Makes room for what the session of a write is to learn, before its first stage; that of a read gets ready before each stage that may answer
/// it. The one error is out of memory.
pub(crate) fn make_room(
    sessions: &mut Sessions,
    from: PlanStart,
    call: &CheckedCall,
) -> Result<(), OutOfMemory>
    requires { is_open (sessions_of sessions.old) (call_session call.now) ≡ true }
    ensures { sessions_of sessions.new ≡ sessions_of sessions.old }
{
    match call {
        CheckedCall::Write(call) => sessions.reserve(call.session, from.seat),
        CheckedCall::Read(_) => Ok(()),
    }
}

/// Where the plan of a call begins: where the call does, and at the follower that is chosen for it.
#[derive(Clone, Copy)]
pub(crate) struct PlanStart {
    start: CallStart,
    /// Where the session is looked for first.
    seat: usize,
    follower: NodeName,
}

/// The plan of a session's read, of which nothing is done.
fn begun_read(config: &Config, from: PlanStart, call: CheckedRead) -> ReadPlan
    ensures { (session : Session) → from.start ≡ call_start (CheckedCall.Read call) session
        → HeldPlan.Read result ≡ begun_plan config.now session from.follower (CheckedCall.Read call) }
{
    let PlanStart {
        start,
        follower,
        ..
    } = from;
    let OpenSession { region, tier, .. } = start.place;
    let of = TierPlace { region, tier };
    let mut plan = begin_read(config, call.query, of, start.floor, call.critical, follower);
    plan.set_reader(call.session);
    plan
}

/// The plan of a session's write, of which nothing is done.
fn begun_write(from: PlanStart, call: CheckedWrite) -> WritePlan
    ensures { (s : Settings) (session : Session) → from.start ≡ call_start (CheckedCall.Write call) session
        → HeldPlan.Write result ≡ begun_plan s session from.follower (CheckedCall.Write call) }
{
    let PlanStart {
        start,
        follower,
        ..
    } = from;
    let OpenSession { region, tier, .. } = start.place;
    let origin = call.origin();
    WritePlan::begin(call.write, origin, region, tier, follower)
}

/// The plan of a session's call, of which nothing is done.
pub(crate) fn begun_plan(config: &Config, from: PlanStart, call: CheckedCall) -> HeldPlan
    ensures { (session : Session) → from.start ≡ call_start call session → result ≡ begun_plan config.now session from.follower call }
{
    match call {
        CheckedCall::Write(call) => HeldPlan::Write(begun_write(from, call)),
        CheckedCall::Read(call) => HeldPlan::Read(begun_read(config, from, call)),
    }
}

/// Says where the plan of an open session's call begins. Where no follower can be chosen no plan begins, and the reply says so.
pub(crate) fn begin_plan(
    sessions: &Sessions,
    topology: &Topology,
    call: &CheckedCall,
) -> Result<PlanStart, Reply>
    requires open { is_open (sessions_of sessions.now) (call_session call.now) ≡ true }
    ensures begins { IfOk result (λ from. BeginsAt topology.now (sessions_of sessions.now) call.now from.start from.follower) }
    ensures refused { IfErr result (IsNotBegun topology.now (sessions_of sessions.now) call.now) }
{
    let seat = sessions.seat(call_session(call));
    let start = call_start(sessions, seat, call);
    let CallStart { place, .. } = start;
    let shard = call_shard(call);
    match topology.follower(place.region, place.tier, shard) {
        Some(follower) => Ok(PlanStart {
            start,
            seat,
            follower,
        }),
        None => Err(no_server(place.region)),
    }
}

/// The session of a client's write.
fn author(origin: Origin) -> u32
    ensures { result ≡ author origin }
{
    match origin {
        Origin::Client { session, .. } => session,
        Origin::Merge { .. } => 0,
    }
}

/// The reply of a write that is over. Its session learns what it wrote.
#[tactic(auto, using(crate::proofs::HeldLearning::learns_now))]
fn finish_write(sessions: &mut Sessions, plan: WritePlan) -> Reply
    requires over { next_stage (Write plan) ≡ None }
    requires may { MayLearnOf plan sessions.old }
    ensures over { IsOver (Write plan) result }
    ensures learns { LearnsBoth (author plan.origin) (learnt_with result (Write plan)) (sessions_of sessions.old) (sessions_of sessions.new) }
{
    let session = author(plan.origin());
    let EndedPlan { reply, learnt } = HeldPlan::Write(plan).finish();
    learn_both(sessions, session, learnt);
    reply
}

/// The version that a reply answers a read with; none where it is no such reply.
fn answered_version(reply: &Reply) -> Option<u64>
    ensures { result ≡ answered_version reply.now }
{
    match reply {
        Reply::Called(CallReply::Read(reply)) => Some(reply.version),
        _ => None,
    }
}

/// The reply of a read that is over. Its session learns which version that answers.
fn finish_read(
    sessions: &mut Sessions,
    fleet: &mut Fleet,
    config: &Config,
    reader: Option<Reader>,
    plan: ReadPlan,
) -> Reply
    requires over { next_stage (Read plan) ≡ None }
    requires stores { AreStores config.now (store_count config.now) fleet.old.stores }
    requires here { query_shard plan.query < config.now.shards }
    requires may { MayLearn (pens_of fleet.old.stores) (Read plan) reader sessions.old }
    ensures over { IsOver (Read plan) result }
    ensures learns { LearnsOf (pens_of fleet.old.stores) (Read plan) result (sessions_of sessions.old) (sessions_of sessions.new) }
    ensures fleet { fleet.new ≡ fleet.old }
{
    let key = plan.query().key();
    let reply = plan.finish();
    match answered_version(&reply) {
        Some(version) => learn_version(sessions, fleet, config, reader, key, version),
        None => drop(reader),
    }
    reply
}

/// The reply of a plan that is over. Its session learns of a write what that wrote, and of a read which version it answers.
pub(crate) fn finish_plan(
    sessions: &mut Sessions,
    fleet: &mut Fleet,
    config: &Config,
    reader: Option<Reader>,
    plan: HeldPlan,
) -> Reply
    requires over { next_stage plan ≡ None }
    requires stores { AreStores config.now (store_count config.now) fleet.old.stores }
    requires here { plan_shard plan < config.now.shards }
    requires may { MayLearn (pens_of fleet.old.stores) plan reader sessions.old }
    ensures over { IsOver plan result }
    ensures learns { LearnsOf (pens_of fleet.old.stores) plan result (sessions_of sessions.old) (sessions_of sessions.new) }
    ensures fleet { fleet.new ≡ fleet.old }
{
    match plan {
        HeldPlan::Read(plan) => finish_read(sessions, fleet, config, reader, plan),
        HeldPlan::Write(plan) => {
            drop(reader);
            finish_write(sessions, plan)
        }
    }
}

impl<'c> Core<'c> {
    /// Answers a session's read: once all memory is there with which its session learns which version it answers, its plan does all of its
    /// stages.
    fn answer_read<K: Keeper, L: Link>(
        &mut self,
        keepers: &mut K,
        link: &mut L,
        from: PlanStart,
        call: CheckedRead,
    ) -> Reply
        requires keepers { IsCoreOf K.TELLS (K.state keepers.old).told self.old }
        requires can { CallCanBeDone self.old.settings self.old.sessions (CheckedCall.Read call) }
        requires begins { BeginsAt self.old.states self.old.sessions (CheckedCall.Read call) from.start from.follower }
        ensures does { AnswersCall K.TELLS (CheckedCall.Read call) (moment self.old (K.state keepers.old) (L.shown link.old)) result
            (moment self.new (K.state keepers.new) (L.shown link.new)) }
        ensures usable { StaysUsable K.TELLS (K.state keepers.old) (K.state keepers.new) self.old self.new }
    {
        let ready = ready_reader(
            &mut self.sessions,
            &mut self.nodes.fleet,
            self.config,
            call.session,
            from.seat,
            call.query.shard(),
        );
        match ready {
            Ok(reader) => {
                let mut plan = begun_read(self.config, from, call);
                carry_read(&mut self.nodes, self.config, keepers, link, &mut plan);
                finish_read(
                    &mut self.sessions,
                    &mut self.nodes.fleet,
                    self.config,
                    Some(reader),
                    plan,
                )
            }
            Err(OutOfMemory) => {
                drop(call);
                out_of_memory()
            }
        }
    }

    /// Answers a session's write: once there is room for what its session is to learn, its plan does all of its stages.
    fn answer_write<K: Keeper, L: Link>(
        &mut self,
        keepers: &mut K,
        link: &mut L,
        from: PlanStart,
        call: CheckedWrite,
    ) -> Reply
        requires keepers { IsCoreOf K.TELLS (K.state keepers.old).told self.old }
        requires can { CallCanBeDone self.old.settings self.old.sessions (CheckedCall.Write call) }
        requires begins { BeginsAt self.old.states self.old.sessions (CheckedCall.Write call) from.start from.follower }
        ensures does { AnswersCall K.TELLS (CheckedCall.Write call) (moment self.old (K.state keepers.old) (L.shown link.old)) result
            (moment self.new (K.state keepers.new) (L.shown link.new)) }
        ensures usable { StaysUsable K.TELLS (K.state keepers.old) (K.state keepers.new) self.old self.new }
    {
        match self.sessions.reserve(call.session, from.seat) {
            Ok(()) => {
                let mut plan = begun_write(from, call);
                carry_write(&mut self.nodes, self.config, keepers, link, &mut plan);
                finish_write(&mut self.sessions, plan)
            }
            Err(OutOfMemory) => {
                drop(call);
                out_of_memory()
            }
        }
    }

    /// Answers a session's call: its plan does all of its stages, and its session learns of it by the reply.
    pub(crate) fn answer<K: Keeper, L: Link>(
        &mut self,
        keepers: &mut K,
        link: &mut L,
        call: CheckedCall,
    ) -> Reply
        requires keepers { IsCoreOf K.TELLS (K.state keepers.old).told self.old }
        requires can { CallCanBeDone self.old.settings self.old.sessions call }
        ensures does { AnswersCall K.TELLS call (moment self.old (K.state keepers.old) (L.shown link.old)) result
            (moment self.new (K.state keepers.new) (L.shown link.new)) }
        ensures usable { StaysUsable K.TELLS (K.state keepers.old) (K.state keepers.new) self.old self.new }
    {
        let from = match begin_plan(&self.sessions, &self.nodes.topology, &call) {
            Ok(from) => from,
            Err(reply) => {
                drop(call);
                return reply;
            }
        };
        match call {
            CheckedCall::Read(call) => self.answer_read(keepers, link, from, call),
            CheckedCall::Write(call) => self.answer_write(keepers, link, from, call),
        }
    }
}
