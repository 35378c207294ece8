//! Calls that are held, and go stage by stage.
ghost use Rattle.std.specs.Prelude.{◌≡◌, ◌<◌, IfOk, IfSome, IsSome, None, OnErr, option_and_then};
ghost use Rattle.core_model.specs.Pens.{pens_of};
ghost use Rattle.core_model.specs.Stores.{AreStores, store_count};
ghost use Rattle.core_plans.specs.Held.{CanStep, IsUnderWay, OpensFirst, learner, plan_at};
ghost use Rattle.core_plans.specs.LedBy.{rules_of};
ghost use Rattle.core_sessions.specs.Sessions.{sessions_of};
ghost use Rattle.core_steps.specs.Posting.{CanPost, PostsOn};
ghost use Rattle.core_steps.specs.World.{world};
ghost use Rattle.tao_core.specs.Asked.{CallCanBeDone, PlanCanBeDone};
ghost use Rattle.tao_core.specs.Core.{IsCoreOf, IsOfSession, StaysUsable, moment};
ghost use Rattle.tao_core.specs.HeldCalls.{AdvancesPlan, AnswersHold, AnswersPlan, EndsPlan, HasRoomFor, IsReady, MayLearn, StepsAt};
ghost use Rattle.tao_core.specs.HeldCalls.{held_seen, next_at, numbered_reply, plan_shard};

use crate::calls::{begin_plan, begun_plan, finish_plan, make_room};
use crate::serving::Core;
use crate::teaching::{Reader, ready_reader};
use core_nodes::Fleet;
use core_plans::{HeldPlan, HeldPlans};
use core_sessions::Sessions;
use core_steps::Nodes;
use replies::{PlanReply, Reply, Stage};
use request_check::{CheckedCall, CheckedPlan};
use store_replies::out_of_memory;
use tao_base::OutOfMemory;
use tao_keeper::Keeper;
use tao_link::Link;
use topology::Config;
use words::PlanWord;

/// The reply of a plan that is over.
fn with_number(number: u32, reply: Reply) -> Reply
    ensures { result ≡ numbered_reply number reply }
{
    match reply {
        Reply::Called(reply) => Reply::Plan(PlanReply::Ended {
            plan: number,
            reply,
        }),
        other => other,
    }
}

/// The stage of a held plan that follows.
fn next_at(plans: &HeldPlans, number: u32) -> Option<Stage>
    ensures { result ≡ next_at plans.now number }
{
    plans.at(number)?.next()
}

/// A stage of a held plan that is due: the configuration by which it is done, and the plan's number.
#[derive(Clone, Copy)]
struct DueStage<'c> {
    config: &'c Config,
    number: u32,
}

/// Takes a plan that is over out, and its session learns of it by its reply.
fn end_plan(
    plans: &mut HeldPlans,
    sessions: &mut Sessions,
    fleet: &mut Fleet,
    due: &DueStage<'_>,
    reader: Option<Reader>,
) -> Reply
    requires there { IsSome (plan_at plans.old due.now.number) }
    requires over { next_at plans.old due.now.number ≡ None }
    requires stores { AreStores due.now.config.now (store_count due.now.config.now) fleet.old.stores }
    requires here { IfSome (plan_at plans.old due.now.number) (λ plan. plan_shard plan < due.now.config.now.shards) }
    requires may { IfSome (plan_at plans.old due.now.number) (λ plan. MayLearn (pens_of fleet.old.stores) plan reader sessions.old) }
    ensures ends { IfSome (plan_at plans.old due.now.number) (λ plan. EndsPlan due.now.number plan
        (held_seen plans.old (sessions_of sessions.old) (pens_of fleet.old.stores)) result
        (held_seen plans.new (sessions_of sessions.new) (pens_of fleet.new.stores))) }
    ensures fleet { fleet.new ≡ fleet.old }
{
    match plans.take(due.number) {
        Some(plan) => {
            let reply = finish_plan(sessions, fleet, due.config, reader, plan);
            with_number(due.number, reply)
        }
        None => unreachable!(),
    }
}

/// Gets the session of a plan ready to learn of it, before a stage that may be its last. None for a write, which has the notes that its session
/// learns with, and where the stage is not the last. The one error is out of memory.
fn ready_for_last(
    sessions: &mut Sessions,
    fleet: &mut Fleet,
    config: &Config,
    plan: &HeldPlan,
) -> Result<Option<Reader>, OutOfMemory>
    requires author { IsOfSession (sessions_of sessions.old) plan.now }
    requires stores { AreStores config.now (store_count config.now) fleet.old.stores }
    requires here { plan_shard plan.now < config.now.shards }
    ensures ready { IfOk result (λ reader. IsReady (pens_of fleet.old.stores) plan.now reader sessions.new) }
    ensures learner { OnErr result (IsSome (learner plan.now)) }
    ensures sessions { sessions_of sessions.new ≡ sessions_of sessions.old }
    ensures fleet { fleet.new ≡ fleet.old }
{
    let Some(session) = plan.learner() else {
        return Ok(None);
    };
    let seat = sessions.seat(session);
    match plan {
        HeldPlan::Read(plan) => {
            let shard = plan.query().shard();
            let reader = ready_reader(sessions, fleet, config, session, seat, shard)?;
            Ok(Some(reader))
        }
        HeldPlan::Write(_) => {
            sessions.reserve(session, seat)?;
            Ok(None)
        }
    }
}

/// Gets the session of the plan of that number ready to learn of it.
fn ready_at(
    plans: &HeldPlans,
    sessions: &mut Sessions,
    fleet: &mut Fleet,
    due: &DueStage<'_>,
) -> Result<Option<Reader>, OutOfMemory>
    requires there { IsSome (plan_at plans.now due.now.number) }
    requires author { IfSome (plan_at plans.now due.now.number) (IsOfSession (sessions_of sessions.old)) }
    requires stores { AreStores due.now.config.now (store_count due.now.config.now) fleet.old.stores }
    requires here { IfSome (plan_at plans.now due.now.number) (λ plan. plan_shard plan < due.now.config.now.shards) }
    ensures ready { IfOk result (λ reader. IfSome (plan_at plans.now due.now.number) (λ plan.
        IsReady (pens_of fleet.old.stores) plan reader sessions.new)) }
    ensures learner { OnErr result (IsSome (option_and_then learner (plan_at plans.now due.now.number))) }
    ensures sessions { sessions_of sessions.new ≡ sessions_of sessions.old }
    ensures fleet { fleet.new ≡ fleet.old }
{
    match plans.at(due.number) {
        Some(plan) => ready_for_last(sessions, fleet, due.config, plan),
        None => unreachable!(),
    }
}

/// Does the stage of a held plan that follows. Before one that may be its last the plan's session gets ready to learn of it; where there is
/// no memory for that, the plan ends in place of the stage.
fn step_or_give_up<K: Keeper, L: Link>(
    plans: &mut HeldPlans,
    sessions: &mut Sessions,
    nodes: &mut Nodes,
    due: &DueStage<'_>,
    keepers: &mut K,
    link: &mut L,
) -> Option<Reader>
    requires ready { CanPost K.TELLS due.now.config.now (world nodes.old (K.state keepers.old) (L.shown link.old)) }
    requires can { CanStep K.TELLS due.now.config.now (K.state keepers.old).told nodes.old.fleet (plan_at plans.old due.now.number) }
    requires author { IfSome (plan_at plans.old due.now.number) (IsOfSession (sessions_of sessions.old)) }
    requires begun { IfSome (plan_at plans.old due.now.number) OpensFirst }
    ensures steps { AdvancesPlan (rules_of K.TELLS due.now.config.now) due.now.number
        plans.old (world nodes.old (K.state keepers.old) (L.shown link.old))
        plans.new (world nodes.new (K.state keepers.new) (L.shown link.new)) }
    ensures under_way { IfSome (plan_at plans.new due.now.number) (IsUnderWay K.TELLS due.now.config.now (K.state keepers.new).told nodes.new.fleet) }
    ensures on { PostsOn K.TELLS due.now.config.now
        (world nodes.old (K.state keepers.old) (L.shown link.old))
        (world nodes.new (K.state keepers.new) (L.shown link.new)) }
    ensures same { sessions_of sessions.new ≡ sessions_of sessions.old }
    ensures room { IfSome (plan_at plans.new due.now.number) (λ plan. HasRoomFor (pens_of nodes.new.fleet.stores) plan result sessions.new) }
{
    match ready_at(plans, sessions, &mut nodes.fleet, due) {
        Ok(reader) => {
            plans.step(nodes, due.config, keepers, link, due.number);
            reader
        }
        Err(OutOfMemory) => {
            plans.give_up(nodes, due.config, keepers, link, due.number);
            None
        }
    }
}

impl<'c> Core<'c> {
    /// Does the stage of a held plan that follows.
    pub(crate) fn step_plan<K: Keeper, L: Link>(
        &mut self,
        keepers: &mut K,
        link: &mut L,
        word: PlanWord,
        number: u32,
    ) -> Reply
        requires keepers { IsCoreOf K.TELLS (K.state keepers.old).told self.old }
        requires there { IsSome (plan_at self.old.plans number) }
        ensures steps { StepsAt K.TELLS word number (moment self.old (K.state keepers.old) (L.shown link.old)) result
            (moment self.new (K.state keepers.new) (L.shown link.new)) }
        ensures usable { StaysUsable K.TELLS (K.state keepers.old) (K.state keepers.new) self.old self.new }
    {
        let due = DueStage {
            config: self.config,
            number,
        };
        let reader = step_or_give_up(
            &mut self.plans,
            &mut self.sessions,
            &mut self.nodes,
            &due,
            keepers,
            link,
        );
        match next_at(&self.plans, number) {
            Some(next) => {
                drop(reader);
                Reply::Plan(PlanReply::Next {
                    word,
                    plan: number,
                    next,
                })
            }
            None => end_plan(
                &mut self.plans,
                &mut self.sessions,
                &mut self.nodes.fleet,
                &due,
                reader,
            ),
        }
    }

    /// Holds a session's call in a plan, and does its first stage.
    pub(crate) fn hold<K: Keeper, L: Link>(
        &mut self,
        keepers: &mut K,
        link: &mut L,
        number: u32,
        call: CheckedCall,
    ) -> Reply
        requires keepers { IsCoreOf K.TELLS (K.state keepers.old).told self.old }
        requires free { plan_at self.old.plans number ≡ None }
        requires can { CallCanBeDone self.old.settings self.old.sessions call }
        ensures does { AnswersHold K.TELLS number call (moment self.old (K.state keepers.old) (L.shown link.old)) result
            (moment self.new (K.state keepers.new) (L.shown link.new)) }
        ensures usable { StaysUsable K.TELLS (K.state keepers.old) (K.state keepers.new) self.old self.new }
    {
        let from = match begin_plan(&self.sessions, &self.nodes.topology, &call) {
            Ok(from) => from,
            Err(reply) => {
                drop(call);
                return reply;
            }
        };
        if make_room(&mut self.sessions, from, &call).is_err() {
            drop(call);
            return out_of_memory();
        }
        let plan = begun_plan(self.config, from, call);
        match self.plans.add(number, plan) {
            Ok(()) => self.step_plan(keepers, link, PlanWord::Hold, number),
            Err(OutOfMemory) => out_of_memory(),
        }
    }

    /// Does what is asked of a plan.
    pub(crate) fn perform_plan<K: Keeper, L: Link>(
        &mut self,
        keepers: &mut K,
        link: &mut L,
        asked: CheckedPlan,
    ) -> Reply
        requires keepers { IsCoreOf K.TELLS (K.state keepers.old).told self.old }
        requires can { PlanCanBeDone self.old.settings self.old.sessions self.old.plans asked }
        ensures does { AnswersPlan K.TELLS asked (moment self.old (K.state keepers.old) (L.shown link.old)) result
            (moment self.new (K.state keepers.new) (L.shown link.new)) }
        ensures usable { StaysUsable K.TELLS (K.state keepers.old) (K.state keepers.new) self.old self.new }
    {
        match asked {
            CheckedPlan::Hold { plan, call } => self.hold(keepers, link, plan, call),
            CheckedPlan::Advance { plan } => {
                self.step_plan(keepers, link, PlanWord::Advance, plan)
            }
        }
    }
}
