//! What a request asks of the core, or why nothing is asked.
ghost use Rattle.std.specs.Prelude.{◌≡◌, IfOk};
ghost use Rattle.core_sessions.specs.Sessions.{sessions_of};
ghost use Rattle.outcomes.specs.Results.{Gives};
ghost use Rattle.request_check.specs.Refusal.{replied, reply_unless_memory};
ghost use Rattle.tao_core.specs.Asked.{CanBeDone, admitted, asked_of, held_plan, fresh_session, fresh_plan, open_session, plan_for};
ghost use Rattle.tao_core.specs.Asked.{named_plan, session_for};

use core_plans::HeldPlans;
use core_sessions::Sessions;
use replies::{PlanRefused, Refusal, Reply, SessionRefused};
use request_check::{CheckRefusal, Checked, check};
use requests::{PlanRequest, Request};
use std::alloc::Global;
use topology::Config;

/// The most sessions that may be open.
const MOST_SESSIONS: usize = 1024;

/// The most plans that may be held.
const MOST_PLANS: usize = 512;

/// What the request asks, or its first refusal: of its plan, then of its session, then of a name.
/// What is asked can be done: its shard is configured, and a session is opened that isn't open yet.
/// Costs what `request_check::check` does, and a binary search for the session.
pub(crate) fn resolve(
    alloc: Global,
    config: &Config,
    sessions: &Sessions,
    plans: &HeldPlans,
    request: &Request,
) -> Result<Checked, CheckRefusal>
    ensures asked { Gives reply_unless_memory result (replied (asked_of config.now (sessions_of sessions.now) plans.now request.now)) }
    ensures can { IfOk result (CanBeDone config.now (sessions_of sessions.now) plans.now) }
{
    match admit(sessions, plans, request) {
        Ok(()) => check(alloc, config, request),
        Err(refusal) => Err(CheckRefusal::Refused(Reply::Refused(refusal))),
    }
}

/// Refuses a plan or a session that the request may not name.
fn admit(sessions: &Sessions, plans: &HeldPlans, request: &Request) -> Result<(), Refusal>
    ensures { result ≡ admitted (sessions_of sessions.now) plans.now request.now }
{
    plan_for(plans, request)?;
    session_for(sessions, request)
}

// ---- plans

/// Refuses a plan that isn't held.
fn held_plan(plans: &HeldPlans, plan: u32) -> Result<(), Refusal>
    ensures { result ≡ held_plan plans.now plan }
{
    if plans.has(plan) {
        Ok(())
    } else {
        Err(Refusal::Plan(PlanRefused::NoPlan { plan }))
    }
}

/// Refuses a plan that can't be held.
fn new_plan(plans: &HeldPlans, plan: u32) -> Result<(), Refusal>
    ensures { result ≡ fresh_plan plans.now plan }
{
    if plans.has(plan) {
        return Err(Refusal::Plan(PlanRefused::PlanThere { plan }));
    }
    if plans.len() < MOST_PLANS {
        Ok(())
    } else {
        let plans = plans.len() as u64;
        Err(Refusal::Plan(PlanRefused::PlanFull { plans }))
    }
}

/// Refuses the plan that is named, unless it may.
fn named_plan(plans: &HeldPlans, asked: &PlanRequest) -> Result<(), Refusal>
    ensures { result ≡ named_plan plans.now asked.now }
{
    match asked {
        PlanRequest::Hold { plan, .. } => new_plan(plans, *plan),
        PlanRequest::Advance { plan } => held_plan(plans, *plan),
    }
}

/// Refuses the plan that the request names, unless it may.
fn plan_for(plans: &HeldPlans, request: &Request) -> Result<(), Refusal>
    ensures { result ≡ plan_for plans.now request.now }
{
    match request {
        Request::Plan(asked) => named_plan(plans, asked),
        _ => Ok(()),
    }
}

// ---- sessions

/// Refuses a session that isn't open.
fn open_session(sessions: &Sessions, session: u32) -> Result<(), Refusal>
    ensures { result ≡ open_session (sessions_of sessions.now) session }
{
    if sessions.is_open(session) {
        Ok(())
    } else {
        Err(Refusal::Session(SessionRefused::NoSession { session }))
    }
}

/// Refuses a session that can't be opened.
fn fresh_session(sessions: &Sessions, session: u32) -> Result<(), Refusal>
    ensures { result ≡ fresh_session (sessions_of sessions.now) session }
{
    if sessions.is_open(session) {
        return Err(Refusal::Session(SessionRefused::SessionThere { session }));
    }
    if sessions.len() < MOST_SESSIONS {
        Ok(())
    } else {
        let sessions = sessions.len() as u64;
        Err(Refusal::Session(SessionRefused::SessionFull { sessions }))
    }
}

/// Refuses the session that the request names, unless it may.
fn session_for(sessions: &Sessions, request: &Request) -> Result<(), Refusal>
    ensures { result ≡ session_for (sessions_of sessions.now) request.now }
{
    match request {
        Request::Open(opening) => fresh_session(sessions, opening.session),
        Request::Call(call) => open_session(sessions, call.session()),
        Request::Plan(PlanRequest::Hold { call, .. }) => open_session(sessions, call.session()),
        _ => Ok(()),
    }
}
