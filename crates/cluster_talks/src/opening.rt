//! How a connection's session is opened.
ghost use Rattle.std.specs.Prelude.{◌≡◌, false};
ghost use Rattle.cluster_talks.specs.TalkStates.{MayTalk, TalksOn, talk_state};
ghost use Rattle.cluster_talks.specs.TalkSteps.{AsksOpen, IsOpening, OpensFor, RepliesToOpen};
ghost use Rattle.log_names.specs.Names.{LogNames};
ghost use Rattle.request_check.specs.Requests.{IsPlaced};
ghost use Rattle.requests.specs.declared.request.OpenCall.{OpenCall};
ghost use Rattle.session_pass.specs.Floors.{HasNoFloors};
ghost use Rattle.shared_stores.specs.Making.{Making};
ghost use Rattle.shared_tiers.specs.Calls.{calling};
ghost use Rattle.tao_link.specs.Shown.{LinkShown};

use crate::refusing::session_there;
use replies::Reply;
use request_check::{Checked, check};
use requests::Request;
use session_pass::Pass;
use std::alloc::Global;
use topology::Config;

/// Opens the session of a connection, unless it has one: from then on the connection's pass is that of the session. A tier that isn't there is refused.
pub(crate) fn open(
    alloc: Global,
    config: &Config,
    opened: &mut bool,
    pass: &mut Pass,
    asked: &Request,
) -> Reply
    requires asks { AsksOpen asked.now }
    requires untold { opened.old ≡ false → HasNoFloors pass.old.floors }
    ensures replied { (link : LinkShown) (opening : OpenCall) → asked.now ≡ Request.Open opening → RepliesToOpen config.now
        (talk_state opened.old (calling pass.old link)) (talk_state opened.new (calling pass.new link)) opening result }
    ensures on { (m : Making) (log : LogNames) (link : LinkShown) → m.settings ≡ config.now → MayTalk m log (talk_state opened.old (calling pass.old link))
        → TalksOn m log (talk_state opened.old (calling pass.old link)) (talk_state opened.new (calling pass.new link)) }
{
    if *opened {
        return session_there(pass.session());
    }
    match check(alloc, config, asked) {
        Ok(checked) => open_placed(opened, pass, checked),
        Err(refusal) => refusal.into_reply(),
    }
}

/// Opens the session of a connection, in a tier by its place.
fn open_placed(opened: &mut bool, pass: &mut Pass, checked: Checked) -> Reply
    requires opening { IsOpening checked }
    requires untold { HasNoFloors pass.old.floors }
    ensures opens { (link : LinkShown) →
        OpensFor (talk_state opened.old (calling pass.old link)) (talk_state opened.new (calling pass.new link)) checked result }
    ensures on { (m : Making) (log : LogNames) (link : LinkShown) → IsPlaced m.settings checked → MayTalk m log (talk_state opened.old (calling pass.old link))
        → TalksOn m log (talk_state opened.old (calling pass.old link)) (talk_state opened.new (calling pass.new link)) }
{
    match checked {
        Checked::Open {
            session,
            region,
            tier,
        } => {
            pass.name(session, region, tier);
            *opened = true;
            Reply::Opened { session }
        }
        _ => unreachable!(),
    }
}
