//! The replies about plans.
ghost use Rattle.reply_json.specs.Plans.{plan_data};
ghost use Rattle.reply_json.specs.Writing.{Puts};

use crate::calls::put_call;
use crate::said::Said;
use crate::spelled::put_members;
use crate::texts::stage_text;
use json::Writer;
use replies::PlanReply;
use std::alloc::AllocError;
use topology::Config;
use words::Word;

pub(crate) fn put_plan(
    out: &mut Writer,
    config: &Config,
    reply: &PlanReply,
) -> Result<(), AllocError>
    ensures { Puts result out.old out.new (plan_data config.now reply.now) }
{
    match reply {
        PlanReply::Next { word, plan, next } => {
            put_members(
                out,
                &[
                    ("next", Said::Text(stage_text(*next))),
                    ("ok", Said::Text(Word::Plan(*word).text())),
                    ("plan", Said::Whole(*plan as u64)),
                ],
            )
        }
        PlanReply::Ended { plan, reply } => put_call(out, config, Some(*plan), reply),
    }
}
