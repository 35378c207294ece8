//! The replies to writes and reads.
ghost use Rattle.std.specs.Prelude.{◌≡◌, option_map};
ghost use Rattle.reply_json.specs.Calls.{added_id, call_data, plan_number, read_data, scheduled_why, write_data};
ghost use Rattle.reply_json.specs.Said.{said_value};
ghost use Rattle.reply_json.specs.Writing.{Puts};

use crate::nodes::{had, is_kept, needs, not_kept_why};
use crate::said::{Said, count_said, edges_said, object_said};
use crate::spelled::put_given;
use crate::texts::{inverse_text, scheduled_text};
use json::Writer;
use replies::{CallReply, InverseEnd, ReadReply, WriteKind, WriteReply};
use std::alloc::AllocError;
use topology::Config;
use words::Word;

/// Writes the reply to a call: with a plan's number, where one carried it out.
pub(crate) fn put_call(
    out: &mut Writer,
    config: &Config,
    plan: Option<u32>,
    reply: &CallReply,
) -> Result<(), AllocError>
    ensures { Puts result out.old out.new (call_data config.now plan reply.now) }
{
    match reply {
        CallReply::Write(reply) => put_write(out, plan, reply),
        CallReply::Read(reply) => put_read(out, config, plan, reply),
    }
}

fn added_id(kind: WriteKind) -> Option<Said<'static>>
    ensures { option_map said_value result ≡ added_id kind }
{
    match kind {
        WriteKind::ObjAdd { id } => Some(Said::Whole(id.number())),
        _ => None,
    }
}

fn scheduled_why(inverse: InverseEnd) -> Option<Said<'static>>
    ensures { option_map said_value result ≡ scheduled_why inverse }
{
    match inverse {
        InverseEnd::Scheduled { why } => Some(Said::Text(scheduled_text(why))),
        _ => None,
    }
}

fn plan_number(plan: Option<u32>) -> Option<Said<'static>>
    ensures { option_map said_value result ≡ plan_number plan }
{
    match plan {
        Some(plan) => Some(Said::Whole(plan as u64)),
        None => None,
    }
}

fn put_write(out: &mut Writer, plan: Option<u32>, reply: &WriteReply) -> Result<(), AllocError>
    ensures { Puts result out.old out.new (write_data plan reply.now) }
{
    let written = reply.written;
    put_given(
        out,
        &[
            ("changed", Some(Said::Flag(written.changed))),
            ("hops", Some(Said::Whole(reply.hops))),
            ("id", added_id(reply.kind)),
            ("inverse", Some(Said::Text(inverse_text(written.inverse)))),
            (
                "ok",
                Some(Said::Text(Word::Write(reply.kind.word()).text())),
            ),
            ("plan", plan_number(plan)),
            ("position", Some(Said::Whole(written.position))),
            ("retry", Some(Said::Flag(written.retry))),
            ("why", scheduled_why(written.inverse)),
        ],
    )
}

fn put_read<'r>(
    out: &mut Writer,
    config: &'r Config,
    plan: Option<u32>,
    reply: &'r ReadReply,
) -> Result<(), AllocError>
    ensures { Puts result out.old out.new (read_data config.now plan reply.now) }
{
    put_given(
        out,
        &[
            ("count", count_said(&reply.answer)),
            ("edges", edges_said(&reply.answer)),
            ("have", had(reply.kept)),
            ("hops", Some(Said::Whole(reply.hops))),
            ("kept", Some(Said::Flag(is_kept(reply.kept)))),
            ("need", needs(reply.kept)),
            ("object", object_said(config, &reply.answer)),
            ("ok", Some(Said::Text(Word::Read(reply.word).text()))),
            ("plan", plan_number(plan)),
            ("store", Some(Said::Flag(reply.store))),
            ("version", Some(Said::Whole(reply.version))),
            ("why", not_kept_why(reply.kept)),
        ],
    )
}
