//! The reply to a line, and its text.
ghost use Rattle.std.specs.Prelude.{◌≡◌, IfOk};
ghost use Rattle.reply_json.specs.OneLine.{IsOneLine};
ghost use Rattle.reply_json.specs.Reply.{audit_data, bad_configuration_data, bad_stores_data, data_of, reply_text};
ghost use Rattle.reply_json.specs.Writing.{Puts};
ghost use Rattle.replies.specs.declared.reply.Reply.TheVariants.{BadConfiguration};
ghost use Rattle.topology.specs.Config.{Settings};

use crate::calls::put_call;
use crate::nodes::put_node;
use crate::plans::put_plan;
use crate::reads::{kept_read, kept_text};
use crate::refusals::put_refusal;
use crate::said::{Said, answer_name, said_answer};
use crate::spelled::{ROOM, put_members};
use json::Writer;
use node_name::NodeName;
use replies::Reply;
use std::alloc::{AllocError, Global};
use tao_base::{Answer, Bytes, OutOfMemory, StoreName};
use topology::Config;
use words::Word;

/// The text of a reply: JSON with no space, the members in ascending order of the bytes of their names,
/// and no line feed at its end. The configuration tells the names of regions, tiers and object types.
/// Takes time and memory in the length of the text.
pub fn reply_text(alloc: Global, config: &Config, reply: &Reply) -> Result<Bytes, OutOfMemory>
    ensures text { IfOk result (λ bytes. bytes ≡ reply_text config.now reply.now) }
    ensures one_line { IfOk result IsOneLine }
{
    match kept_read(reply) {
        Some(read) => Ok(Bytes::of(kept_text(alloc, config, read)?)),
        None => spelled_text(alloc, config, reply),
    }
}

/// The text of any reply, written a part at a time.
fn spelled_text(alloc: Global, config: &Config, reply: &Reply) -> Result<Bytes, OutOfMemory>
    ensures text { IfOk result (λ bytes. bytes ≡ reply_text config.now reply.now) }
    ensures one_line { IfOk result IsOneLine }
{
    let mut out = Writer::new(Vec::with_capacity(alloc, ROOM)?);
    put_reply(alloc, &mut out, config, reply)?;
    Ok(Bytes::of(out.into_inner()))
}

/// The text of the reply to a first line that is no configuration: names aren't needed for it, and there
/// are none yet. Takes time and memory in the length of the field's name.
pub fn bad_configuration_text(alloc: Global, field: &str) -> Result<Bytes, OutOfMemory>
    ensures text { IfOk result (λ bytes. (s : Settings) → bytes ≡ reply_text s (BadConfiguration field.now)) }
    ensures one_line { IfOk result IsOneLine }
{
    let mut out = Writer::new(Vec::new(alloc));
    put_bad_configuration(&mut out, field)?;
    Ok(Bytes::of(out.into_inner()))
}

fn put_reply(
    alloc: Global,
    out: &mut Writer,
    config: &Config,
    reply: &Reply,
) -> Result<(), AllocError>
    ensures { Puts result out.old out.new (data_of config.now reply.now) }
{
    match reply {
        Reply::Configured => put_members(out, &[("ok", Said::Text("configured"))]),
        Reply::BadConfiguration { field } => put_bad_configuration(out, field.as_str()),
        Reply::BadStores { store, position } => {
            put_bad_stores(alloc, out, config, *store, *position)
        }
        Reply::Opened { session } => {
            put_members(
                out,
                &[
                    ("ok", Said::Text(Word::Open.text())),
                    ("session", Said::Whole(*session as u64)),
                ],
            )
        }
        Reply::Called(reply) => put_call(out, config, None, reply),
        Reply::Plan(reply) => put_plan(out, config, reply),
        Reply::Node(reply) => put_node(out, config, reply),
        Reply::Settled { logs } => {
            put_members(
                out,
                &[
                    ("logs", Said::Lengths(logs.as_slice())),
                    ("ok", Said::Text(Word::Settle.text())),
                ],
            )
        }
        Reply::Audited { answer, position } => put_audit(out, config, answer, *position),
        Reply::Refused(refusal) => put_refusal(alloc, out, config, refusal),
    }
}

fn put_bad_configuration(out: &mut Writer, field: &str) -> Result<(), AllocError>
    ensures { Puts result out.old out.new (bad_configuration_data field.now) }
{
    put_members(
        out,
        &[
            ("bad", Said::Text("configuration")),
            ("field", Said::Text(field)),
        ],
    )
}

fn put_bad_stores(
    alloc: Global,
    out: &mut Writer,
    config: &Config,
    store: StoreName,
    position: u64,
) -> Result<(), AllocError>
    ensures { Puts result out.old out.new (bad_stores_data config.now store position) }
{
    let text = config.node_text(alloc, NodeName::Store(store))?;
    put_members(
        out,
        &[
            ("bad", Said::Text("stores")),
            ("position", Said::Whole(position)),
            ("store", Said::Text(text.as_str())),
        ],
    )
}

fn put_audit(
    out: &mut Writer,
    config: &Config,
    answer: &Answer,
    position: u64,
) -> Result<(), AllocError>
    ensures { Puts result out.old out.new (audit_data config.now answer.now position) }
{
    put_members(
        out,
        &[
            (answer_name(answer), said_answer(config, answer)),
            ("ok", Said::Text(Word::Audit.text())),
            ("position", Said::Whole(position)),
        ],
    )
}
