//! The replies about nodes: caches, stores and the links between them.
ghost use Rattle.std.specs.Prelude.{◌≡◌, option_map};
ghost use Rattle.reply_json.specs.Nodes.{cache_data, delivered_data, had, is_kept, item_data, needs, node_data, not_kept_why, refilled_data};
ghost use Rattle.reply_json.specs.Nodes.{repaired_data, shown_data, streamed_data, trimmed_data};
ghost use Rattle.reply_json.specs.Said.{said_value};
ghost use Rattle.reply_json.specs.Writing.{Puts};

use crate::said::{Said, said_object};
use crate::spelled::{put_given, put_members};
use crate::texts::{not_kept_text, verdict_text};
use json::Writer;
use replies::{
    CacheReply, DeliveredReply, KeptOrNot, NodeReply, Refilled, Repaired, Shown, ShownItem,
    Streamed, Trimmed,
};
use std::alloc::AllocError;
use topology::Config;
use words::Word;

pub(crate) fn put_node(
    out: &mut Writer,
    config: &Config,
    reply: &NodeReply,
) -> Result<(), AllocError>
    ensures { Puts result out.old out.new (node_data config.now reply.now) }
{
    match reply {
        NodeReply::Cache(reply) => put_cache(out, config, reply),
        NodeReply::Streamed(streamed) => put_streamed(out, streamed),
        NodeReply::Trimmed(trimmed) => put_trimmed(out, trimmed),
        NodeReply::Repaired(repaired) => put_repaired(out, repaired),
        NodeReply::Health { word, changed } => {
            put_members(
                out,
                &[
                    ("changed", Said::Flag(*changed)),
                    ("ok", Said::Text(Word::Health(*word).text())),
                ],
            )
        }
        NodeReply::Link { word } => {
            put_members(out, &[("ok", Said::Text(Word::Link(*word).text()))])
        }
    }
}

fn put_streamed(out: &mut Writer, streamed: &Streamed) -> Result<(), AllocError>
    ensures { Puts result out.old out.new (streamed_data streamed.now) }
{
    put_members(
        out,
        &[
            ("hops", Said::Whole(streamed.hops)),
            ("next", Said::Whole(streamed.next)),
            ("ok", Said::Text(Word::Stream.text())),
            ("verdict", Said::Text(verdict_text(streamed.verdict))),
        ],
    )
}

fn put_trimmed(out: &mut Writer, trimmed: &Trimmed) -> Result<(), AllocError>
    ensures { Puts result out.old out.new (trimmed_data trimmed.now) }
{
    put_members(
        out,
        &[
            ("cut", Said::Whole(trimmed.cut)),
            ("ok", Said::Text(Word::Trim.text())),
            ("reset", Said::Whole(trimmed.reset)),
        ],
    )
}

fn put_repaired(out: &mut Writer, repaired: &Repaired) -> Result<(), AllocError>
    ensures { Puts result out.old out.new (repaired_data repaired.now) }
{
    put_members(
        out,
        &[
            ("hops", Said::Whole(repaired.hops)),
            ("job", Said::Whole(repaired.job)),
            ("ok", Said::Text(Word::Repair.text())),
            ("wrote", Said::Flag(repaired.wrote)),
        ],
    )
}

// ---- cache nodes

fn put_cache(out: &mut Writer, config: &Config, reply: &CacheReply) -> Result<(), AllocError>
    ensures { Puts result out.old out.new (cache_data config.now reply.now) }
{
    match reply {
        CacheReply::Delivered(delivered) => put_delivered(out, delivered),
        CacheReply::Lost(message) => {
            put_members(
                out,
                &[
                    ("ok", Said::Text(Word::Drop.text())),
                    ("position", Said::Whole(message.position)),
                    ("shard", Said::Whole(message.shard as u64)),
                ],
            )
        }
        CacheReply::Refilled(refilled) => put_refilled(out, refilled),
        CacheReply::Evicted { evicted } => {
            put_members(
                out,
                &[
                    ("evicted", Said::Flag(*evicted)),
                    ("ok", Said::Text(Word::Evict.text())),
                ],
            )
        }
        CacheReply::Shown { mark, item } => put_shown(out, config, *mark, item),
        CacheReply::Inbox { messages } => {
            put_members(
                out,
                &[
                    ("messages", Said::Messages(messages.as_slice())),
                    ("ok", Said::Text(Word::Inbox.text())),
                ],
            )
        }
    }
}

fn put_delivered(out: &mut Writer, delivered: &DeliveredReply) -> Result<(), AllocError>
    ensures { Puts result out.old out.new (delivered_data delivered.now) }
{
    let message = delivered.message;
    put_members(
        out,
        &[
            ("dropped", Said::Whole(delivered.dropped)),
            ("mark", Said::Whole(delivered.mark)),
            ("ok", Said::Text(Word::Delivery(delivered.word).text())),
            ("position", Said::Whole(message.position)),
            ("shard", Said::Whole(message.shard as u64)),
        ],
    )
}

fn put_shown(out: &mut Writer, config: &Config, mark: u64, shown: &Shown) -> Result<(), AllocError>
    ensures { Puts result out.old out.new (shown_data config.now mark shown.now) }
{
    match shown {
        Shown::Nothing => {
            put_members(
                out,
                &[
                    ("held", Said::Flag(false)),
                    ("mark", Said::Whole(mark)),
                    ("ok", Said::Text(Word::Show.text())),
                ],
            )
        }
        Shown::Held { version, item } => put_item(out, config, mark, *version, item),
    }
}

fn put_item<'r>(
    out: &mut Writer,
    config: &'r Config,
    mark: u64,
    version: u64,
    item: &'r ShownItem,
) -> Result<(), AllocError>
    ensures { Puts result out.old out.new (item_data config.now mark version item.now) }
{
    match item {
        ShownItem::Object(object) => {
            put_members(
                out,
                &[
                    ("held", Said::Flag(true)),
                    ("mark", Said::Whole(mark)),
                    ("object", said_object(config, object)),
                    ("ok", Said::Text(Word::Show.text())),
                    ("version", Said::Whole(version)),
                ],
            )
        }
        ShownItem::List { edges, total } => {
            put_members(
                out,
                &[
                    ("edges", Said::Edges(edges.as_slice())),
                    ("held", Said::Flag(true)),
                    ("mark", Said::Whole(mark)),
                    ("ok", Said::Text(Word::Show.text())),
                    ("total", Said::Whole(*total)),
                    ("version", Said::Whole(version)),
                ],
            )
        }
    }
}

// ---- whether a fill was kept, and else why not

pub(crate) fn is_kept(kept: KeptOrNot) -> bool
    ensures { result ≡ is_kept kept }
{
    matches!(kept, KeptOrNot::Kept)
}

/// What a fill had that was not kept.
pub(crate) fn had(kept: KeptOrNot) -> Option<Said<'static>>
    ensures { option_map said_value result ≡ had kept }
{
    match kept {
        KeptOrNot::Kept => None,
        KeptOrNot::Not(not) => Some(Said::Whole(not.have)),
    }
}

/// What it needed.
pub(crate) fn needs(kept: KeptOrNot) -> Option<Said<'static>>
    ensures { option_map said_value result ≡ needs kept }
{
    match kept {
        KeptOrNot::Kept => None,
        KeptOrNot::Not(not) => Some(Said::Whole(not.need)),
    }
}

/// Why it was not kept.
pub(crate) fn not_kept_why(kept: KeptOrNot) -> Option<Said<'static>>
    ensures { option_map said_value result ≡ not_kept_why kept }
{
    match kept {
        KeptOrNot::Kept => None,
        KeptOrNot::Not(not) => Some(Said::Text(not_kept_text(not.why))),
    }
}

fn put_refilled(out: &mut Writer, refilled: &Refilled) -> Result<(), AllocError>
    ensures { Puts result out.old out.new (refilled_data refilled.now) }
{
    let kept = refilled.kept;
    put_given(
        out,
        &[
            ("have", had(kept)),
            ("hops", Some(Said::Whole(refilled.hops))),
            ("kept", Some(Said::Flag(is_kept(kept)))),
            ("need", needs(kept)),
            ("ok", Some(Said::Text(Word::Refill.text()))),
            ("store", Some(Said::Flag(refilled.store))),
            ("version", Some(Said::Whole(refilled.version))),
            ("why", not_kept_why(kept)),
        ],
    )
}
