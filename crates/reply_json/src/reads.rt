//! The replies to reads whose answers are kept: what is the same in each is written as it stands.
ghost use Rattle.std.specs.Prelude.{◌≡◌, ◌++◌, IfOk, IfSome, OnOk};
ghost use Rattle.reply_json.specs.Reads.{IsKeptRead, ending_text, front_text, kept_text};
ghost use Rattle.tao_base.specs.declared.query.Answer.TheVariants.{Object as ObjectIs, Edges as EdgesAre, Count};
ghost use Rattle.topology.specs.Config.{Settings};

use crate::added::{add_edges, add_maybe_object, add_numbered};
use crate::spelled::ROOM;
use replies::{CallReply, KeptOrNot, ReadReply, Reply};
use std::alloc::{AllocError, Global};
use tao_base::{Answer, Edge, Object};
use topology::Config;
use words::ReadWord;

/// The reply to a read whose answer is kept, where a reply is one.
pub(crate) fn kept_read(reply: &Reply) -> Option<&ReadReply>
    ensures { IfSome result (λ read. IsKeptRead reply.now read.now) }
{
    match reply {
        Reply::Called(CallReply::Read(read)) => match read.kept {
            KeptOrNot::Kept => Some(read),
            KeptOrNot::Not(_) => None,
        },
        _ => None,
    }
}

fn put_count(out: &mut Vec<u8>, count: u64, hops: u64) -> Result<(), AllocError>
    ensures { (s : Settings) → OnOk result (out.new.items ≡ out.old.items ++ front_text s hops (Count count)) }
{
    add_numbered(out, "{\"count\":", count)?;
    add_numbered(out, ",\"hops\":", hops)?;
    out.extend_from_slice(b",\"kept\":true")
}

fn put_edges(alloc: Global, out: &mut Vec<u8>, edges: &[Edge], hops: u64) -> Result<(), AllocError>
    ensures { (s : Settings) → OnOk result (out.new.items ≡ out.old.items ++ front_text s hops (EdgesAre edges.now)) }
{
    out.extend_from_slice(b"{\"edges\":")?;
    add_edges(alloc, out, edges)?;
    add_numbered(out, ",\"hops\":", hops)?;
    out.extend_from_slice(b",\"kept\":true")?;
    Ok(())
}

fn put_object(
    alloc: Global,
    out: &mut Vec<u8>,
    config: &Config,
    object: &Option<Object>,
    hops: u64,
) -> Result<(), AllocError>
    ensures { OnOk result (out.new.items ≡ out.old.items ++ front_text config.now hops (ObjectIs object.now)) }
{
    add_numbered(out, "{\"hops\":", hops)?;
    out.extend_from_slice(b",\"kept\":true,\"object\":")?;
    add_maybe_object(alloc, out, config, object)?;
    Ok(())
}

/// Adds what stands before the word.
fn put_front(
    alloc: Global,
    out: &mut Vec<u8>,
    config: &Config,
    reply: &ReadReply,
) -> Result<(), AllocError>
    ensures { OnOk result (out.new.items ≡ out.old.items ++ front_text config.now reply.now.hops reply.now.answer) }
{
    match &reply.answer {
        Answer::Count(count) => put_count(out, *count, reply.hops),
        Answer::Edges(edges) => put_edges(alloc, out, edges.as_slice(), reply.hops),
        Answer::Object(object) => put_object(alloc, out, config, object, reply.hops),
    }
}

/// The word, whether a store was called, and the name that the version stands under.
fn ending(word: ReadWord, store: bool) -> &'static str
    ensures { result.now ≡ ending_text word store }
{
    match (word, store) {
        (ReadWord::ObjGet, false) => ",\"ok\":\"obj_get\",\"store\":false,\"version\":",
        (ReadWord::ObjGet, true) => ",\"ok\":\"obj_get\",\"store\":true,\"version\":",
        (ReadWord::AssocGet, false) => ",\"ok\":\"assoc_get\",\"store\":false,\"version\":",
        (ReadWord::AssocGet, true) => ",\"ok\":\"assoc_get\",\"store\":true,\"version\":",
        (ReadWord::AssocCount, false) => ",\"ok\":\"assoc_count\",\"store\":false,\"version\":",
        (ReadWord::AssocCount, true) => ",\"ok\":\"assoc_count\",\"store\":true,\"version\":",
        (ReadWord::AssocRange, false) => ",\"ok\":\"assoc_range\",\"store\":false,\"version\":",
        (ReadWord::AssocRange, true) => ",\"ok\":\"assoc_range\",\"store\":true,\"version\":",
        (ReadWord::AssocTimeRange, false) =>
            ",\"ok\":\"assoc_time_range\",\"store\":false,\"version\":",
        (ReadWord::AssocTimeRange, true) =>
            ",\"ok\":\"assoc_time_range\",\"store\":true,\"version\":",
    }
}

/// The text of a reply to a read whose answer is kept.
pub(crate) fn kept_text(
    alloc: Global,
    config: &Config,
    reply: &ReadReply,
) -> Result<Vec<u8>, AllocError>
    ensures { IfOk result (λ text. text.items ≡ kept_text config.now reply.now) }
{
    let mut out = Vec::with_capacity(alloc, ROOM)?;
    put_front(alloc, &mut out, config, reply)?;
    add_numbered(&mut out, ending(reply.word, reply.store), reply.version)?;
    out.push(b'}')?;
    Ok(out)
}
