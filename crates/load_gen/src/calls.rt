//! The calls of the workload, as they are drawn.
ghost use Rattle.std.specs.Prelude.{◌≡◌, ◌<◌, ◌≤◌, IfOk, length};
ghost use Rattle.load_gen.specs.Calls.{call_in, call_of, edge_in, id_in, list_in, numbered, obj_add_in, assoc_add_in, assoc_delete_in, one_of, read_of, session_in};
ghost use Rattle.load_gen.specs.Calls.{assoc_range_in, assoc_count_in, deliver_in, shard_in, stream_in, write_of};
ghost use Rattle.load_gen.specs.Draws.{IsDrawn};

use super::draws::Draws;
use super::kind::{KINDS, Kind};
use super::names::Names;
use requests::{
    CacheRequest, Call, EdgeName, ListName, MessageName, QueryText, ReadCall, Request,
    StoreRequest, WriteCall, WriteText,
};
use std::alloc::{AllocError, Global};
use tao_base::{Data, Id, Pair, Text};

/// How many serials of each shard ids are drawn of.
const SERIALS: u64 = 50;

/// Below which number the times of edges are.
const TIMES: u64 = 1_000;

/// How many edges a range asks for.
const LIMIT: u32 = 10;

/// The call of a number, which is drawn: its kind first.
pub(crate) fn call(
    alloc: Global,
    names: &Names,
    number: u64,
    draws: &mut Draws,
) -> Result<Request, AllocError>
    ensures { IfOk result (λ request. IsDrawn (call_in names.now number) request draws.old draws.new) }
{
    let kind = Kind::of(draws.below(KINDS));
    call_of(alloc, names, number, kind, draws)
}

/// The call of a number, by its kind.
fn call_of(
    alloc: Global,
    names: &Names,
    number: u64,
    kind: Kind,
    draws: &mut Draws,
) -> Result<Request, AllocError>
    ensures { IfOk result (λ request. IsDrawn (call_of names.now number kind) request draws.old draws.new) }
{
    match kind {
        Kind::ObjAdd => obj_add(alloc, names, number, draws),
        Kind::AssocAdd => assoc_add(alloc, names, number, draws),
        Kind::AssocDelete => assoc_delete(alloc, names, number, draws),
        Kind::AssocRange => assoc_range(alloc, names, draws),
        Kind::AssocCount => assoc_count(alloc, names, draws),
        Kind::Deliver => deliver(alloc, names, draws),
        Kind::Stream => stream(alloc, names, draws),
    }
}

fn obj_add(
    alloc: Global,
    names: &Names,
    number: u64,
    draws: &mut Draws,
) -> Result<Request, AllocError>
    ensures { IfOk result (λ request. IsDrawn (obj_add_in names.now number) request draws.old draws.new) }
{
    let session = session(names, draws);
    let shard = shard(names, draws);
    let write = WriteText::ObjAdd {
        shard,
        otype: one_of(alloc, names.objects(), draws)?,
        payload: numbered(alloc, number)?,
    };
    Ok(write_of(session, number, write))
}

fn assoc_add(
    alloc: Global,
    names: &Names,
    number: u64,
    draws: &mut Draws,
) -> Result<Request, AllocError>
    ensures { IfOk result (λ request. IsDrawn (assoc_add_in names.now number) request draws.old draws.new) }
{
    let session = session(names, draws);
    let write = WriteText::AssocAdd {
        edge: edge(alloc, names, draws)?,
        time: draws.below(TIMES) as u32,
        payload: Data::empty(alloc),
    };
    Ok(write_of(session, number, write))
}

fn assoc_delete(
    alloc: Global,
    names: &Names,
    number: u64,
    draws: &mut Draws,
) -> Result<Request, AllocError>
    ensures { IfOk result (λ request. IsDrawn (assoc_delete_in names.now number) request draws.old draws.new) }
{
    let session = session(names, draws);
    let edge = edge(alloc, names, draws)?;
    Ok(write_of(session, number, WriteText::AssocDelete { edge }))
}

fn assoc_range(alloc: Global, names: &Names, draws: &mut Draws) -> Result<Request, AllocError>
    ensures { IfOk result (λ request. IsDrawn (assoc_range_in names.now) request draws.old draws.new) }
{
    let session = session(names, draws);
    let query = QueryText::AssocRange {
        list: list(alloc, names, draws)?,
        pos: 0,
        limit: LIMIT,
    };
    Ok(read_of(session, query))
}

fn assoc_count(alloc: Global, names: &Names, draws: &mut Draws) -> Result<Request, AllocError>
    ensures { IfOk result (λ request. IsDrawn (assoc_count_in names.now) request draws.old draws.new) }
{
    let session = session(names, draws);
    let list = list(alloc, names, draws)?;
    Ok(read_of(session, QueryText::AssocCount { list }))
}

fn deliver(alloc: Global, names: &Names, draws: &mut Draws) -> Result<Request, AllocError>
    ensures { IfOk result (λ request. IsDrawn (deliver_in names.now) request draws.old draws.new) }
{
    let node = one_of(alloc, names.nodes(), draws)?;
    Ok(Request::Cache(CacheRequest::Deliver(MessageName { node, message: 0 })))
}

fn stream(alloc: Global, names: &Names, draws: &mut Draws) -> Result<Request, AllocError>
    ensures { IfOk result (λ request. IsDrawn (stream_in names.now) request draws.old draws.new) }
{
    let region = one_of(alloc, names.regions(), draws)?;
    Ok(Request::Store(StoreRequest::Stream {
        region,
        shard: shard(names, draws),
        position: None,
    }))
}

/// A session: there is one for each tier, by numbers from 1.
fn session(names: &Names, draws: &mut Draws) -> u32
    ensures { IsDrawn (session_in names.now) result draws.old draws.new }
{
    draws.below(names.tiers().len() as u64) as u32 + 1
}

fn shard(names: &Names, draws: &mut Draws) -> u16
    ensures drawn { IsDrawn (shard_in names.now) result draws.old draws.new }
    ensures bound { result < 64 }
{
    draws.below(u64::from(names.shards())) as u16
}

/// An id: one of the first serials of a shard.
#[tactic(auto, using(crate::proofs::Ids::serial_is))]
fn id(names: &Names, draws: &mut Draws) -> Id
    ensures { IsDrawn (id_in names.now) result draws.old draws.new }
{
    let shard = u64::from(shard(names, draws));
    let serial = draws.below(SERIALS) + 1;
    match Id::read((shard << 48) + serial) {
        Some(id) => id,
        None => unreachable!(),
    }
}

fn list(alloc: Global, names: &Names, draws: &mut Draws) -> Result<ListName, AllocError>
    ensures { IfOk result (λ list. IsDrawn (list_in names.now) list draws.old draws.new) }
{
    Ok(ListName {
        id1: id(names, draws),
        atype: one_of(alloc, names.assocs(), draws)?,
    })
}

fn edge(alloc: Global, names: &Names, draws: &mut Draws) -> Result<EdgeName, AllocError>
    ensures { IfOk result (λ edge. IsDrawn (edge_in names.now) edge draws.old draws.new) }
{
    Ok(EdgeName {
        list: list(alloc, names, draws)?,
        id2: id(names, draws),
    })
}

/// A copy of one of these texts.
fn one_of(alloc: Global, texts: &[Text], draws: &mut Draws) -> Result<Text, AllocError>
    requires { 1 ≤ length texts.now }
    ensures { IfOk result (λ text. IsDrawn (one_of texts.now) text draws.old draws.new) }
{
    let place = draws.below(texts.len() as u64);
    match texts.get(place as usize) {
        Some(text) => Text::copy_of(alloc, text.as_str()),
        None => unreachable!(),
    }
}

/// Data that has a number, in decimal, under the key `n`.
#[tactic(auto, using(crate::proofs::Numbered::numbered_data))]
fn numbered(alloc: Global, number: u64) -> Result<Data, AllocError>
    ensures { IfOk result (λ payload. payload ≡ numbered number) }
{
    let pair = Pair {
        key: Text::copy_of(alloc, "n")?,
        value: Text::of(format!(in alloc; "{number}")?),
    };
    let mut pairs = Vec::new(alloc);
    pairs.push(pair)?;
    Ok(Data::of(pairs))
}

/// A write of a session, under a number.
fn write_of(session: u32, seq: u64, write: WriteText) -> Request
    ensures { result ≡ write_of session seq write }
{
    Request::Call(Call::Write(WriteCall {
        session,
        seq,
        write,
    }))
}

/// A read of a session, which any follower may answer.
fn read_of(session: u32, query: QueryText) -> Request
    ensures { result ≡ read_of session query }
{
    Request::Call(Call::Read(ReadCall {
        session,
        query,
        critical: false,
    }))
}
