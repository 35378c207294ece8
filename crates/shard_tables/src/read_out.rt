//! Reads of a store's own log, as fills for the caches above it.
ghost use Rattle.std.specs.Prelude.{◌≡◌, ◌≤◌, ℕ, List, IfErr, IfOk, length, true};
ghost use Rattle.counts.specs.Count.{Rose};
ghost use Rattle.graph_model.specs.Answers.{answer as log_answer};
ghost use Rattle.tao_base.specs.Queries.{query_key};
ghost use Rattle.graph_model.specs.Edges.{edge_list};
ghost use Rattle.graph_model.specs.Log.{object, version as version_of};
ghost use Rattle.graph_model.specs.Told.{WhereTold};
ghost use Rattle.sealed_item.specs.list_prefix.Fronts.{IsFrontFor};
ghost use Rattle.sealed_item.specs.list_prefix.ListPrefix.{CanBegin, list_prefix};
ghost use Rattle.sealed_item.specs.list_prefix.Verdicts.{IsOfList};
ghost use Rattle.sealed_item.specs.Decided.{content_answer, content_decides, query_bound};
ghost use Rattle.shard_log.specs.View.{Begins};
ghost use Rattle.shard_tables.specs.Refusals.{IsOfReads};
ghost use Rattle.shard_tables.specs.ReadOuts.{AreNeeded, IsFillFor, IsFilled, IsFor, IsReadOutOf, needed_count, read_note};
ghost use Rattle.shard_tables.specs.Reads.{whole_answer};
ghost use Rattle.shard_tables.specs.Stores.{IsStoreOf, note_of};
ghost use Rattle.tao_base.specs.declared.entry.Entry.{Entry};
ghost use Rattle.tao_keeper.specs.Growing.{LogsGrow};
ghost use Rattle.tao_keeper.specs.KeeperState.{CallsKeeper, KeepsTables};
ghost use Rattle.tao_schema.specs.Schema.{types_of};

use super::reads::{Found, select};
use super::refusal::StoreRefusal;
use super::store::StoreNode;
use sealed_item::list_prefix::{Prefix, Verdict, shortest_front};
use sealed_item::{Content, Fill};
use shard_log::Note;
use std::alloc::Global;
use tao_base::{AType, Answer, Edges, Id, Key, Object, OutOfMemory, Query, StoreName};
use tao_keeper::{KeepFail, Keeper};
use tao_schema::Schema;

/// What a read of a store hands out.
#[derive(Drop)]
pub enum ReadOut {
    /// The object, or the shortest front of the list that decides the query.
    Filled(Fill),
    /// No front of the list within its bound decides the query. The answer, the list's version and
    /// its length, and a note of the log.
    Past {
        answer: Answer,
        version: u64,
        total: u64,
        note: Note,
    },
}

impl ReadOut {
    ghost use Rattle.std.specs.Prelude.{IfOk, List};
    ghost use Rattle.shard_tables.specs.ReadOuts.{IsFor, IsReadOutOf};
    ghost use Rattle.shard_tables.specs.Reads.{AnswersAtVersion};
    ghost use Rattle.tao_base.specs.declared.entry.Entry.{Entry};
    ghost use Rattle.tao_schema.specs.Schema.{types_of};

    /// The answer to the query that this was read for, with the version at which it is true: that of
    /// each log of which this is what the query reads. Copies what the answer gives of a fill.
    pub fn found(self, schema: &Schema, query: &Query) -> Result<Found, OutOfMemory>
        requires { IsFor (types_of schema.now) query.now self }
        ensures { IfOk result (λ found. (log : List Entry) → IsReadOutOf (types_of schema.now) log query.now self
            → AnswersAtVersion (types_of schema.now) log query.now found.answer found.version) }
    {
        match self {
            ReadOut::Filled(fill) => {
                let answer = answer_of_fill(&fill, schema, query)?;
                let version = fill.version();
                Ok(Found { answer, version })
            }
            ReadOut::Past {
                answer,
                version,
                ..
            } => Ok(Found { answer, version }),
        }
    }
}

/// The answer to a query for which a fill was read: that of each log of which the fill is what the
/// query reads. Copies what the answer gives.
#[tactic(auto, using(crate::proofs::ReadLemmas::filled_answers))]
pub fn answer_of_fill(fill: &Fill, schema: &Schema, query: &Query) -> Result<Answer, OutOfMemory>
    requires { IsFillFor (types_of schema.now) query.now fill.now }
    ensures { IfOk result (λ answer. (log : List Entry) → IsFilled (types_of schema.now) log query.now fill.now
        → answer ≡ log_answer (types_of schema.now) log query.now) }
{
    fill.content().answer(schema, query)
}

/// How far a log has come.
#[derive(Clone, Copy)]
struct Reach {
    /// The version of a key.
    version: u64,
    /// How many entries the log has.
    length: u64,
}

/// First edges of a list, and how many the list has.
#[derive(Drop)]
struct FirstEdges {
    edges: Edges,
    total: u64,
}

impl StoreNode {
    /// Reads what the store's log has for a query: a fill with the object, or with the shortest front of
    /// the list that decides the query, as of the log's length; or the answer, exactly where the list's
    /// first edges, as many as its type's bound, leave the query undecided. No table changes.
    ///
    /// `KeeperFault` comes only where the keeper's count of faults rose, and `OutOfMemory` where there
    /// was no memory.
    ///
    /// Costs three calls of the keeper for an object or a count, four for another query of a list, and
    /// one more where the list's first edges leave it undecided. At most as many edges are asked for as
    /// the bound of the list's type, and where they leave the query undecided those of the answer, or
    /// for a time range and for edges to some ids the whole list.
    pub fn read<M: Keeper>(
        &mut self,
        alloc: Global,
        keeper: &mut M,
        schema: &Schema,
        query: &Query,
    ) -> Result<ReadOut, StoreRefusal>
        requires keeper { IsStoreOf M.TELLS (M.state keeper.old).told self.old }
        ensures found { WhereTold M.TELLS (IfOk result (IsReadOutOf (types_of schema.now) ((M.state keeper.old).told self.old.name).log query.now)) }
        ensures fits { IfOk result (IsFor (types_of schema.now) query.now) }
        ensures note { IfOk result (λ out. read_note out ≡ note_of self.old) }
        ensures refused { IfErr result IsOfReads }
        ensures tables { KeepsTables M.TELLS (M.state keeper.old) (M.state keeper.new) }
        ensures logs { LogsGrow M.TELLS (M.state keeper.old).told (M.state keeper.new).told }
        ensures same { self.new ≡ self.old }
        ensures keeper { IsStoreOf M.TELLS (M.state keeper.new).told self.new }
        ensures asked { IfOk result (λ _. Rose (M.state keeper.old).calls (M.state keeper.new).calls) }
        ensures calls { CallsKeeper StoreRefusal.KeeperFault (M.state keeper.old) (M.state keeper.new) result }
    {
        let note = self.note()?;
        read_out(alloc, keeper, self.name(), note, schema, query)
    }
}

/// Reads what the keeper's log has for a query, with a note of that log.
fn read_out<M: Keeper>(
    alloc: Global,
    keeper: &mut M,
    at: StoreName,
    note: Note,
    schema: &Schema,
    query: &Query,
) -> Result<ReadOut, StoreRefusal>
    requires told { note.log.told ≡ M.TELLS }
    requires begins { WhereTold M.TELLS (Begins ((M.state keeper.old).told at).log note.entries) }
    ensures found { WhereTold M.TELLS (IfOk result (IsReadOutOf (types_of schema.now) ((M.state keeper.old).told at).log query.now)) }
    ensures fits { IfOk result (IsFor (types_of schema.now) query.now) }
    ensures note { IfOk result (λ out. read_note out ≡ note) }
    ensures refused { IfErr result IsOfReads }
    ensures stays { KeepsTables M.TELLS (M.state keeper.old) (M.state keeper.new) }
    ensures asked { IfOk result (λ _. Rose (M.state keeper.old).calls (M.state keeper.new).calls) }
    ensures calls { CallsKeeper StoreRefusal.KeeperFault (M.state keeper.old) (M.state keeper.new) result }
{
    let found = match query.key() {
        Key::Obj(id) => read_object(keeper, at, note, schema, query, id)?,
        Key::List(id1, atype) => read_list(alloc, keeper, at, note, schema, query, id1, atype)?,
    };
    Ok(found)
}

fn read_object<M: Keeper>(
    keeper: &mut M,
    at: StoreName,
    note: Note,
    schema: &Schema,
    query: &Query,
    id: Id,
) -> Result<ReadOut, KeepFail>
    requires key { query_key query.now ≡ Key.Obj id }
    requires told { note.log.told ≡ M.TELLS }
    requires begins { WhereTold M.TELLS (Begins ((M.state keeper.old).told at).log note.entries) }
    ensures found { WhereTold M.TELLS (IfOk result (IsReadOutOf (types_of schema.now) ((M.state keeper.old).told at).log query.now)) }
    ensures fits { IfOk result (IsFor (types_of schema.now) query.now) }
    ensures note { IfOk result (λ out. read_note out ≡ note) }
    ensures stays { KeepsTables M.TELLS (M.state keeper.old) (M.state keeper.new) }
    ensures asked { IfOk result (λ _. Rose (M.state keeper.old).calls (M.state keeper.new).calls) }
    ensures calls { CallsKeeper KeepFail.Failed (M.state keeper.old) (M.state keeper.new) result }
{
    let Reach { version, length } = reached(keeper, at, Key::Obj(id))?;
    let content = Content::Object(keeper.object(at, id)?);
    Ok(ReadOut::Filled(Fill::seal(Key::Obj(id), version, length, content, note)))
}

fn read_list<M: Keeper>(
    alloc: Global,
    keeper: &mut M,
    at: StoreName,
    note: Note,
    schema: &Schema,
    query: &Query,
    id1: Id,
    atype: AType,
) -> Result<ReadOut, KeepFail>
    requires key { query_key query.now ≡ Key.List id1 atype }
    requires told { note.log.told ≡ M.TELLS }
    requires begins { WhereTold M.TELLS (Begins ((M.state keeper.old).told at).log note.entries) }
    ensures found { WhereTold M.TELLS (IfOk result (IsReadOutOf (types_of schema.now) ((M.state keeper.old).told at).log query.now)) }
    ensures fits { IfOk result (IsFor (types_of schema.now) query.now) }
    ensures note { IfOk result (λ out. read_note out ≡ note) }
    ensures stays { KeepsTables M.TELLS (M.state keeper.old) (M.state keeper.new) }
    ensures asked { IfOk result (λ _. Rose (M.state keeper.old).calls (M.state keeper.new).calls) }
    ensures calls { CallsKeeper KeepFail.Failed (M.state keeper.old) (M.state keeper.new) result }
{
    let bound = schema.bound(atype);
    let Reach { version, length } = reached(keeper, at, Key::List(id1, atype))?;
    let first = first_edges(alloc, keeper, at, id1, atype, bound, query)?;
    let total = first.total;
    match shortest_of(first, query, bound) {
        Some(front) => {
            let key = Key::List(id1, atype);
            let content = Content::List(front);
            Ok(ReadOut::Filled(Fill::seal(key, version, length, content, note)))
        }
        None => {
            let answer = answer_past(keeper, at, id1, atype, total, bound, query)?;
            Ok(ReadOut::Past {
                answer,
                version,
                total,
                note,
            })
        }
    }
}

/// The version of a key and the log's length, by two calls of the keeper.
fn reached<M: Keeper>(keeper: &mut M, at: StoreName, key: Key) -> Result<Reach, KeepFail>
    ensures version { WhereTold M.TELLS (IfOk result (λ reached. reached.version ≡ version_of ((M.state keeper.old).told at).log key)) }
    ensures length { WhereTold M.TELLS (IfOk result (λ reached. reached.length ≡ length ((M.state keeper.old).told at).log)) }
    ensures stays { KeepsTables M.TELLS (M.state keeper.old) (M.state keeper.new) }
    ensures asked { IfOk result (λ _. Rose (M.state keeper.old).calls (M.state keeper.new).calls) }
    ensures calls { CallsKeeper KeepFail.Failed (M.state keeper.old) (M.state keeper.new) result }
{
    let version = keeper.version(at, key)?;
    let length = keeper.length(at)?;
    Ok(Reach { version, length })
}

/// The list's length, by one call of the keeper, and but for a count by one more as many of its
/// first edges as show whether a front within the bound decides the query. A keeper that doesn't
/// tell may count fewer than the edges that it gives; the length is then their number.
fn first_edges<M: Keeper>(
    alloc: Global,
    keeper: &mut M,
    at: StoreName,
    id1: Id,
    atype: AType,
    bound: u64,
    query: &Query,
) -> Result<FirstEdges, KeepFail>
    ensures needed { WhereTold M.TELLS (IfOk result (λ first.
        AreNeeded bound query.now (edge_list ((M.state keeper.old).told at).log id1 atype) first.edges first.total)) }
    ensures begins { IfOk result (λ first. CanBegin first.edges first.total) }
    ensures stays { KeepsTables M.TELLS (M.state keeper.old) (M.state keeper.new) }
    ensures calls { CallsKeeper KeepFail.Failed (M.state keeper.old) (M.state keeper.new) result }
{
    let count = keeper.count(at, id1, atype)?;
    let most = count_needed(query, bound);
    let edges = if most == 0 {
        Edges::of(Vec::new(alloc))
    } else {
        keeper.edges(at, id1, atype, 0, most)?
    };
    let total = count.max(edges.as_slice().len() as u64);
    Ok(FirstEdges { edges, total })
}

fn count_needed(query: &Query, bound: u64) -> u64
    ensures { result ≡ needed_count bound query.now }
{
    match query {
        Query::ObjGet { .. } | Query::AssocCount { .. } => 0,
        Query::AssocRange { pos, limit, .. } => {
            let end = u64::from(*pos) + u64::from(*limit).min(bound);
            end.min(bound)
        }
        Query::AssocTimeRange { .. } | Query::AssocGet { .. } => bound,
    }
}

/// The shortest front that decides the query, where one within the bound does. Takes no memory.
fn shortest_of(first: FirstEdges, query: &Query, bound: u64) -> Option<Prefix>
    requires { CanBegin first.edges first.total }
    ensures { IsFrontFor (list_prefix first.edges first.total) query.now bound result }
{
    let FirstEdges { edges, total } = first;
    let count = shortest_front(edges.as_slice(), total, query, bound)?;
    let mut front = edges.into_vec();
    front.truncate(count);
    Some(Prefix::of(Edges::of(front), total))
}

/// What a list of that length answers to a query that its first edges leave undecided. One call of
/// the keeper.
fn answer_past<M: Keeper>(
    keeper: &mut M,
    at: StoreName,
    id1: Id,
    atype: AType,
    total: u64,
    bound: u64,
    query: &Query,
) -> Result<Answer, KeepFail>
    requires of_list { IsOfList query.now }
    requires total { WhereTold M.TELLS (total ≡ length (edge_list ((M.state keeper.old).told at).log id1 atype)) }
    ensures answer { WhereTold M.TELLS (IfOk result (λ answer. answer
        ≡ whole_answer bound (edge_list ((M.state keeper.old).told at).log id1 atype) query.now)) }
    ensures stays { KeepsTables M.TELLS (M.state keeper.old) (M.state keeper.new) }
    ensures calls { CallsKeeper KeepFail.Failed (M.state keeper.old) (M.state keeper.new) result }
{
    match query {
        Query::ObjGet { .. } => unreachable!(),
        Query::AssocCount { .. } => Ok(Answer::Count(total)),
        Query::AssocRange { pos, limit, .. } => {
            let used = u64::from(*limit).min(bound);
            let edges = keeper.edges(at, id1, atype, u64::from(*pos), used)?;
            Ok(Answer::Edges(edges))
        }
        Query::AssocTimeRange { .. } => select(keeper, at, id1, atype, total, bound, query),
        Query::AssocGet { .. } => select(keeper, at, id1, atype, total, bound, query),
    }
}
