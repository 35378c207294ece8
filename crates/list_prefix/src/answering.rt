//! What the edges of a list and its length answer, of edges that are held or referred to. Each answer
//! copies the edges that it gives and no others.
ghost use Rattle.std.specs.Prelude.{◌≡◌, ◌++◌, ◌∷◌, ◌&&◌, [], IfOk, OnErr, OnOk, Some, drop, filter, map, take};
ghost use Rattle.graph_model.specs.Answers.{
  at_least,
  at_most,
  list_answer,
  range,
  to_ids,
  within,
};
ghost use Rattle.graph_model.specs.Edges.{IsInListOrder};
ghost use Rattle.list_prefix.specs.Spans.{is_wanted};
ghost use Rattle.list_prefix.specs.Verdicts.{AsksForEdges};

use crate::as_edge::AsEdge;
use crate::deciding::used_limit;
use crate::order::{from_count, later_count};
use std::alloc::Global;
use tao_base::{Answer, Edge, Edges, IdSet, OutOfMemory, Query, Time};

/// What a list answers to a query of it, of which these are the edges and the length. `bound` is how
/// many edges of such a list a range or a time range gives at most. A query of an object is one of no
/// list, and gives no object.
///
/// Costs as many copies as edges are given, and two binary searches for a time range, or for edges to
/// some ids a binary search among the ids for each edge. The one error is out of memory, where edges
/// are asked for.
pub fn answer_of<E: AsEdge>(
    alloc: Global,
    edges: &[E],
    total: u64,
    query: &Query,
    bound: u64,
) -> Result<Answer, OutOfMemory>
    requires { IsInListOrder (map E.edge edges.now) }
    ensures answer { IfOk result (λ answer. answer ≡ list_answer bound (map E.edge edges.now) total query.now) }
    ensures memory { OnErr result (AsksForEdges query.now) }
{
    let given = match query {
        Query::ObjGet { .. } => return Ok(Answer::Object(None)),
        Query::AssocCount { .. } => return Ok(Answer::Count(total)),
        Query::AssocRange { pos, limit, .. } => {
            edges_at(alloc, edges, u64::from(*pos), used_limit(*limit, bound))?
        }
        Query::AssocTimeRange {
            high,
            low,
            limit,
            ..
        } => time_range(alloc, edges, *high, *low, used_limit(*limit, bound))?,
        Query::AssocGet { ids, high, low, .. } => get(alloc, edges, ids, *high, *low)?,
    };
    Ok(Answer::Edges(given))
}

/// The edges at the places from `pos` on, at most `most` of them. Copies these.
pub fn edges_at<E: AsEdge>(
    alloc: Global,
    edges: &[E],
    pos: u64,
    most: u64,
) -> Result<Edges, OutOfMemory>
    ensures { IfOk result (λ given. given ≡ range pos most (map E.edge edges.now)) }
{
    copies_of(alloc, part(edges, pos, most))
}

fn part<T>(items: &[T], pos: u64, most: u64) -> &[T]
    ensures { result.now ≡ take most (drop pos items.now) }
{
    let rest = &items[items.len().min(pos as usize)..];
    &rest[..rest.len().min(most as usize)]
}

fn time_range<E: AsEdge>(
    alloc: Global,
    edges: &[E],
    high: Time,
    low: Time,
    used: u64,
) -> Result<Edges, OutOfMemory>
    requires { IsInListOrder (map E.edge edges.now) }
    ensures { IfOk result (λ given. given ≡ take used (within (Some low) (Some high) (map E.edge edges.now))) }
{
    let start = later_count(edges, high) as u64;
    let count = (from_count(edges, low) as u64).saturating_sub(start);
    edges_at(alloc, edges, start, count.min(used))
}

fn get<E: AsEdge>(
    alloc: Global,
    edges: &[E],
    ids: &IdSet,
    high: Option<Time>,
    low: Option<Time>,
) -> Result<Edges, OutOfMemory>
    ensures { IfOk result (λ given. given ≡ within low high (to_ids ids.now (map E.edge edges.now))) }
{
    let mut given = Vec::new(alloc);
    for item in edges {
        push_wanted(&mut given, item.as_edge(), ids, high, low)?;
    }
    Ok(Edges::of(given))
}

/// Appends a copy of an edge that is asked for.
fn push_wanted(
    given: &mut Vec<Edge>,
    edge: &Edge,
    ids: &IdSet,
    high: Option<Time>,
    low: Option<Time>,
) -> Result<(), OutOfMemory>
    ensures { OnOk result (given.new.items ≡ given.old.items ++ filter (is_wanted ids.now low high) (edge.now ∷ [])) }
{
    if is_within(edge.time, high, low) && ids.contains(edge.id2) {
        given.push(edge.copy()?)?;
    }
    Ok(())
}

fn is_within(time: Time, high: Option<Time>, low: Option<Time>) -> bool
    ensures { result ≡ (at_least low time && at_most high time) }
{
    low.is_none_or(|low| low <= time) && high.is_none_or(|high| time <= high)
}

/// Copies of the edges, each of which takes memory.
pub fn copies_of<E: AsEdge>(alloc: Global, edges: &[E]) -> Result<Edges, OutOfMemory>
    ensures { IfOk result (λ copies. copies ≡ map E.edge edges.now) }
{
    let mut copies = Vec::with_capacity(alloc, edges.len())?;
    for item in edges {
        copies.push(item.as_edge().copy()?)?;
    }
    Ok(Edges::of(copies))
}
