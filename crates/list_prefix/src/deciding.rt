//! Which queries the first edges of a list and its length decide.
ghost use Rattle.std.specs.Prelude.{◌≡◌, ◌==◌, ◌<◌, ◌^◌, Some, count_by, length, min, nat_eq};
ghost use Rattle.std.specs.List.{list_all, list_any};
ghost use Rattle.graph_model.specs.Edges.{IsInListOrder};
ghost use Rattle.graph_model.specs.Prefixes.{
  count_within,
  decides,
  ends_below,
  ends_below_given,
  is_empty_span,
};

use crate::order::{from_count, later_count};
use tao_base::{Edge, IdSet, Query, Time};

/// Whether the edges, which a list of that length begins with, decide the query. Takes no memory.
/// Costs a few comparisons for a count or a range, two binary searches for a time range, and for
/// edges to some ids a binary search among the ids for each edge.
pub fn is_decided(edges: &[Edge], total: u64, query: &Query, bound: u64) -> bool
    requires { IsInListOrder edges.now }
    ensures { result ≡ decides bound edges.now total query.now }
{
    match query {
        Query::ObjGet { .. } => false,
        Query::AssocCount { .. } => true,
        Query::AssocRange { pos, limit, .. } => {
            let from = u64::from(*pos);
            let end = from + used_limit(*limit, bound);
            is_complete(edges, total) || end <= edges.len() as u64 || total <= from
        }
        Query::AssocTimeRange {
            high,
            low,
            limit,
            ..
        } => {
            is_complete(edges, total)
                || high < low
                || used_limit(*limit, bound) <= number_within(edges, *high, *low)
                || ends_before(edges, *low)
        }
        Query::AssocGet { ids, high, low, .. } => {
            is_complete(edges, total)
                || are_crossed(*high, *low)
                || ends_before_given(edges, *low)
                || has_each(edges, ids)
        }
    }
}

/// How many edges a query that asks for at most `limit` may be given.
pub fn used_limit(limit: u32, bound: u64) -> u64
    ensures value { result ≡ min limit bound }
    ensures small { result < 2 ^ 32 }
{
    u64::from(limit).min(bound)
}

fn is_complete(edges: &[Edge], total: u64) -> bool
    ensures { result ≡ nat_eq (length edges.now) total }
{
    edges.len() as u64 == total
}

fn number_within(edges: &[Edge], high: Time, low: Time) -> u64
    requires { IsInListOrder edges.now }
    ensures { result ≡ count_within (Some low) (Some high) edges.now }
{
    let start = later_count(edges, high);
    from_count(edges, low).saturating_sub(start) as u64
}

/// Whether there is an edge to each of the ids. The edges go to distinct ids, so it is enough to
/// count those that go to one of the set.
fn has_each(edges: &[Edge], ids: &IdSet) -> bool
    requires { IsInListOrder edges.now }
    ensures { result ≡ list_all (λ id. list_any (λ e. id == e.id2) edges.now) ids.now }
{
    number_to(edges, ids) == ids.as_slice().len()
}

fn are_crossed(high: Option<Time>, low: Option<Time>) -> bool
    ensures { result ≡ is_empty_span low high }
{
    match (low, high) {
        (Some(low), Some(high)) => high < low,
        _ => false,
    }
}

fn ends_before(edges: &[Edge], low: Time) -> bool
    ensures { result ≡ ends_below low edges.now }
{
    edges.last().is_some_and(|last| last.time < low)
}

fn ends_before_given(edges: &[Edge], low: Option<Time>) -> bool
    ensures { result ≡ ends_below_given low edges.now }
{
    low.is_some_and(|low| ends_before(edges, low))
}

fn number_to(edges: &[Edge], ids: &IdSet) -> usize
    ensures { result ≡ count_by (λ e. list_any (λ id. id == e.id2) ids.now) edges.now }
{
    edges.iter().filter(|edge| ids.contains(edge.id2)).count()
}
