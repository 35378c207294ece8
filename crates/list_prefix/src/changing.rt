//! What a change does to the first edges of a list and to its length.
ghost use Rattle.std.specs.Prelude.{◌≡◌, ◌<◌, ◌≤◌, vec_capacity, vec_len};
ghost use Rattle.graph_model.specs.Edges.{IsInListOrder, insert_edge, without_edge};
ghost use Rattle.graph_model.specs.Prefixes.{is_before_last};
ghost use Rattle.list_prefix.specs.Changes.{
  fallen,
  rest_of,
  risen,
  shortened,
  with_edge,
};
ghost use Rattle.list_prefix.specs.ListPrefix.{list_prefix};

use crate::order::comes_before;
use tao_base::{Edge, Id, Time};

/// Takes the edge to an id out, and gives the new length.
pub fn take_out(edges: &mut Vec<Edge>, total: u64, id2: Id, was: Option<Time>) -> u64
    ensures rest { list_prefix edges.new.items result ≡ rest_of id2 was (list_prefix edges.old.items total) }
    ensures fewer { vec_len edges.new ≤ vec_len edges.old }
    ensures capacity { vec_capacity edges.new ≡ vec_capacity edges.old }
{
    remove(edges, id2);
    fall(total, was, edges.len())
}

/// Puts an edge in where its place is known, and gives the new length. Needs room for the edge, and
/// takes no memory.
pub fn put_in(edges: &mut Vec<Edge>, total: u64, edge: Edge, bound: u64) -> u64
    requires in_order { IsInListOrder edges.old.items }
    requires room { vec_len edges.old < vec_capacity edges.old }
    ensures { list_prefix edges.new.items result ≡ with_edge edge (list_prefix edges.old.items total) bound }
{
    if edges.len() as u64 == total || comes_before_last(&edge, edges.as_slice()) {
        insert(edges, edge);
    }
    shorten(edges, bound);
    rise(total)
}

/// Takes the last edge off where there are more than the bound.
pub fn shorten(edges: &mut Vec<Edge>, bound: u64)
    ensures { edges.new.items ≡ shortened bound edges.old.items }
{
    let count = edges.len();
    if bound < count as u64 {
        edges.truncate(count - 1);
    }
}

fn remove(edges: &mut Vec<Edge>, id2: Id)
    ensures items { edges.new.items ≡ without_edge id2 edges.old.items }
    ensures fewer { vec_len edges.new ≤ vec_len edges.old }
    ensures capacity { vec_capacity edges.new ≡ vec_capacity edges.old }
{
    edges.retain(|edge| edge.id2 != id2);
}

fn insert(edges: &mut Vec<Edge>, edge: Edge)
    requires in_order { IsInListOrder edges.old.items }
    requires room { vec_len edges.old < vec_capacity edges.old }
    ensures { edges.new.items ≡ insert_edge edge edges.old.items }
{
    let place = edges.partition_point(|other| !comes_before(&edge, other));
    if edges.insert(place, edge).is_err() {
        unreachable!();
    }
}

fn comes_before_last(edge: &Edge, edges: &[Edge]) -> bool
    ensures { result ≡ is_before_last edge.now edges.now }
{
    edges.last().is_some_and(|last| comes_before(edge, last))
}

fn fall(total: u64, was: Option<Time>, count: usize) -> u64
    ensures { result ≡ fallen was count total }
{
    if was.is_some() && (count as u64) < total {
        total - 1
    } else {
        total
    }
}

fn rise(total: u64) -> u64
    ensures { result ≡ risen total }
{
    total.saturating_add(1)
}
