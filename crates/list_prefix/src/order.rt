//! The order of an association list.
ghost use Rattle.std.specs.Prelude.{◌≡◌, ◌≤◌, length, map};
ghost use Rattle.graph_model.specs.Edges.{IsInListOrder, is_newer};
ghost use Rattle.list_prefix.specs.Spans.{from_on, later_than};

use crate::as_edge::AsEdge;
use tao_base::{Edge, Time};

/// Whether an edge stands before another: it is of a later time, or of the same time and goes to
/// the greater id.
pub fn comes_before(edge: &Edge, other: &Edge) -> bool
    ensures { result ≡ is_newer edge.now other.now }
{
    other.time < edge.time || (edge.time == other.time && other.id2 < edge.id2)
}

/// How many edges are later than a time: the place of the first that is not.
pub fn later_count<E: AsEdge>(edges: &[E], high: Time) -> usize
    requires { IsInListOrder (map E.edge edges.now) }
    ensures value { result ≡ later_than high (map E.edge edges.now) }
    ensures within { result ≤ length edges.now }
{
    edges.partition_point(|edge| high < edge.as_edge().time)
}

/// How many edges are no earlier than a time: the place of the first that is earlier.
pub fn from_count<E: AsEdge>(edges: &[E], low: Time) -> usize
    requires { IsInListOrder (map E.edge edges.now) }
    ensures value { result ≡ from_on low (map E.edge edges.now) }
    ensures within { result ≤ length edges.now }
{
    edges.partition_point(|edge| low <= edge.as_edge().time)
}
