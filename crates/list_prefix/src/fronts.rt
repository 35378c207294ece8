//! How few of a list's first edges decide a query.
ghost use Rattle.std.specs.Prelude.{◌≡◌, ◌≤◌, true, IfNone, IfSome, length, min, take};
ghost use Rattle.graph_model.specs.Prefixes.{decides};
ghost use Rattle.list_prefix.specs.Fronts.{IsLeftOpen, IsShortest};
ghost use Rattle.list_prefix.specs.ListPrefix.{CanBegin};

use crate::deciding::is_decided;
use tao_base::{Edge, Query};

/// How many of the first edges of a list that has `total` edges decide the query, at the least.
/// None where all of these edges, or the first `bound` of them, leave it undecided. Takes no
/// memory.
///
/// With n edges it tests at most log n fronts whether they decide, each in constant time for a
/// count or a range, log n for a time range, and n log m for edges to m ids.
pub fn shortest_front(edges: &[Edge], total: u64, query: &Query, bound: u64) -> Option<usize>
    requires { CanBegin edges.now total }
    ensures some { IfSome result (IsShortest bound edges.now total query.now) }
    ensures none { IfNone result (IsLeftOpen bound edges.now total query.now) }
{
    let most = bound.min(edges.len() as u64) as usize;
    if !is_decided(&edges[..most], total, query, bound) {
        return None;
    }
    Some(first_deciding(edges, total, query, bound, most))
}

/// The least number of first edges that decide the query, given one that does.
fn first_deciding(edges: &[Edge], total: u64, query: &Query, bound: u64, most: usize) -> usize
    requires begins { CanBegin edges.now total }
    requires within { most ≤ min (length edges.now) bound }
    requires decided { decides bound (take most edges.now) total query.now ≡ true }
    ensures { IsShortest bound edges.now total query.now result }
{
    let (mut low, mut high) = (0, most);
    while low < high {
        let middle = low + (high - low) / 2;
        if is_decided(&edges[..middle], total, query, bound) {
            high = middle;
        } else {
            low = middle + 1;
        }
    }
    high
}
