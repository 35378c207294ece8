//! The order of lists.
ghost use Rattle.std.specs.Prelude.{◌≡◌, ◌∷◌, IfOk, IsTrue, true};
ghost use Rattle.std.specs.List.{AllByRecursion};
ghost use Rattle.graph_model.specs.Edges.{IsInListOrder, IsNewestFirst, is_newer};
ghost use Rattle.keeper_sql.specs.MetIds.{IsMet};

use std::alloc::Global;
use std::collections::BTreeSet;
use tao_base::{Edge, Id, OutOfMemory};

/// Whether the edge stands before the other in a list.
fn comes_before(edge: &Edge, later: &Edge) -> bool
    ensures { result ≡ is_newer edge.now later.now }
{
    later.time < edge.time || (edge.time == later.time && later.id2 < edge.id2)
}

/// Whether the edge stands before the first of the others, and so before all of them where they stand in order.
fn comes_first(edge: &Edge, later: &[Edge]) -> bool
    ensures { IsTrue result → IsNewestFirst later.now → AllByRecursion (λ e. is_newer edge.now e ≡ true) later.now }
{
    match later {
        [] => true,
        [next, ..] => comes_before(edge, next),
    }
}

/// Whether the edge stands before those that follow it, and goes to none of their ids, which were met. Then its own is met too. One look-up.
fn precedes(met: &mut BTreeSet<Id>, edge: &Edge, later: &[Edge]) -> Result<bool, OutOfMemory>
    ensures { IfOk result (λ yes. IsTrue yes → IsMet met.old later.now → IsMet met.new (edge.now ∷ later.now)) }
{
    if !comes_first(edge, later) {
        return Ok(false);
    }
    Ok(met.insert(edge.id2)?)
}

/// Whether the edges stand in the order of lists, and go to different ids. From the last edge on each takes a look-up among the ids that were met, for
/// which there has to be memory.
pub(crate) fn is_in_list_order(alloc: Global, edges: &[Edge]) -> Result<bool, OutOfMemory>
    ensures { IfOk result (λ yes. IsTrue yes → IsInListOrder edges.now) }
{
    let mut met = BTreeSet::new(alloc);
    let mut at = edges.len();
    while at > 0 {
        at -= 1;
        if !precedes(&mut met, &edges[at], &edges[at + 1..])? {
            return Ok(false);
        }
    }
    Ok(true)
}
