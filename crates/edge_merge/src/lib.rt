//! The join of two records of an edge, by which its two ends come to agree: of two records the one
//! with the greater stamp stays, in whatever order and however often they arrive.
//!
//! What it promises. The later of two records stays; takes no memory.
//!
//! The contracts that say so: `merge`.
#![tactic(auto)]

ghost use Rattle.std.specs.Prelude.{◌≡◌, Some};
ghost use Rattle.graph_model.specs.Records.{join};

use tao_base::EdgeState;

/// Joins a new record with the one that was there: the later one of the two, and of records with
/// one stamp, which are the same record, the one that was there. Takes no memory.
pub fn merge(old: Option<EdgeState>, new: EdgeState) -> EdgeState
    ensures { Some result ≡ join old (Some new) }
{
    match old {
        Some(old) if !old.stamp().is_before(&new.stamp()) => old,
        _ => new,
    }
}
