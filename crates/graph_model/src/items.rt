//! Cached items stay exact.
ghost use Rattle.graph_model.specs.ItemLaws.{BeginningIsExact, ExactFollows, ExactStays};

use tao_base::{Entry, Touch};

/// An item that is exact stays exact while the log grows.
#[tactic(auto, using(crate::proofs::Exact::items_stay))]
pub fn exact_items_stay(_log: &[Entry], _more: &[Entry])
    ensures { ExactStays _log.now _more.now }
{}

/// What the first entries of a log give is exact at its version.
#[tactic(auto, using(crate::proofs::Exact::beginning_is_exact))]
pub fn beginnings_are_exact(_log: &[Entry], _length: u64)
    ensures { BeginningIsExact _log.now _length }
{}

/// A touch takes an exact item to the next version.
#[tactic(auto, using(crate::proofs::Exact::exact_follows))]
pub fn exact_items_follow(_log: &[Entry], _touch: &Touch)
    ensures { ExactFollows _log.now _touch.now }
{}
