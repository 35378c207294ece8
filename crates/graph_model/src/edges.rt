//! Laws of association lists.
ghost use Rattle.graph_model.specs.EdgeLaws.{ListIsTheOnlyOne, StretchesAreInOrder};

use tao_base::{AType, Entry, Id};

/// A list has each live edge once and nothing else, strictly descending, and no other list has.
#[tactic(auto, using(crate::proofs::Lists::only_list))]
pub fn list_is_the_only_one(_log: &[Entry], _id1: Id, _atype: AType)
    ensures { ListIsTheOnlyOne _log.now _id1 _atype }
{}

/// Each stretch of a list, the whole included, is strictly descending, with distinct ids.
#[tactic(auto, using(crate::proofs::Lists::stretches_in_order))]
pub fn stretches_are_in_order(_log: &[Entry], _id1: Id, _atype: AType)
    ensures { StretchesAreInOrder _log.now _id1 _atype }
{}
