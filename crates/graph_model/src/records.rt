//! The join of two records of one edge.
ghost use Rattle.graph_model.specs.RecordLaws.{JoinLaws};

/// Records of one edge join in any order.
#[tactic(auto, using(crate::proofs::Joins::join_laws))]
pub fn joins_commute()
    ensures { JoinLaws }
{}
