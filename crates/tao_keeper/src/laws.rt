//! Laws of tables.
ghost use Rattle.tao_keeper.specs.Cuts.{CutLaws};
ghost use Rattle.tao_keeper.specs.Growing.{CutsStayLaws, GrowingLaws};

/// Calls of a keeper make logs grow, and what grows in turn grows.
#[tactic(auto, using(crate::proofs::Growing::growing_laws))]
pub fn logs_only_grow()
    ensures { GrowingLaws }
{}

/// A log is its old entries followed by its live ones.
#[tactic(auto, using(crate::proofs::Cuts::cut_laws))]
pub fn logs_are_in_two_parts()
    ensures { CutLaws }
{}

/// Calls of a keeper but `cut` move no log's cut.
#[tactic(auto, using(crate::proofs::Growing::cuts_stay_laws))]
pub fn cuts_stay()
    ensures { CutsStayLaws }
{}
