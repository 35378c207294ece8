//! What holds at each state of a run, and across two runs.
ghost use Rattle.std.specs.Prelude.{Bool};
ghost use Rattle.tao_top.specs.Across.{RunsStandAcross};
ghost use Rattle.tao_top.specs.Laws.{RunsGoOn};
ghost use Rattle.tao_top.specs.PromisedLaws.{RefusesRightly, RunsArePromised};

/// After every line the core that serves may be used with the keepers' tables: its nodes are consistent, and the logs sound and covered.
#[tactic(auto, using(crate::proofs::RunLaws::runs_go_on))]
pub fn runs_go_on()
    ensures { (tells : Bool) → RunsGoOn tells }
{}

/// The lines that a run answers, and the texts of their replies, are as promised: each a step of the promise, one after another.
#[tactic(auto, using(crate::proofs::Promised::runs_are_promised))]
pub fn runs_are_promised()
    ensures { RunsArePromised }
{}

/// A line that asks what can be done is refused before anything is done as out of memory alone.
#[tactic(auto, using(crate::proofs::Promised::refuses_rightly))]
pub fn refuses_rightly()
    ensures { RefusesRightly }
{}

/// A write that a run acknowledged stands at its position after each run that follows over the same keepers, once under its origin, however the runs ended,
/// and that run may begin where the first might.
#[tactic(auto, using(crate::proofs::AcrossRuns::runs_stand_across))]
pub fn runs_stand_across()
    ensures { RunsStandAcross }
{}
