//! What plans are. The law is the contract of a function that does nothing.
ghost use Rattle.write_plan.specs.PlanLaws.{PlanLaws};

/// A plan ends after five stages at most. An Ok reply names the entry that the commit answered.
#[tactic(auto, using(crate::proofs::Ending::plan_laws))]
pub fn plans_end()
    ensures { PlanLaws }
{}
