//! What stays so, and what a plan comes to that is carried out whole. Each law is the contract of a function that does nothing.
ghost use Rattle.core_plans.specs.HeldLaws.{AnswersAreLearnt, AsksStayHeld, NothingIsMissedLater, StagesMissNothing};
ghost use Rattle.core_plans.specs.LedBy.{Rules};
ghost use Rattle.core_plans.specs.WholeLaws.{WholeCallIsUp, WholeRead, WholeWrite, WrittenIsThere};
ghost use Rattle.core_plans.specs.declared.held.HeldPlan.{HeldPlan as AnyPlan};
ghost use Rattle.core_steps.specs.World.{World};
ghost use Rattle.read_plan.specs.Readings.{Reading};
ghost use Rattle.topology.specs.Config.{Settings};
ghost use Rattle.write_plan.specs.Plans.{Writing};

/// Each open ask stays that of one held read, whatever is done to the nodes but for the look of a held read.
#[tactic(auto, using(crate::proofs::AsksHeld::asks_stay_held))]
pub fn asks_stay_held()
    ensures { AsksStayHeld }
{}

/// A critical read that begins misses nothing that stands, and what it doesn't miss it doesn't miss later.
#[tactic(auto, using(crate::proofs::Missing::nothing_is_missed_later))]
pub fn nothing_is_missed_later()
    ensures { NothingIsMissedLater }
{}

/// A stage of a held read misses nothing that the read didn't miss before, where stores and nodes are settled.
#[tactic(auto, using(crate::proofs::WholeStages::stages_miss_nothing))]
pub fn stages_miss_nothing()
    ensures { (s : Settings) (p q : Reading) (old new : World) → StagesMissNothing s p old q new }
{}

/// A stage that answers a held read is one before which the session that is to learn of it is known, and no stage changes for whom a read is.
#[tactic(auto, using(crate::proofs::ReadEndings::answers_are_learnt))]
pub fn answers_are_learnt()
    ensures { (rules : Rules) (p q : Reading) (old new : World) → AnswersAreLearnt rules p old q new }
{}

/// An answer of a read that does all of its stages says exactly the carries that they took, and whether they called a keeper, and is legal in
/// the log as it is at their end. Such a read changes no table and no message.
#[tactic(auto, using(crate::proofs::WholeReads::whole_reads))]
pub fn whole_reads()
    ensures { (rules : Rules) (p : Reading) (old : World) (q : AnyPlan) (new : World) → WholeRead rules p old q new }
{}

/// An Ok reply of a write that does all of its stages says exactly the carries that they took: two, or four where it passes a leader, and two more
/// at most for its other end. Such a write that is refused as out of memory has written nothing.
#[tactic(auto, using(crate::proofs::WholeWrites::whole_writes))]
pub fn whole_writes()
    ensures { (rules : Rules) (p : Writing) (old : World) (q : AnyPlan) (new : World) → WholeWrite rules p old q new }
{}

/// Where the Ok reply of a write that does all of its stages says its inverse is written, each record that its entry owes to another shard
/// is there, or a later one.
#[tactic(auto, using(crate::proofs::InverseThere::written_is_there))]
pub fn written_is_there()
    ensures { (s : Settings) (p : Writing) (old : World) (q : AnyPlan) (new : World) → WrittenIsThere s p old q new }
{}

/// A plan that is carried out whole from a follower that is up finds each node up that it needs: it doesn't end with `node_down`, and with
/// `no_server` only as a write for which no leader could be chosen at its beginning.
#[tactic(auto, using(crate::proofs::WholeUp::whole_calls_are_up))]
pub fn whole_calls_are_up()
    ensures { (rules : Rules) (plan : AnyPlan) (old : World) (q : AnyPlan) (new : World) → WholeCallIsUp rules plan old q new }
{}
