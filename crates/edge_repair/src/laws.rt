//! What repairs are to the stores of all shards.
ghost use Rattle.edge_repair.specs.Laws.{RepairLaws};

/// A repair merges the job and then ends it, as steps of the stores of all shards; a refused one does nothing, or merges it.
#[tactic(auto, using(crate::proofs::Steps::repair_laws))]
pub fn repairs_are_steps()
    ensures { RepairLaws }
{}
