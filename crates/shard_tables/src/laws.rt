//! Laws of writes.
ghost use Rattle.shard_tables.specs.WriteSteps.{WritesAreSteps};

/// What the clauses of `StoreNode::write` say is a step of the stores of all shards: the write commits its entry with its
/// job, changes nothing, or repeats.
#[tactic(auto, using(crate::proofs::WriteSteps::writes_are_steps))]
pub fn writes_are_steps()
    ensures { WritesAreSteps }
{}
