//! What follows of the definitions, for callers to cite.
ghost use Rattle.std.specs.Prelude.{ℕ};
ghost use Rattle.shard_clone.specs.Clones.{Clones};
ghost use Rattle.shard_clone.specs.Laws.{WithoutClones};
ghost use Rattle.topology.specs.States.{NodeStates};

/// Without a clone of a shard, a session reads it at the follower that the topology gives.
#[tactic(auto, using(crate::proofs::Uncloned::without_clones))]
pub fn without_clones()
    ensures { (c : Clones) (states : NodeStates) (shard : ℕ) → WithoutClones c states shard }
{}
