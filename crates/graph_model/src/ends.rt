//! The two ends of an edge.
ghost use Rattle.graph_model.specs.EndLaws.{NearEndsArePaired};

use tao_base::Entry;

/// In a sound log of a shard, an edge whose two ends lie on the shard has the same record at both.
#[tactic(auto, using(crate::proofs::NearEnds::near_ends_are_paired))]
pub fn near_ends_are_paired(_shard: u16, _log: &[Entry])
    ensures { NearEndsArePaired _shard _log.now }
{}
