//! What follows of the calls and the polls of a batch.
ghost use Rattle.shared_tiers.specs.locked_nodes.Cluster.{on_cluster};
ghost use Rattle.read_batch.specs.Polls.{AlwaysAnswersAll, CountsPending};

use shared_stores::Sharing;
use tao_keeper::Keeper;

/// The replies to requests are as many as these, and the pass goes on over all of them: no key goes back.
#[tactic(auto, using(crate::proofs::Stepping::answers_all))]
pub fn all_are_answered<K: Keeper, J: Sharing>()
    ensures { AlwaysAnswersAll (on_cluster K.TELLS K.state J.making J.log) }
{}

/// A batch is pending once less than it has requests, and never where it has none.
#[tactic(auto, using(crate::proofs::Stepping::counts_pending))]
pub fn pending_polls_are_one_less<K: Keeper, J: Sharing>()
    ensures { CountsPending (on_cluster K.TELLS K.state J.making J.log) }
{}
