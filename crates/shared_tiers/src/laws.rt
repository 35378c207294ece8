//! What follows of the replies of `Cluster::call`.
ghost use Rattle.cluster_closing.specs.locked_nodes.Cluster.{on_cluster};
ghost use Rattle.shared_tiers.specs.Exactly.{AreExact};

use shared_stores::Sharing;
use tao_keeper::Keeper;

/// A word is said not to be served exactly where the request is no read or write, and no session to be there exactly where a read or a write is of another
/// one than the pass's, whatever the keepers tell.
#[tactic(auto, using(crate::proofs::ExactLemmas::are_exact))]
pub fn refusals_are_exact<K: Keeper, J: Sharing>()
    ensures { AreExact (on_cluster K.TELLS K.state J.making J.log) }
{}
