//! How a cluster ends.
ghost use Rattle.std.specs.Prelude.{◌≡◌, length};
ghost use Rattle.cluster_closing.specs.unlocked_nodes.Unlocked.{MaySettle};
ghost use Rattle.core_model.specs.Stores.{store_count};
ghost use Rattle.keepers.specs.Shown.{told_in};

use crate::cluster::Cluster;
use cluster_closing::Closed;
use shared_stores::Sharing;
use tao_keeper::Keeper;

impl<'c, K: Keeper + Drop, J: Sharing> Cluster<'c, K, J> {
    /// Closes the cluster, which nobody calls any more: its nodes, stores and keepers are taken out of their locks, and the messages that wait are lost.
    /// Takes no memory.
    pub fn close(self) -> Closed<'c, K, J>
        ensures ready { MaySettle K.TELLS J.making J.log (told_in K.state J.making.settings.shards result.keepers.items) result.unlocked }
        ensures many { length result.keepers.items ≡ store_count J.making.settings }
    {
        cluster_closing::close(self.nodes)
    }
}
