//! What all connections of a server share.
use read_herds::Herd;
use shared_stores::Sharing;
use shared_tiers::Cluster;
use tao_keeper::Keeper;

/// What all connections of a server share: the runtime that waits for locks, the cluster, and the herds of its readers.
#[derive(Drop)]
pub(crate) struct Host<'a, 'c, W, K: Keeper, J: Sharing> {
    pub rt: &'a W,
    pub cluster: &'a Cluster<'c, K, J>,
    pub herd: &'a Herd,
}
