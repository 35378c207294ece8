//! What a settle stops with.
ghost use Rattle.std.specs.Prelude.{◌≡◌};
ghost use Rattle.core_repairs.specs.Stops.{IsOfSettles, StopsAsRefused, unsettled_as};

use core_steps::core_nodes::SettleStop;
use replies::{NodeRefused, Refusal, Reply, StoreRefused, UnsettledWhy};
use store_replies::out_of_memory;
use topology::Topology;

/// What a settle stops with where a job of the shard, or a step into a store of it, is refused.
pub(crate) fn stop_of(shard: u16, refusal: &Refusal) -> SettleStop
    requires { IsOfSettles refusal.now }
    ensures { StopsAsRefused shard refusal.now result }
{
    let why = match refusal {
        Refusal::Store(StoreRefused::KeeperFault { .. }) => UnsettledWhy::KeeperFault,
        Refusal::Store(StoreRefused::LinkFault { .. }) => UnsettledWhy::LinkFault,
        Refusal::Store(StoreRefused::LogFull { .. }) => UnsettledWhy::LogFull,
        Refusal::Node(NodeRefused::NoServer { .. }) => return SettleStop::NoServer { shard },
        Refusal::Memory { .. } => return SettleStop::OutOfMemory,
        _ => unreachable!(),
    };
    SettleStop::Unsettled { shard, why }
}

/// How it is replied that a settle came to no end.
pub fn unsettled_as(topology: &Topology, stop: SettleStop) -> Reply
    ensures { result ≡ unsettled_as topology.now stop }
{
    match stop {
        SettleStop::Unsettled { shard, why } => {
            Reply::Refused(Refusal::Store(StoreRefused::Unsettled { shard, why }))
        }
        SettleStop::NoServer { shard } => {
            let region = topology.master(shard);
            Reply::Refused(Refusal::Node(NodeRefused::NoServer { region }))
        }
        SettleStop::OutOfMemory => out_of_memory(),
    }
}
