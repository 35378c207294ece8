//! The clients of a cluster, each of which a connection is talked over with.
ghost use Rattle.work_server.specs.Serving.{AddUp, EndsServer};

use cluster_talks::Conn;
use read_herds::Herd;
use shared_stores::Sharing;
use shared_tiers::Cluster;
use std::alloc::AllocGlobal;
use std::random::RandomSource;
use std::sync::Wait;
use tao_io::{Sink, Source, Status};
use tao_keeper::Keeper;
use tao_link::SteadyLink;
use work_server::{Acceptor, Spawner, WorkMaker, serve_work};

/// What all connections of a server share, and what makes the talk over each of them.
#[derive(Drop)]
pub struct Clients<'a, 'c, W, K: Keeper, J: Sharing> {
    pub rt: &'a W,
    pub cluster: &'a Cluster<'c, K, J>,
    pub herd: &'a Herd,
}

impl<
    'a,
    'c,
    W: Wait + RandomSource + AllocGlobal,
    K: Keeper,
    J: Sharing,
    I: Source + Drop,
    O: Sink + Drop,
> WorkMaker<I, O> for Clients<'a, 'c, W, K, J> {
    type Job = Conn<'a, 'c, W, I, O, K, J>;

    fn job(&self, input: I, output: O) -> Conn<'a, 'c, W, I, O, K, J> {
        Conn {
            rt: self.rt,
            cluster: self.cluster,
            herd: self.herd,
            input,
            output,
            link: SteadyLink::make(),
        }
    }
}

/// Talks over each connection that the acceptor gives: the spawner starts the talk, or hands it back, and then it is done here before the next connection is
/// taken. May wait. The status is
///
/// - 0 exactly where the acceptor was at its end, as its count of ends rose;
/// - 11 where the acceptor failed, as its count of faults rose.
///
/// Unless a count stands at its last value, the connections that were given are as many as the talks that were started and those that were handed back.
pub fn serve<
    'a,
    W: Wait + RandomSource + AllocGlobal,
    K: Keeper,
    J: Sharing,
    A: Acceptor,
    S: Spawner<Conn<'a, 'a, W, A::In, A::Out, K, J>>,
>(clients: &Clients<'a, 'a, W, K, J>, acceptor: &mut A, spawner: &mut S) -> Status
    ensures ends { EndsServer (A.ends acceptor.old) (A.ends acceptor.new) (A.faults acceptor.old) (A.faults acceptor.new) result }
    ensures sum { AddUp (A.given acceptor.old) (A.given acceptor.new) (S.started spawner.old) (S.started spawner.new)
        (S.faults spawner.old) (S.faults spawner.new) }
{
    serve_work(clients.rt, acceptor, spawner, clients)
}
