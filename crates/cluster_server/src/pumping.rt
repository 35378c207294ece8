//! What a server does beside its connections: it has the nodes of its cluster take what waits for them, and the slave stores follow.
ghost use Rattle.shared_tiers.specs.cluster_pumps.Hands.{IsHandOf};
ghost use Rattle.cluster_hands.specs.Hands.{EachHand};
ghost use Rattle.work_server.specs.Serving.{EndsServer};

use crate::clients::Clients;
use cluster_hands::{pump_round, take_hands};
use shared_stores::Sharing;
use shared_tiers::Cluster;
use shared_tiers::cluster_pumps::Hand;
use std::alloc::{AllocGlobal, Global};
use std::random::RandomSource;
use std::sync::Wait;
use std::sync::atomic::{AtomicBool, Ordering};
use std::thread;
use std::thread::Threads;
use std::time::{Clock, Duration};
use tao_io::Status;
use tao_keeper::Keeper;
use work_server::{Acceptor, serve_threads};

/// How much a node takes before the next one's turn comes.
const MOST: u64 = 256;

/// How long nothing is taken after a round in which no node took anything, in milliseconds.
const PAUSE: u64 = 1;

/// Has the nodes take what waits for them, round after round, until that is to stop.
fn pump_by<R: Wait + Clock, K: Keeper, J: Sharing>(
    rt: &R,
    cluster: &Cluster<'_, K, J>,
    hands: &mut [Hand<J>],
    is_over: &AtomicBool,
)
    requires { EachHand (IsHandOf J.making cluster.now) hands.old }
{
    for _ in rt.forever() {
        if is_over.load(Ordering::SeqCst) {
            return;
        }
        if !pump_round(rt, cluster, hands, MOST) {
            thread::sleep(rt, Duration::from_millis(PAUSE));
        }
    }
}

/// Has the nodes of a cluster take what waits for them, by hands of its own, until that is to stop. Where there is no memory for hands nothing is taken.
fn pump_until<R: Wait + Clock, K: Keeper, J: Sharing>(
    rt: &R,
    alloc: Global,
    cluster: &Cluster<'_, K, J>,
    is_over: &AtomicBool,
) {
    let Ok(mut hands) = take_hands(alloc, cluster) else {
        return;
    };
    pump_by(rt, cluster, hands.as_mut_slice(), is_over);
}

/// Serves the clients of a cluster, and then has its pumping stop.
fn serve_until<
    'e,
    W: Threads + Wait + RandomSource + AllocGlobal + Sync,
    K: Keeper + Send,
    J: Sharing + Send + Sync,
    A: Acceptor + Drop,
>(
    rt: &'e W,
    alloc: Global,
    clients: &'e Clients<'e, 'e, W, K, J>,
    acceptor: A,
    is_over: &AtomicBool,
) -> (Status, A)
    ensures { EndsServer (A.ends acceptor) (A.ends result.1) (A.faults acceptor) (A.faults result.1) result.0 }
{
    let came = serve_threads(rt, alloc, acceptor, clients);
    is_over.store(true, Ordering::SeqCst);
    came
}

/// Serves the clients of a cluster, as `serve_threads` does, while one more thread has the nodes of the cluster take what waits for them. Where that thread
/// can't be made, or finds no memory, what waits stays where it is.
pub(crate) fn serve_pumped<
    'e,
    W: Threads + Wait + Clock + RandomSource + AllocGlobal + Sync,
    K: Keeper + Send,
    J: Sharing + Send + Sync,
    A: Acceptor + Drop,
>(rt: &'e W, alloc: Global, clients: &'e Clients<'e, 'e, W, K, J>, acceptor: A) -> (Status, A)
    ensures { EndsServer (A.ends acceptor) (A.ends result.1) (A.faults acceptor) (A.faults result.1) result.0 }
{
    let is_over = AtomicBool::new(false);
    // The first closure is called last where no thread can be made for it, and then it ends at once.
    let ((), came) = thread::join(
        rt,
        || pump_until(rt, alloc, clients.cluster, &is_over),
        || -> (Status, A)
            ensures { EndsServer (A.ends acceptor) (A.ends result.1) (A.faults acceptor) (A.faults result.1) result.0 }
        { serve_until(rt, alloc, clients, acceptor, &is_over) },
    );
    came
}
