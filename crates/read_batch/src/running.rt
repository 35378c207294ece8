//! A batch that is run to its end on the calling thread.
ghost use Rattle.std.specs.Prelude.{◌≡◌, ◌≤◌, [], IfErr, IfOk, OnErr, OnOk, length, vec_capacity};
ghost use Rattle.shared_tiers.specs.Calls.{calling};
ghost use Rattle.shared_tiers.specs.locked_nodes.Cluster.{on_cluster};
ghost use Rattle.shared_tiers.specs.locked_nodes.Passes.{IsPassOf, PassGoesOn};
ghost use Rattle.read_batch.specs.Answering.{RepliesToEach};
ghost use Rattle.read_batch.specs.Refusing.{MakesBatch, RefusesBatch};
ghost use Rattle.read_batch.specs.UnderWay.{Follows, GivesAll, IsUnderWay, under_way};

use crate::batch::Batch;
use crate::making::{begin, room_for};
use crate::refusal::BatchRefusal;
use crate::reply_list::Replies;
use futures::task::{Doorbell, Poll, Queue};
use replies::Reply;
use requests::Request;
use session_pass::Pass;
use shared_stores::Sharing;
use shared_tiers::Cluster;
use std::alloc::AllocGlobal;
use std::io;
use std::random::RandomSource;
use std::sync::Wait;
use tao_keeper::Keeper;
use tao_link::Link;

/// A queue whose one task is to be polled.
fn queue_of_one<R: RandomSource + AllocGlobal>(rt: &R) -> io::Result<Queue> {
    let queue = Queue::new(rt, Doorbell::parking())?;
    queue.add()?.schedule();
    Ok(queue)
}

/// Polls the batch, as the task of the queue, until it isn't pending.
#[tactic(auto, using(crate::proofs::Stepping::follows_self, crate::proofs::Stepping::follows_step))]
fn poll_on<R: Wait + AllocGlobal, K: Keeper, J: Sharing, L: Link>(
    rt: &R,
    queue: &Queue,
    batch: &mut Batch<'_, '_, R, K, J, L>,
)
    requires { IsUnderWay J.making J.log (under_way L.shown batch.old) }
    ensures keeps { IsUnderWay J.making J.log (under_way L.shown batch.new) }
    ensures follows { Follows (on_cluster K.TELLS K.state J.making J.log) (under_way L.shown batch.old) (under_way L.shown batch.new) }
    ensures same_pass { batch.new.pass.ghost_name ≡ batch.old.pass.ghost_name }
    ensures same_link { batch.new.link.ghost_name ≡ batch.old.link.ghost_name }
{
    for _ in rt.forever() {
        let Some(mut cx) = queue.next(rt) else {
            return;
        };
        let polled = batch.poll_step(&mut cx);
        cx.end(&polled);
        if let Poll::Ready(()) = polled {
            return;
        }
    }
}

/// Polls the batch until it isn't pending. Without memory for a queue it isn't polled.
#[tactic(auto, using(crate::proofs::Stepping::follows_self))]
fn poll_alone<R: Wait + RandomSource + AllocGlobal, K: Keeper, J: Sharing, L: Link>(
    rt: &R,
    batch: &mut Batch<'_, '_, R, K, J, L>,
)
    requires { IsUnderWay J.making J.log (under_way L.shown batch.old) }
    ensures keeps { IsUnderWay J.making J.log (under_way L.shown batch.new) }
    ensures follows { Follows (on_cluster K.TELLS K.state J.making J.log) (under_way L.shown batch.old) (under_way L.shown batch.new) }
    ensures same_pass { batch.new.pass.ghost_name ≡ batch.old.pass.ghost_name }
    ensures same_link { batch.new.link.ghost_name ≡ batch.old.link.ghost_name }
{
    if let Ok(queue) = queue_of_one(rt) {
        poll_on(rt, &queue, batch);
    }
}

/// Runs the batch to its end: polls it, makes what calls that leaves, and takes the replies out.
fn drive<R: Wait + RandomSource + AllocGlobal, K: Keeper, J: Sharing, L: Link>(
    rt: &R,
    batch: &mut Batch<'_, '_, R, K, J, L>,
) -> Replies
    requires { IsUnderWay J.making J.log (under_way L.shown batch.old) }
    ensures pass { IsPassOf J.making J.log batch.new.pass.now }
    ensures on { PassGoesOn batch.old.pass.now batch.new.pass.now }
    ensures gives { GivesAll (on_cluster K.TELLS K.state J.making J.log) (under_way L.shown batch.old)
        (calling batch.new.pass.now (L.shown batch.new.link.now)) result }
    ensures same_pass { batch.new.pass.ghost_name ≡ batch.old.pass.ghost_name }
    ensures same_link { batch.new.link.ghost_name ≡ batch.old.link.ghost_name }
{
    poll_alone(rt, batch);
    batch.finish();
    Replies::taken(rt.alloc(), batch.replies)
}

/// The replies to requests that make a batch, with room for them.
#[tactic(auto, using(crate::proofs::Stepping::all_replied))]
fn run_lent<R: Wait + RandomSource + AllocGlobal, K: Keeper, J: Sharing, L: Link>(
    rt: &R,
    cluster: &Cluster<'_, K, J>,
    pass: &mut Pass,
    link: &mut L,
    requests: &[Request],
    room: &mut Vec<Reply>,
) -> Replies
    requires pass { IsPassOf J.making J.log pass.old }
    requires room { length requests.now ≤ vec_capacity room.old }
    requires empty { room.old.items ≡ [] }
    ensures pass { IsPassOf J.making J.log pass.new }
    ensures on { PassGoesOn pass.old pass.new }
    ensures replies { RepliesToEach (on_cluster K.TELLS K.state J.making J.log) (calling pass.old (L.shown link.old)) (calling pass.new (L.shown link.new))
        requests.now result }
{
    let mut batch = begin(rt, cluster, pass, link, requests, room);
    drive(rt, &mut batch)
}

/// The replies to reads of the pass's session, which are asked one after another: as many, in their order.
///
/// It is refused where `read_batch` is, and then nothing was asked. The batch is polled on a queue of its own, as `futures::executor::block_on` would, which
/// says nothing of what a future has borrowed; for what that leaves, as where there is no memory for a queue, the calls are made at once.
pub fn run_batch<R: Wait + RandomSource + AllocGlobal, K: Keeper, J: Sharing, L: Link>(
    rt: &R,
    cluster: &Cluster<'_, K, J>,
    pass: &mut Pass,
    link: &mut L,
    requests: Vec<Request>,
) -> Result<Replies, BatchRefusal>
    requires { IsPassOf J.making J.log pass.old }
    ensures pass { IsPassOf J.making J.log pass.new }
    ensures on { PassGoesOn pass.old pass.new }
    ensures replies { IfOk result (λ replies. RepliesToEach (on_cluster K.TELLS K.state J.making J.log) (calling pass.old (L.shown link.old))
        (calling pass.new (L.shown link.new)) requests.items replies) }
    ensures makes { OnOk result (MakesBatch requests.items) }
    ensures refused { IfErr result (RefusesBatch requests.items) }
    ensures same { OnErr result (calling pass.new (L.shown link.new) ≡ calling pass.old (L.shown link.old)) }
{
    let mut room = room_for(rt.alloc(), &requests)?;
    let replies = run_lent(rt, cluster, pass, link, &requests, &mut room);
    drop(room);
    drop(requests);
    Ok(replies)
}
