//! A read that waits on its own thread.
ghost use Rattle.std.specs.Prelude.{◌≡◌};
ghost use Rattle.shared_tiers.specs.locked_nodes.Cluster.{on_cluster};
ghost use Rattle.shared_tiers.specs.locked_nodes.Passes.{IsPassOf, PassGoesOn};
ghost use Rattle.shared_tiers.specs.Calls.{RepliesTo, calling};
ghost use Rattle.read_herds.specs.Asking.{AsksRead};

use crate::herd::Herd;
use crate::reading::HerdRead;
use futures::task::{Doorbell, Poll, Queue};
use replies::Reply;
use requests::Request;
use session_pass::Pass;
use shared_stores::Sharing;
use shared_tiers::Cluster;
use std::alloc::AllocGlobal;
use std::random::RandomSource;
use std::sync::Wait;
use tao_keeper::Keeper;
use tao_link::Link;

/// The reply to a read of the session of the pass, by a `HerdRead` that is polled on this thread: where it waits for another read, the thread sleeps until
/// that has ended. Where there is no memory for the waiting, it reads at once.
pub fn herd_read<R: Wait + RandomSource + AllocGlobal, K: Keeper, J: Sharing, L: Link>(
    rt: &R,
    cluster: &Cluster<'_, K, J>,
    herd: &Herd,
    pass: &mut Pass,
    link: &mut L,
    request: Request,
) -> Reply
    requires pass { IsPassOf J.making J.log pass.old }
    requires read { AsksRead request }
    ensures pass { IsPassOf J.making J.log pass.new }
    ensures on { PassGoesOn pass.old pass.new }
    ensures replies { RepliesTo (on_cluster K.TELLS K.state J.making J.log) (calling pass.old (L.shown link.old)) (calling pass.new (L.shown link.new))
        request result }
{
    let reply = herd_read_of(rt, cluster, herd, pass, link, &request);
    drop(request);
    reply
}

/// The reply to a read that is lent.
fn herd_read_of<R: Wait + RandomSource + AllocGlobal, K: Keeper, J: Sharing, L: Link>(
    rt: &R,
    cluster: &Cluster<'_, K, J>,
    herd: &Herd,
    pass: &mut Pass,
    link: &mut L,
    request: &Request,
) -> Reply
    requires pass { IsPassOf J.making J.log pass.old }
    requires read { AsksRead request.now }
    ensures pass { IsPassOf J.making J.log pass.new }
    ensures on { PassGoesOn pass.old pass.new }
    ensures replies { RepliesTo (on_cluster K.TELLS K.state J.making J.log) (calling pass.old (L.shown link.old)) (calling pass.new (L.shown link.new))
        request.now result }
{
    let mut read = HerdRead::make(rt, cluster, herd, pass, link, request);
    drive(rt, &mut read)
}

/// Polls a read until it is ready.
fn drive<R: Wait + RandomSource + AllocGlobal, K: Keeper, J: Sharing, L: Link>(
    rt: &R,
    read: &mut HerdRead<'_, '_, R, K, J, L>,
) -> Reply
    requires { IsPassOf J.making J.log read.old.pass.now }
    ensures replies { RepliesTo (on_cluster K.TELLS K.state J.making J.log) (calling read.old.pass.now (L.shown read.old.link.now))
        (calling read.new.pass.now (L.shown read.new.link.now)) read.old.request.now result }
    ensures pass { IsPassOf J.making J.log read.new.pass.now }
    ensures on { PassGoesOn read.old.pass.now read.new.pass.now }
    ensures same_pass { read.new.pass.ghost_name ≡ read.old.pass.ghost_name }
    ensures same_link { read.new.link.ghost_name ≡ read.old.link.ghost_name }
{
    let Ok(queue) = Queue::new(rt, Doorbell::parking()) else {
        return read.call();
    };
    let Ok(place) = queue.add() else {
        return read.call();
    };
    place.schedule();
    poll_on(rt, &queue, read)
}

/// Polls a read as the one task of the queue. One that is pending reads once it was woken.
fn poll_on<R: Wait, K: Keeper, J: Sharing, L: Link>(
    rt: &R,
    queue: &Queue,
    read: &mut HerdRead<'_, '_, R, K, J, L>,
) -> Reply
    requires { IsPassOf J.making J.log read.old.pass.now }
    ensures replies { RepliesTo (on_cluster K.TELLS K.state J.making J.log) (calling read.old.pass.now (L.shown read.old.link.now))
        (calling read.new.pass.now (L.shown read.new.link.now)) read.old.request.now result }
    ensures pass { IsPassOf J.making J.log read.new.pass.now }
    ensures on { PassGoesOn read.old.pass.now read.new.pass.now }
    ensures same_pass { read.new.pass.ghost_name ≡ read.old.pass.ghost_name }
    ensures same_link { read.new.link.ghost_name ≡ read.old.link.ghost_name }
{
    let Some(mut cx) = queue.next(rt) else {
        return read.call();
    };
    let polled = read.step(&mut cx);
    cx.end(&polled);
    match polled {
        Poll::Ready(reply) => reply,
        Poll::Pending => {
            wait_for_wake(rt, queue);
            read.call()
        }
    }
}

/// Sleeps until the one task of the queue was woken, and ends that.
fn wait_for_wake<R: Wait>(rt: &R, queue: &Queue) {
    if let Some(cx) = queue.next(rt) {
        cx.cancel();
    }
}
