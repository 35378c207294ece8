//! `Batch`, reads that are asked one after another.
ghost use Rattle.std.specs.Prelude.{◌≡◌, [], List};
ghost use Rattle.futures.specs.Poll.{IfReady, OnPending};
ghost use Rattle.futures.specs.Task.{Covers, Keeps};
ghost use Rattle.replies.specs.declared.reply.Reply.{Reply as OneReply};
ghost use Rattle.shared_tiers.specs.Calls.{calling};
ghost use Rattle.shared_tiers.specs.locked_nodes.Cluster.{on_cluster};
ghost use Rattle.shared_tiers.specs.locked_nodes.Passes.{IsPassOf, PassGoesOn};
ghost use Rattle.read_batch.specs.UnderWay.{Follows, GivesAll, IsUnderWay, IsWoken, MayGive, PendsWhereMore, StepsBatch, left, under_way};

use crate::reply_list::Replies;
use futures::Future;
use futures::task::{Context, Poll};
use replies::Reply;
use requests::Request;
use session_pass::Pass;
use shared_stores::Sharing;
use shared_tiers::Cluster;
use std::alloc::AllocGlobal;
use std::sync::Wait;
use tao_keeper::Keeper;
use tao_link::Link;

/// Reads of one session, which are asked of a cluster one after another: a future, each poll of which makes one call. `read_batch` makes one.
///
/// Its fields are public, since contracts name them.
#[derive(Drop)]
pub struct Batch<'a, 'c, R, K: Keeper, J: Sharing, L> {
    pub rt: &'a R,
    pub cluster: &'a Cluster<'c, K, J>,
    pub pass: &'a mut Pass,
    pub link: &'a mut L,
    /// All requests, which are lent.
    pub requests: &'a [Request],
    /// The replies so far, with room for the rest, which is lent too: so that it owns no memory.
    pub replies: &'a mut Vec<Reply>,
}

impl<R: Wait + AllocGlobal, K: Keeper, J: Sharing, L: Link> Batch<'_, '_, R, K, J, L> {
    /// Makes the next call, where a request is left.
    #[tactic(auto, using(crate::proofs::Stepping::steps_next, crate::proofs::Stepping::steps_none))]
    pub fn step(&mut self)
        requires { IsUnderWay J.making J.log (under_way L.shown self.old) }
        ensures keeps { IsUnderWay J.making J.log (under_way L.shown self.new) }
        ensures steps { StepsBatch (on_cluster K.TELLS K.state J.making J.log) (under_way L.shown self.old) (under_way L.shown self.new) }
        ensures same_pass { self.new.pass.ghost_name ≡ self.old.pass.ghost_name }
        ensures same_link { self.new.link.ghost_name ≡ self.old.link.ghost_name }
    {
        let requests = self.requests;
        let place = self.replies.len();
        if place < requests.len() {
            let said = self
                .cluster
                .call(self.rt, self.pass, self.link, &requests[place]);
            self.replies.push_reserved(said);
        }
    }

    /// Makes all calls that are left.
    #[tactic(auto, using(crate::proofs::Stepping::follows_self, crate::proofs::Stepping::follows_step, crate::proofs::Stepping::none_left))]
    pub fn finish(&mut self)
        requires { IsUnderWay J.making J.log (under_way L.shown self.old) }
        ensures keeps { IsUnderWay J.making J.log (under_way L.shown self.new) }
        ensures follows { Follows (on_cluster K.TELLS K.state J.making J.log) (under_way L.shown self.old) (under_way L.shown self.new) }
        ensures done { left (under_way L.shown self.new) ≡ [] }
        ensures same_pass { self.new.pass.ghost_name ≡ self.old.pass.ghost_name }
        ensures same_link { self.new.link.ghost_name ≡ self.old.link.ghost_name }
    {
        while self.replies.len() < self.requests.len() {
            self.step();
        }
    }

    /// As `poll`, but the replies stay in the batch.
    #[tactic(auto, using(crate::proofs::Stepping::none_left, crate::proofs::Stepping::pends_more, crate::proofs::Stepping::pends_no_more))]
    pub fn poll_step(&mut self, cx: &mut Context<'_>) -> Poll<()>
        requires { IsUnderWay J.making J.log (under_way L.shown self.old) }
        ensures keeps { IsUnderWay J.making J.log (under_way L.shown self.new) }
        ensures steps { StepsBatch (on_cluster K.TELLS K.state J.making J.log) (under_way L.shown self.old) (under_way L.shown self.new) }
        ensures pends { PendsWhereMore (under_way L.shown self.old) result }
        ensures done { IfReady result (λ _. left (under_way L.shown self.new) ≡ []) }
        ensures woken { OnPending result (IsWoken cx.new) }
        ensures same_pass { self.new.pass.ghost_name ≡ self.old.pass.ghost_name }
        ensures same_link { self.new.link.ghost_name ≡ self.old.link.ghost_name }
        ensures registered { OnPending result (Covers cx.new (λ _. ⊥)) }
        ensures kept { Keeps cx.old cx.new }
    {
        self.step();
        if self.replies.len() < self.requests.len() {
            cx.yield_now()
        } else {
            Poll::Ready(())
        }
    }
}

impl<R: Wait + AllocGlobal, K: Keeper, J: Sharing, L: Link> Future for Batch<'_, '_, R, K, J, L> {
    type Output = Replies;

    ghost can_poll = { λ b. IsUnderWay J.making J.log (under_way L.shown b) };

    ghost gives = { λ b. MayGive (on_cluster K.TELLS K.state J.making J.log) (under_way L.shown b) };

    /// Makes the next call. Where more are left it wakes its waker, and is pending; else it gives the replies.
    fn poll(&mut self, cx: &mut Context<'_>) -> Poll<Replies>
        requires { IsUnderWay J.making J.log (under_way L.shown self.old) }
        ensures value { IfReady result (MayGive (on_cluster K.TELLS K.state J.making J.log) (under_way L.shown self.old)) }
        ensures again { OnPending result (IsUnderWay J.making J.log (under_way L.shown self.new)) }
        ensures same { OnPending result ((given : List OneReply) → MayGive (on_cluster K.TELLS K.state J.making J.log) (under_way L.shown self.new) given
            → MayGive (on_cluster K.TELLS K.state J.making J.log) (under_way L.shown self.old) given) }
        ensures registered { OnPending result (Covers cx.new (λ _. ⊥)) }
        ensures kept { Keeps cx.old cx.new }
        ensures steps { OnPending result (StepsBatch (on_cluster K.TELLS K.state J.making J.log) (under_way L.shown self.old) (under_way L.shown self.new)) }
        ensures pends { PendsWhereMore (under_way L.shown self.old) result }
        ensures woken { OnPending result (IsWoken cx.new) }
        ensures ends { IfReady result (GivesAll (on_cluster K.TELLS K.state J.making J.log) (under_way L.shown self.old)
            (calling self.new.pass.now (L.shown self.new.link.now))) }
        ensures pass { IsPassOf J.making J.log self.new.pass.now }
        ensures on { PassGoesOn self.old.pass.now self.new.pass.now }
        ensures same_pass { self.new.pass.ghost_name ≡ self.old.pass.ghost_name }
        ensures same_link { self.new.link.ghost_name ≡ self.old.link.ghost_name }
    {
        match self.poll_step(cx) {
            Poll::Pending => Poll::Pending,
            Poll::Ready(()) => Poll::Ready(Replies::taken(self.rt.alloc(), self.replies)),
        }
    }
}
