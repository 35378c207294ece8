//! `HerdRead`, a read that may wait for another one.
ghost use Rattle.std.specs.Prelude.{◌≡◌, ◌≤◌, false, true, IfSome, None};
ghost use Rattle.shared_tiers.specs.locked_nodes.Cluster.{on_cluster};
ghost use Rattle.shared_tiers.specs.locked_nodes.Passes.{IsPassOf, PassGoesOn};
ghost use Rattle.futures.specs.Poll.{IfReady, OnPending};
ghost use Rattle.futures.specs.Task.{Covers, Keeps};
ghost use Rattle.shared_tiers.specs.Calls.{RepliesTo, calling};

use crate::asking::herd_of;
use crate::herd::Herd;
use crate::joining::{Turn, turn_of};
use futures::task::{Context, Poll};
use herd_state::{HerdName, Waits};
use replies::Reply;
use requests::Request;
use session_pass::Pass;
use shared_stores::Sharing;
use shared_tiers::Cluster;
use std::sync::Wait;
use tao_keeper::Keeper;
use tao_link::Link;

/// A read of a cluster by a pass and a link, which waits once where another one reads the same key in the same tier.
///
/// Its first poll asks the herd. One that leads reads and ends the lead. One that is to wait is pending, and reads in its next poll; so those that waited
/// for one lead find what that has brought into their follower. One that is alone reads at once, as does one for whose place there is no memory.
#[derive(Drop)]
pub struct HerdRead<'a, 'c, R, K: Keeper, J: Sharing, L> {
    rt: &'a R,
    cluster: &'a Cluster<'c, K, J>,
    herd: &'a Herd,
    pub pass: &'a mut Pass,
    pub link: &'a mut L,
    pub request: &'a Request,
    waits: Waits,
    /// Whether it was polled before.
    is_begun: bool,
    /// It didn't wait before its first poll.
    ghost fresh: { is_begun ≡ false → waits ≡ 0 },
}

impl<'a, 'c, R: Wait, K: Keeper, J: Sharing, L: Link> HerdRead<'a, 'c, R, K, J, L> {
    ghost use Rattle.read_herds.specs.Asking.{AsksRead, IsHerdOf};
    ghost use Rattle.read_herds.specs.Herding.{source_of};
    ghost use Rattle.read_herds.specs.Reading.{waits_of, was_begun};

    /// A read that was not polled yet, for the session of the pass. Takes no memory.
    pub fn make(
        rt: &'a R,
        cluster: &'a Cluster<'c, K, J>,
        herd: &'a Herd,
        pass: &'a mut Pass,
        link: &'a mut L,
        request: &'a Request,
    ) -> HerdRead<'a, 'c, R, K, J, L>
        requires pass { IsPassOf J.making J.log pass.old }
        requires read { AsksRead request.now }
        ensures same_pass { result.pass.ghost_name ≡ pass.entry.ghost_name }
        ensures same_link { result.link.ghost_name ≡ link.entry.ghost_name }
        ensures pass { result.pass.now ≡ pass.old }
        ensures link { result.link.now ≡ link.old }
        ensures request { result.request.now ≡ request.now }
        ensures waits { waits_of result ≡ 0 }
    {
        HerdRead {
            rt,
            cluster,
            herd,
            pass,
            link,
            request,
            waits: Waits::make(),
            is_begun: false,
        }
    }

    /// How often it waited.
    pub fn waits(&self) -> u64
        ensures { result ≡ waits_of self.now }
    {
        self.waits.count()
    }

    /// What `poll` does, and what it leaves.
    pub fn step(&mut self, cx: &mut Context<'_>) -> Poll<Reply>
        requires { IsPassOf J.making J.log self.old.pass.now }
        ensures replies { IfReady result (RepliesTo (on_cluster K.TELLS K.state J.making J.log) (calling self.old.pass.now (L.shown self.old.link.now))
            (calling self.new.pass.now (L.shown self.new.link.now)) self.old.request.now) }
        ensures pass { IsPassOf J.making J.log self.new.pass.now }
        ensures on { PassGoesOn self.old.pass.now self.new.pass.now }
        ensures request { self.new.request.now ≡ self.old.request.now }
        ensures same_pass { self.new.pass.ghost_name ≡ self.old.pass.ghost_name }
        ensures same_link { self.new.link.ghost_name ≡ self.old.link.ghost_name }
        // A pending step has done nothing but wait, for the first time.
        ensures still { OnPending result ((self.new.pass.now ≡ self.old.pass.now) × (self.new.link.now ≡ self.old.link.now)) }
        ensures waits { OnPending result ((waits_of self.old ≡ 0) × (waits_of self.new ≡ 1)) }
        ensures ready { IfReady result (λ _. waits_of self.new ≡ waits_of self.old) }
        ensures registered { OnPending result (Covers cx.new (λ s. s ≡ source_of self.new.herd.now)) }
        ensures kept { Keeps cx.old cx.new }
    {
        let name = self.name();
        self.is_begun = true;
        match turn_of(self.rt, self.herd, name, cx, &mut self.waits) {
            Turn::Leads(ticket) => {
                let reply = self.call();
                let _ = self.herd.end(self.rt, ticket);
                Poll::Ready(reply)
            }
            Turn::Waits => Poll::Pending,
            Turn::Alone => Poll::Ready(self.call()),
        }
    }

    /// The herd that its first poll asks: none behind that.
    fn name(&self) -> Option<HerdName>
        ensures begun { was_begun self.now ≡ true → result ≡ None }
        ensures herd { IfSome result (IsHerdOf J.making.settings self.now.pass.now self.now.request.now) }
    {
        if self.is_begun {
            return None;
        }
        herd_of(
            self.herd.alloc,
            self.cluster.config(),
            self.pass,
            self.request,
        )
    }

    /// Makes the call.
    pub(crate) fn call(&mut self) -> Reply
        requires { IsPassOf J.making J.log self.old.pass.now }
        ensures replies { RepliesTo (on_cluster K.TELLS K.state J.making J.log) (calling self.old.pass.now (L.shown self.old.link.now))
            (calling self.new.pass.now (L.shown self.new.link.now)) self.old.request.now result }
        ensures pass { IsPassOf J.making J.log self.new.pass.now }
        ensures on { PassGoesOn self.old.pass.now self.new.pass.now }
        ensures request { self.new.request.now ≡ self.old.request.now }
        ensures same_pass { self.new.pass.ghost_name ≡ self.old.pass.ghost_name }
        ensures same_link { self.new.link.ghost_name ≡ self.old.link.ghost_name }
        ensures waits { waits_of self.new ≡ waits_of self.old }
    {
        self.cluster
            .call(self.rt, self.pass, self.link, self.request)
    }
}
