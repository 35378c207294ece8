//! What a cluster does for a request.
ghost use Rattle.std.specs.Prelude.{◌≡◌, ◌≢◌};
ghost use Rattle.cluster_closing.specs.locked_nodes.Cluster.{on_cluster};
ghost use Rattle.cluster_closing.specs.locked_nodes.Passes.{IsPassOf, PassGoesOn};
ghost use Rattle.request_check.specs.Placed.{IsPlacedCall};
ghost use Rattle.request_check.specs.Requests.{IsPlaced};
ghost use Rattle.request_check.specs.declared.checked.CheckedCall.TheVariants.{Read, Write};
ghost use Rattle.requests.specs.declared.calls.Call.{Call};
ghost use Rattle.shared_tiers.specs.Calls.{AsksCall, IsCall, RepliesTo, RepliesToChecked, RepliesToFound, RepliesToOwn, calling};

use crate::cluster::Cluster;
use cluster_reads::read;
use cluster_writes::write;
use replies::{LineRefused, Refusal, Reply, SessionRefused};
use request_check::{Checked, CheckedCall, CheckedRead, CheckedWrite, check};
use requests::Request;
use session_pass::Pass;
use shared_stores::Sharing;
use std::sync::Wait;
use tao_keeper::Keeper;
use tao_link::Link;
use words::Word;

/// The word is none that a cluster serves.
fn not_here(word: Word) -> Reply
    ensures { result ≡ Reply.Refused (Refusal.Line (LineRefused.NotHere word)) }
{
    Reply::Refused(Refusal::Line(LineRefused::NotHere { word }))
}

/// No pass stands for the session.
fn no_session(session: u32) -> Reply
    ensures { result ≡ Reply.Refused (Refusal.Session (SessionRefused.NoSession session)) }
{
    Reply::Refused(Refusal::Session(SessionRefused::NoSession { session }))
}

impl<'c, K: Keeper, J: Sharing> Cluster<'c, K, J> {
    /// What a request asks of the cluster, for the session of the pass: a read or a write.
    ///
    /// Any other request is refused as one that isn't served here, and a read or a write of another session as one that has no session. Then a name that isn't
    /// there is refused, as `request_check::check` does, and nothing is done in any of these cases, nor where there is no memory to look names up. Each other
    /// read or write is answered in what the pass has then seen. Costs what `check` does, and then as the read or the write.
    #[tactic(auto, using(crate::proofs::CallLemmas::goes_self))]
    pub fn call<R: Wait, L: Link>(
        &self,
        rt: &R,
        pass: &mut Pass,
        link: &mut L,
        request: &Request,
    ) -> Reply
        requires pass { IsPassOf J.making J.log pass.old }
        ensures pass { IsPassOf J.making J.log pass.new }
        ensures on { PassGoesOn pass.old pass.new }
        ensures replies { RepliesTo (on_cluster K.TELLS K.state J.making J.log) (calling pass.old (L.shown link.old)) (calling pass.new (L.shown link.new))
            request.now result }
    {
        let Request::Call(call) = request else {
            return not_here(request.word());
        };
        if call.session() == pass.session() {
            self.call_own(rt, pass, link, request)
        } else {
            no_session(call.session())
        }
    }

    /// A read or a write of the pass's own session.
    #[tactic(auto, using(crate::proofs::CallLemmas::goes_self))]
    fn call_own<R: Wait, L: Link>(
        &self,
        rt: &R,
        pass: &mut Pass,
        link: &mut L,
        request: &Request,
    ) -> Reply
        requires pass { IsPassOf J.making J.log pass.old }
        requires call { AsksCall request.now }
        ensures pass { IsPassOf J.making J.log pass.new }
        ensures on { PassGoesOn pass.old pass.new }
        ensures replies { (call : Call) → request.now ≡ Request.Call call → RepliesToOwn (on_cluster K.TELLS K.state J.making J.log)
            (calling pass.old (L.shown link.old)) (calling pass.new (L.shown link.new)) call result }
    {
        let around = self.nodes.around();
        match check(around.alloc, self.nodes.config(), request) {
            Ok(checked) => self.call_found(rt, pass, link, checked),
            Err(refusal) => refusal.into_reply(),
        }
    }

    /// A read or a write whose names were found.
    fn call_found<R: Wait, L: Link>(
        &self,
        rt: &R,
        pass: &mut Pass,
        link: &mut L,
        checked: Checked,
    ) -> Reply
        requires pass { IsPassOf J.making J.log pass.old }
        requires call { IsCall checked }
        requires placed { IsPlaced J.making.settings checked }
        ensures pass { IsPassOf J.making J.log pass.new }
        ensures on { PassGoesOn pass.old pass.new }
        ensures replies { RepliesToFound (on_cluster K.TELLS K.state J.making J.log) (calling pass.old (L.shown link.old)) (calling pass.new (L.shown link.new))
            checked result }
    {
        match checked {
            Checked::Call(call) => self.call_checked(rt, pass, link, call),
            _ => unreachable!(),
        }
    }

    /// A read or a write whose names are places.
    fn call_checked<R: Wait, L: Link>(
        &self,
        rt: &R,
        pass: &mut Pass,
        link: &mut L,
        call: CheckedCall,
    ) -> Reply
        requires pass { IsPassOf J.making J.log pass.old }
        requires placed { IsPlacedCall J.making.settings call }
        ensures pass { IsPassOf J.making J.log pass.new }
        ensures on { PassGoesOn pass.old pass.new }
        ensures replies { RepliesToChecked (on_cluster K.TELLS K.state J.making J.log) (calling pass.old (L.shown link.old)) (calling pass.new (L.shown link.new))
            call result }
    {
        match call {
            CheckedCall::Read(call) => self.call_read(rt, pass, link, call),
            CheckedCall::Write(call) => self.call_write(rt, pass, link, call),
        }
    }

    /// A read whose names are places.
    fn call_read<R: Wait, L: Link>(
        &self,
        rt: &R,
        pass: &mut Pass,
        link: &mut L,
        call: CheckedRead,
    ) -> Reply
        requires pass { IsPassOf J.making J.log pass.old }
        requires placed { IsPlacedCall J.making.settings (Read call) }
        ensures pass { IsPassOf J.making J.log pass.new }
        ensures on { PassGoesOn pass.old pass.new }
        ensures replies { RepliesToChecked (on_cluster K.TELLS K.state J.making J.log) (calling pass.old (L.shown link.old)) (calling pass.new (L.shown link.new))
            (Read call) result }
    {
        let CheckedRead {
            query,
            critical,
            ..
        } = call;
        read(&self.nodes, rt, pass, link, query, critical)
    }

    /// A write whose names are places.
    fn call_write<R: Wait, L: Link>(
        &self,
        rt: &R,
        pass: &mut Pass,
        link: &mut L,
        call: CheckedWrite,
    ) -> Reply
        requires pass { IsPassOf J.making J.log pass.old }
        requires placed { IsPlacedCall J.making.settings (Write call) }
        ensures pass { IsPassOf J.making J.log pass.new }
        ensures on { PassGoesOn pass.old pass.new }
        ensures replies { RepliesToChecked (on_cluster K.TELLS K.state J.making J.log) (calling pass.old (L.shown link.old)) (calling pass.new (L.shown link.new))
            (Write call) result }
    {
        write(&self.nodes, rt, pass, link, call)
    }
}
