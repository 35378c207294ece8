//! What a connection is replied to a batch.
ghost use Rattle.std.specs.Prelude.{◌≡◌, IfOk, OnErr};
ghost use Rattle.cluster_talks.specs.TalkStates.{MayTalk, TalksOn, talk_state};
ghost use Rattle.cluster_talks.specs.TalkSteps.{RepliesToReads, asked_reads};
ghost use Rattle.read_batch.specs.Answering.{RepliesToEach};
ghost use Rattle.shared_tiers.specs.Calls.{calling};
ghost use Rattle.shared_tiers.specs.locked_nodes.Cluster.{on_cluster};
ghost use Rattle.shared_tiers.specs.locked_nodes.Passes.{IsPassOf, PassGoesOn};
ghost use Rattle.talk_lines.specs.Batches.{AreBatch};

use crate::host::Host;
use crate::refusing::{no_memory, no_session};
use crate::reply::TalkReply;
use read_batch::{BatchRefusal, Replies, run_batch};
use session_pass::Pass;
use shared_stores::Sharing;
use std::alloc::AllocGlobal;
use std::random::RandomSource;
use std::sync::Wait;
use talk_lines::Requests;
use tao_base::OutOfMemory;
use tao_keeper::Keeper;
use tao_link::Link;

/// What a batch of reads is refused for.
fn no_room(refusal: BatchRefusal) -> OutOfMemory
    requires { refusal ≡ BatchRefusal.OutOfMemory }
{
    match refusal {
        BatchRefusal::OutOfMemory => OutOfMemory,
        _ => unreachable!(),
    }
}

impl<W: Wait + RandomSource + AllocGlobal, K: Keeper, J: Sharing> Host<'_, '_, W, K, J> {
    /// The replies to a batch's reads. The one error is out of memory, and then nothing was done.
    fn call_each<L: Link>(
        &self,
        pass: &mut Pass,
        link: &mut L,
        session: u32,
        requests: Requests,
    ) -> Result<Replies, OutOfMemory>
        requires batch { AreBatch session requests }
        requires pass { IsPassOf J.making J.log pass.old }
        ensures pass { IsPassOf J.making J.log pass.new }
        ensures on { PassGoesOn pass.old pass.new }
        ensures replied { IfOk result (RepliesToEach (on_cluster K.TELLS K.state J.making J.log)
            (calling pass.old (L.shown link.old)) (calling pass.new (L.shown link.new)) requests) }
        ensures same { OnErr result (calling pass.new (L.shown link.new) ≡ calling pass.old (L.shown link.old)) }
    {
        match run_batch(self.rt, self.cluster, pass, link, requests.into_vec()) {
            Ok(replies) => Ok(replies),
            Err(refusal) => Err(no_room(refusal)),
        }
    }

    /// The reply to a batch: of another session than the connection's own it is refused.
    pub(crate) fn answer_batch<L: Link>(
        &self,
        opened: bool,
        pass: &mut Pass,
        link: &mut L,
        session: u32,
        requests: Requests,
    ) -> TalkReply
        requires batch { AreBatch session requests }
        requires may { MayTalk J.making J.log (talk_state opened (calling pass.old (L.shown link.old))) }
        ensures on { TalksOn J.making J.log (talk_state opened (calling pass.old (L.shown link.old))) (talk_state opened (calling pass.new (L.shown link.new))) }
        ensures replied { RepliesToReads (on_cluster K.TELLS K.state J.making J.log) (talk_state opened (calling pass.old (L.shown link.old)))
            (talk_state opened (calling pass.new (L.shown link.new))) (asked_reads session requests) result }
    {
        if opened && session == pass.session() {
            match self.call_each(pass, link, session, requests) {
                Ok(replies) => TalkReply::Batch(replies),
                Err(_) => TalkReply::One(no_memory()),
            }
        } else {
            drop(requests);
            TalkReply::One(no_session(session))
        }
    }
}
