//! What a connection is replied to one line.
ghost use Rattle.std.specs.Prelude.{◌≡◌, Ok, IfOk, OnErr};
ghost use Rattle.cluster_talks.specs.TalkStates.{MayTalk, TalksOn, talk_state};
ghost use Rattle.cluster_talks.specs.TalkSteps.{RepliesToOne, RepliesToTalk};
ghost use Rattle.read_batch.specs.Refusing.{asks_read};
ghost use Rattle.read_herds.specs.Asking.{AsksRead};
ghost use Rattle.shared_tiers.specs.Calls.{RepliesTo, calling};
ghost use Rattle.shared_tiers.specs.locked_nodes.Cluster.{on_cluster};
ghost use Rattle.shared_tiers.specs.locked_nodes.Passes.{IsPassOf, PassGoesOn};
ghost use Rattle.talk_lines.specs.Talk.{IsTalk, talk_in};

use crate::host::Host;
use crate::opening::open;
use crate::refusing::{no_session, not_here, unread};
use crate::reply::TalkReply;
use read_herds::herd_read;
use replies::Reply;
use requests::{Call, Request};
use session_pass::Pass;
use shared_stores::Sharing;
use std::alloc::{AllocError, AllocGlobal};
use std::random::RandomSource;
use std::sync::Wait;
use talk_lines::{LineMemory, TalkLine, read_talk};
use tao_keeper::Keeper;
use tao_link::Link;

/// Whether a request is a read.
fn asks_read(asked: &Request) -> bool
    ensures { result ≡ asks_read asked.now }
{
    matches!(asked, Request::Call(Call::Read(_)))
}

impl<W: Wait + RandomSource + AllocGlobal, K: Keeper, J: Sharing> Host<'_, '_, W, K, J> {
    /// The reply to a read or a write of a connection that has a session.
    fn call<L: Link>(&self, pass: &mut Pass, link: &mut L, asked: &Request) -> Reply
        requires pass { IsPassOf J.making J.log pass.old }
        ensures pass { IsPassOf J.making J.log pass.new }
        ensures on { PassGoesOn pass.old pass.new }
        ensures replied { RepliesTo (on_cluster K.TELLS K.state J.making J.log) (calling pass.old (L.shown link.old)) (calling pass.new (L.shown link.new))
            asked.now result }
    {
        self.cluster.call(self.rt, pass, link, asked)
    }

    /// The reply to a read of a connection that has a session, which its herd may have it wait for.
    fn read<L: Link>(&self, pass: &mut Pass, link: &mut L, asked: Request) -> Reply
        requires pass { IsPassOf J.making J.log pass.old }
        requires read { AsksRead asked }
        ensures pass { IsPassOf J.making J.log pass.new }
        ensures on { PassGoesOn pass.old pass.new }
        ensures replied { RepliesTo (on_cluster K.TELLS K.state J.making J.log) (calling pass.old (L.shown link.old)) (calling pass.new (L.shown link.new))
            asked result }
    {
        herd_read(self.rt, self.cluster, self.herd, pass, link, asked)
    }

    /// The reply to a request.
    fn answer_one<L: Link>(
        &self,
        opened: &mut bool,
        pass: &mut Pass,
        link: &mut L,
        asked: Request,
    ) -> Reply
        requires may { MayTalk J.making J.log (talk_state opened.old (calling pass.old (L.shown link.old))) }
        ensures on { TalksOn J.making J.log (talk_state opened.old (calling pass.old (L.shown link.old)))
            (talk_state opened.new (calling pass.new (L.shown link.new))) }
        ensures replied { RepliesToOne (on_cluster K.TELLS K.state J.making J.log) (talk_state opened.old (calling pass.old (L.shown link.old)))
            (talk_state opened.new (calling pass.new (L.shown link.new))) asked result }
    {
        if *opened && asks_read(&asked) {
            return self.read(pass, link, asked);
        }
        let reply = self.answer_other(opened, pass, link, &asked);
        drop(asked);
        reply
    }

    /// The reply to a request, which reads on its own.
    fn answer_other<L: Link>(
        &self,
        opened: &mut bool,
        pass: &mut Pass,
        link: &mut L,
        asked: &Request,
    ) -> Reply
        requires may { MayTalk J.making J.log (talk_state opened.old (calling pass.old (L.shown link.old))) }
        ensures on { TalksOn J.making J.log (talk_state opened.old (calling pass.old (L.shown link.old)))
            (talk_state opened.new (calling pass.new (L.shown link.new))) }
        ensures replied { RepliesToOne (on_cluster K.TELLS K.state J.making J.log) (talk_state opened.old (calling pass.old (L.shown link.old)))
            (talk_state opened.new (calling pass.new (L.shown link.new))) asked.now result }
    {
        match asked {
            Request::Open(_) => open(self.rt.alloc(), self.cluster.config(), opened, pass, asked),
            Request::Call(call) => {
                if *opened {
                    self.call(pass, link, asked)
                } else {
                    no_session(call.session())
                }
            }
            _ => not_here(asked.word()),
        }
    }

    /// The reply to what a line asks.
    fn answer_talk<L: Link>(
        &self,
        opened: &mut bool,
        pass: &mut Pass,
        link: &mut L,
        asked: TalkLine,
    ) -> TalkReply
        requires talk { IsTalk asked }
        requires may { MayTalk J.making J.log (talk_state opened.old (calling pass.old (L.shown link.old))) }
        ensures on { TalksOn J.making J.log (talk_state opened.old (calling pass.old (L.shown link.old)))
            (talk_state opened.new (calling pass.new (L.shown link.new))) }
        ensures replied { RepliesToTalk (on_cluster K.TELLS K.state J.making J.log) (talk_state opened.old (calling pass.old (L.shown link.old)))
            (talk_state opened.new (calling pass.new (L.shown link.new))) (Ok asked) result }
    {
        match asked {
            TalkLine::One(asked) => TalkReply::One(self.answer_one(opened, pass, link, asked)),
            TalkLine::Batch { session, requests } => {
                self.answer_batch(*opened, pass, link, session, requests)
            }
        }
    }

    /// The reply to a line. The one error is out of memory, which leaves the connection as it was.
    pub(crate) fn answer<L: Link>(
        &self,
        memory: &mut LineMemory,
        opened: &mut bool,
        pass: &mut Pass,
        link: &mut L,
        line: &[u8],
    ) -> Result<TalkReply, AllocError>
        requires may { MayTalk J.making J.log (talk_state opened.old (calling pass.old (L.shown link.old))) }
        ensures on { TalksOn J.making J.log (talk_state opened.old (calling pass.old (L.shown link.old)))
            (talk_state opened.new (calling pass.new (L.shown link.new))) }
        ensures replied { IfOk result (RepliesToTalk (on_cluster K.TELLS K.state J.making J.log) (talk_state opened.old (calling pass.old (L.shown link.old)))
            (talk_state opened.new (calling pass.new (L.shown link.new))) (talk_in line.now)) }
        ensures same { OnErr result ((opened.new ≡ opened.old) × (pass.new ≡ pass.old) × (link.new ≡ link.old)) }
    {
        match read_talk(self.rt.alloc(), memory, line) {
            Ok(asked) => Ok(self.answer_talk(opened, pass, link, asked)),
            Err(refused) => match unread(refused) {
                Ok(reply) => Ok(TalkReply::One(reply)),
                Err(error) => Err(error),
            },
        }
    }
}
