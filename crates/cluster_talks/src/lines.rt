//! A line of a connection answered, and its reply written.
ghost use Rattle.std.specs.Prelude.{◌≡◌, ◌≤◌, IfErr, OnErr, OnOk, []};
ghost use Rattle.std.specs.Io.KnownBytes.{Appends};
ghost use Rattle.cluster_talks.specs.TalkStates.{MayTalk, TalksOn, talk_state};
ghost use Rattle.cluster_talks.specs.TalkTexts.{talk_line, too_long_line};
ghost use Rattle.cluster_talks.specs.Talked.{SaysReply, SaysReplyInPart};
ghost use Rattle.first_line.specs.Interrupts.{AppendsPart, InterruptsWriting};
ghost use Rattle.shared_tiers.specs.Calls.{calling};
ghost use Rattle.shared_tiers.specs.locked_nodes.Cluster.{on_cluster};

use crate::host::Host;
use crate::refusing::too_long;
use crate::reply::TalkReply;
use first_line::{Interrupt, write_line};
use session_pass::Pass;
use shared_stores::Sharing;
use std::alloc::{AllocGlobal, Global};
use std::random::RandomSource;
use std::sync::Wait;
use talk_lines::LineMemory;
use tao_io::Sink;
use tao_keeper::Keeper;
use tao_link::Link;
use topology::Config;

/// Writes the line of what a line is replied.
fn say<S: Sink>(
    alloc: Global,
    config: &Config,
    output: &mut S,
    said: &TalkReply,
) -> Result<(), Interrupt>
    ensures ok { OnOk result (Appends (S.taken output.old) (S.taken output.new) (talk_line config.now said.now)) }
    ensures err { OnErr result (AppendsPart (S.taken output.old) (S.taken output.new) (talk_line config.now said.now)) }
    ensures cause { IfErr result (InterruptsWriting (S.faults output.old) (S.faults output.new)) }
    ensures later { S.faults output.old ≤ S.faults output.new }
{
    let text = said.text(alloc, config)?;
    write_line(output, text)
}

impl<W: Wait + RandomSource + AllocGlobal, K: Keeper, J: Sharing> Host<'_, '_, W, K, J> {
    /// Answers a line, and writes the reply.
    pub(crate) fn answer_line<S: Sink, L: Link>(
        &self,
        memory: &mut LineMemory,
        opened: &mut bool,
        pass: &mut Pass,
        link: &mut L,
        output: &mut S,
        line: &[u8],
    ) -> Result<(), Interrupt>
        requires may { MayTalk J.making J.log (talk_state opened.old (calling pass.old (L.shown link.old))) }
        ensures on { TalksOn J.making J.log (talk_state opened.old (calling pass.old (L.shown link.old)))
            (talk_state opened.new (calling pass.new (L.shown link.new))) }
        ensures ok { OnOk result (SaysReply (on_cluster K.TELLS K.state J.making J.log) (talk_state opened.old (calling pass.old (L.shown link.old))) line.now
            (talk_state opened.new (calling pass.new (L.shown link.new))) (Appends (S.taken output.old) (S.taken output.new))) }
        ensures err { OnErr result (SaysReplyInPart (on_cluster K.TELLS K.state J.making J.log) (talk_state opened.old (calling pass.old (L.shown link.old)))
            line.now (talk_state opened.new (calling pass.new (L.shown link.new))) (S.taken output.old) (S.taken output.new)) }
        ensures cause { IfErr result (InterruptsWriting (S.faults output.old) (S.faults output.new)) }
        ensures later { S.faults output.old ≤ S.faults output.new }
    {
        let reply = self.answer(memory, opened, pass, link, line)?;
        let said = say(self.rt.alloc(), self.cluster.config(), output, &reply);
        drop(reply);
        said
    }

    /// Refuses a line that is too long.
    pub(crate) fn refuse_line<S: Sink>(&self, output: &mut S) -> Result<(), Interrupt>
        ensures ok { OnOk result (Appends (S.taken output.old) (S.taken output.new) (too_long_line J.making.settings)) }
        ensures err { OnErr result (AppendsPart (S.taken output.old) (S.taken output.new) (too_long_line J.making.settings)) }
        ensures cause { IfErr result (InterruptsWriting (S.faults output.old) (S.faults output.new)) }
        ensures later { S.faults output.old ≤ S.faults output.new }
    {
        let reply = TalkReply::One(too_long(self.rt.alloc())?);
        let said = say(self.rt.alloc(), self.cluster.config(), output, &reply);
        drop(reply);
        said
    }
}
