//! The lines of a connection, each with its reply.
ghost use Rattle.std.specs.Prelude.{◌≡◌, ◌<◌, ◌≤◌, ◌^◌, Ok, true, false, IfErr, OnOk, OnErr, IsErrOf};
ghost use Rattle.std.specs.Io.KnownBytes.{IsAtEnd, Keeps};
ghost use Rattle.cluster_talks.specs.TalkStates.{MayTalk, talk_state};
ghost use Rattle.cluster_talks.specs.Talked.{Talked, TalkedAll, TalkedInPart, wire};
ghost use Rattle.first_line.specs.Interrupts.{FaultsGrow, InterruptHasCause, InterruptsWriting, faults};
ghost use Rattle.shared_tiers.specs.Calls.{calling};
ghost use Rattle.shared_tiers.specs.locked_nodes.Cluster.{on_cluster};
ghost use Rattle.tao_io.specs.LineReader.{may_give, to_come};
ghost use Rattle.tao_io.specs.Lines.{CountsTaken};

use crate::host::Host;
use first_line::Interrupt;
use session_pass::Pass;
use shared_stores::Sharing;
use std::alloc::AllocGlobal;
use std::random::RandomSource;
use std::sync::Wait;
use talk_lines::LineMemory;
use tao_io::{LineReader, NextLine, Sink, Source};
use tao_keeper::Keeper;
use tao_link::Link;

/// What a connection has come to: its lines that were read ahead, the memory that reading takes, and whether its session is open.
#[derive(Drop)]
pub(crate) struct Listener {
    pub reader: LineReader,
    pub memory: LineMemory,
    pub opened: bool,
}

/// Shows the replies that were written, unless the next line is at hand: whoever is to write it may wait for them.
fn show_replies<S: Sink>(reader: &LineReader, output: &mut S) -> Result<(), Interrupt>
    ensures taken { Keeps (S.taken output.old) (S.taken output.new) }
    ensures cause { IfErr result (InterruptsWriting (S.faults output.old) (S.faults output.new)) }
    ensures later { S.faults output.old ≤ S.faults output.new }
{
    if reader.has_line() {
        return Ok(());
    }
    output.flush()?;
    Ok(())
}

impl<W: Wait + RandomSource + AllocGlobal, K: Keeper, J: Sharing> Host<'_, '_, W, K, J> {
    /// Reads a line, answers it, and writes the reply. Says whether there was a line.
    fn serve_line<R: Source, S: Sink, L: Link>(
        &self,
        listener: &mut Listener,
        pass: &mut Pass,
        link: &mut L,
        input: &mut R,
        output: &mut S,
    ) -> Result<bool, Interrupt>
        requires may { MayTalk J.making J.log (talk_state listener.old.opened (calling pass.old (L.shown link.old))) }
        ensures may { MayTalk J.making J.log (talk_state listener.new.opened (calling pass.new (L.shown link.new))) }
        ensures ok { OnOk result (Talked (on_cluster K.TELLS K.state J.making J.log) (talk_state listener.old.opened (calling pass.old (L.shown link.old)))
            (talk_state listener.new.opened (calling pass.new (L.shown link.new))) (wire (to_come listener.old.reader (R.left input.old)) (S.taken output.old))
            (wire (to_come listener.new.reader (R.left input.new)) (S.taken output.new))) }
        ensures uses { result ≡ Ok true → may_give listener.new.reader < may_give listener.old.reader }
        ensures end { result ≡ Ok false → IsAtEnd (to_come listener.new.reader (R.left input.new)) }
        ensures short { result ≡ Ok false → listener.new.reader.taken < 2 ^ 40 }

        ensures err { OnErr result (TalkedInPart (on_cluster K.TELLS K.state J.making J.log) (talk_state listener.old.opened (calling pass.old (L.shown link.old)))
            (talk_state listener.new.opened (calling pass.new (L.shown link.new))) (wire (to_come listener.old.reader (R.left input.old)) (S.taken output.old))
            (S.taken output.new)) }
        ensures cause { IfErr result (InterruptHasCause (faults (R.faults input.old) (S.faults output.old)) (faults (R.faults input.new) (S.faults output.new))) }
        ensures long { IsErrOf result Interrupt.InputTooLong → listener.new.reader.taken ≡ 2 ^ 40 }

        ensures counted { CountsTaken (R.left input.old) (R.left input.new) listener.old.reader.taken listener.new.reader.taken }
        ensures limited { listener.new.reader.taken ≤ 2 ^ 40 }
        ensures later { FaultsGrow (faults (R.faults input.old) (S.faults output.old)) (faults (R.faults input.new) (S.faults output.new)) }
    {
        let mut line = Vec::new(self.rt.alloc());
        match listener.reader.next(input, &mut line)? {
            NextLine::End => Ok(false),
            NextLine::TooLong => {
                self.refuse_line(output)?;
                Ok(true)
            }
            NextLine::Line => {
                self.answer_line(
                    &mut listener.memory,
                    &mut listener.opened,
                    pass,
                    link,
                    output,
                    &line,
                )?;
                Ok(true)
            }
        }
    }

    /// Serves each line that is left. The replies of lines that are at hand are shown together, each other one before the next line is waited for.
    pub(crate) fn serve<R: Source, S: Sink, L: Link>(
        &self,
        listener: &mut Listener,
        pass: &mut Pass,
        link: &mut L,
        input: &mut R,
        output: &mut S,
    ) -> Result<(), Interrupt>
        requires may { MayTalk J.making J.log (talk_state listener.old.opened (calling pass.old (L.shown link.old))) }
        ensures may { MayTalk J.making J.log (talk_state listener.new.opened (calling pass.new (L.shown link.new))) }
        ensures ok { OnOk result (TalkedAll (on_cluster K.TELLS K.state J.making J.log) (talk_state listener.old.opened (calling pass.old (L.shown link.old)))
            (talk_state listener.new.opened (calling pass.new (L.shown link.new))) (wire (to_come listener.old.reader (R.left input.old)) (S.taken output.old))
            (S.taken output.new)) }
        ensures end { OnOk result (IsAtEnd (to_come listener.new.reader (R.left input.new))) }
        ensures short { OnOk result (listener.new.reader.taken < 2 ^ 40) }

        ensures err { OnErr result (TalkedInPart (on_cluster K.TELLS K.state J.making J.log) (talk_state listener.old.opened (calling pass.old (L.shown link.old)))
            (talk_state listener.new.opened (calling pass.new (L.shown link.new))) (wire (to_come listener.old.reader (R.left input.old)) (S.taken output.old))
            (S.taken output.new)) }
        ensures cause { IfErr result (InterruptHasCause (faults (R.faults input.old) (S.faults output.old)) (faults (R.faults input.new) (S.faults output.new))) }
        ensures long { IsErrOf result Interrupt.InputTooLong → listener.new.reader.taken ≡ 2 ^ 40 }

        ensures counted { CountsTaken (R.left input.old) (R.left input.new) listener.old.reader.taken listener.new.reader.taken }
        ensures limited { listener.old.reader.taken ≤ 2 ^ 40 → listener.new.reader.taken ≤ 2 ^ 40 }
    {
        'lines: loop {
            show_replies(&listener.reader, output)?;
            if !self.serve_line(listener, pass, link, input, output)? {
                return Ok(());
            }
        }
    }
}
