//! The lines of a run after its first, each with its reply.
ghost use Rattle.std.specs.Prelude.{◌≡◌, ◌<◌, ◌≤◌, ◌^◌, Ok, true, false, IfErr, OnOk, OnErr, IsErrOf};
ghost use Rattle.std.specs.Io.KnownBytes.{IsAtEnd, Keeps};
ghost use Rattle.first_line.specs.Interrupts.{FaultsGrow, InterruptHasCause, InterruptsWriting, faults};
ghost use Rattle.tao_io.specs.LineReader.{may_give, to_come};
ghost use Rattle.tao_io.specs.Lines.{CountsTaken};
ghost use Rattle.tao_top.specs.Kept.{LeavesTables, MayServe};
ghost use Rattle.core_nodes.specs.Outside.{outside};
ghost use Rattle.tao_top.specs.Served.{Served, ServedAll, ServedInPart, serves, streams};

use crate::serving::Serving;
use first_line::Interrupt;
use tao_io::{LineReader, NextLine, Sink, Source};
use tao_keeper::Keeper;
use tao_link::Link;

/// Shows the replies that were written, unless the next line is at hand: whoever is to write it may wait for them.
fn show_replies<S: Sink>(reader: &LineReader, output: &mut S) -> Result<(), Interrupt>
    ensures taken { Keeps (S.taken output.old) (S.taken output.new) }
    ensures cause { IfErr result (InterruptsWriting (S.faults output.old) (S.faults output.new)) }
    ensures later { S.faults output.old ≤ S.faults output.new }
{
    if reader.has_line() {
        return Ok(());
    }
    output.flush()?;
    Ok(())
}

/// Reads a line, answers it, and writes the reply. Says whether there was a line.
#[tactic(auto, using(crate::proofs::Keeping::leaves_same))]
fn serve_line<R: Source, S: Sink, K: Keeper, L: Link>(
    serving: &mut Serving<'_>,
    reader: &mut LineReader,
    input: &mut R,
    output: &mut S,
    keepers: &mut K,
    link: &mut L,
) -> Result<bool, Interrupt>
    requires serving { MayServe K.TELLS serving.old (K.state keepers.old).told }
    ensures ok { OnOk result (Served K.TELLS (serves serving.old (outside (K.state keepers.old) (L.shown link.old)))
        (serves serving.new (outside (K.state keepers.new) (L.shown link.new)))
        (streams (to_come reader.old (R.left input.old)) (S.taken output.old))
        (streams (to_come reader.new (R.left input.new)) (S.taken output.new))) }
    ensures uses { result ≡ Ok true → may_give reader.new < may_give reader.old }
    ensures end { result ≡ Ok false → IsAtEnd (to_come reader.new (R.left input.new)) }
    ensures short { result ≡ Ok false → reader.new.taken < 2 ^ 40 }
    ensures serving { MayServe K.TELLS serving.new (K.state keepers.new).told }
    ensures tables { LeavesTables K.TELLS (K.state keepers.old) (K.state keepers.new) }

    ensures err { OnErr result (ServedInPart K.TELLS (serves serving.old (outside (K.state keepers.old) (L.shown link.old)))
        (outside (K.state keepers.new) (L.shown link.new)) (to_come reader.old (R.left input.old)) (S.taken output.old) (S.taken output.new)) }
    ensures cause { IfErr result (InterruptHasCause (faults (R.faults input.old) (S.faults output.old)) (faults (R.faults input.new) (S.faults output.new))) }
    ensures long { IsErrOf result Interrupt.InputTooLong → reader.new.taken ≡ 2 ^ 40 }

    ensures counted { CountsTaken (R.left input.old) (R.left input.new) reader.old.taken reader.new.taken }
    ensures limited { reader.new.taken ≤ 2 ^ 40 }
    ensures later { FaultsGrow (faults (R.faults input.old) (S.faults output.old)) (faults (R.faults input.new) (S.faults output.new)) }
{
    let mut line = serving.no_line();
    match reader.next(input, &mut line)? {
        NextLine::End => Ok(false),
        NextLine::TooLong => {
            serving.refuse_line(output)?;
            Ok(true)
        }
        NextLine::Line => {
            serving.answer_line(keepers, link, output, &line)?;
            Ok(true)
        }
    }
}

/// Serves each line that is left. The replies of lines that are at hand are shown together, each other one before the next line is waited for.
pub(crate) fn serve<R: Source, S: Sink, K: Keeper, L: Link>(
    serving: &mut Serving<'_>,
    reader: &mut LineReader,
    input: &mut R,
    output: &mut S,
    keepers: &mut K,
    link: &mut L,
) -> Result<(), Interrupt>
    requires serving { MayServe K.TELLS serving.old (K.state keepers.old).told }
    ensures ok { OnOk result (ServedAll K.TELLS (serves serving.old (outside (K.state keepers.old) (L.shown link.old)))
        (serves serving.new (outside (K.state keepers.new) (L.shown link.new))) (to_come reader.old (R.left input.old))
        (S.taken output.old) (S.taken output.new)) }
    ensures end { OnOk result (IsAtEnd (to_come reader.new (R.left input.new))) }
    ensures short { OnOk result (reader.new.taken < 2 ^ 40) }
    ensures serving { MayServe K.TELLS serving.new (K.state keepers.new).told }
    ensures tables { LeavesTables K.TELLS (K.state keepers.old) (K.state keepers.new) }

    ensures err { OnErr result (ServedInPart K.TELLS (serves serving.old (outside (K.state keepers.old) (L.shown link.old)))
        (outside (K.state keepers.new) (L.shown link.new)) (to_come reader.old (R.left input.old)) (S.taken output.old) (S.taken output.new)) }
    ensures cause { IfErr result (InterruptHasCause (faults (R.faults input.old) (S.faults output.old)) (faults (R.faults input.new) (S.faults output.new))) }
    ensures long { IsErrOf result Interrupt.InputTooLong → reader.new.taken ≡ 2 ^ 40 }

    ensures counted { CountsTaken (R.left input.old) (R.left input.new) reader.old.taken reader.new.taken }
    ensures limited { reader.old.taken ≤ 2 ^ 40 → reader.new.taken ≤ 2 ^ 40 }
    ensures later { FaultsGrow (faults (R.faults input.old) (S.faults output.old)) (faults (R.faults input.new) (S.faults output.new)) }
{
    'lines: loop {
        show_replies(reader, output)?;
        if !serve_line(serving, reader, input, output, keepers, link)? {
            return Ok(());
        }
    }
}
