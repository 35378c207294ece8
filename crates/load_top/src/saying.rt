//! The line of a load.
ghost use Rattle.std.specs.Prelude.{◌≡◌, ◌≤◌, IfErr, IfOk, OnErr, OnOk};
ghost use Rattle.std.specs.Io.KnownBytes.{Appends};
ghost use Rattle.first_line.specs.Interrupts.{AppendsPart, InterruptsWriting};
ghost use Rattle.load_top.specs.Lines.{bad_line, summary_line};

use crate::ended::{Came, Ended};
use first_line::{Interrupt, write_line};
use keepers::SteadyKeeper;
use reply_json::{bad_load_text, load_text};
use std::alloc::Global;
use tao_busy::LoadSummary;
use tao_io::Sink;

/// Writes the line that tells what came of a load.
fn say_summary<S: Sink>(
    alloc: Global,
    output: &mut S,
    summary: &LoadSummary,
) -> Result<(), Interrupt>
    ensures ok { OnOk result (Appends (S.taken output.old) (S.taken output.new) (summary_line summary.now)) }
    ensures err { OnErr result (AppendsPart (S.taken output.old) (S.taken output.new) (summary_line summary.now)) }
    ensures cause { IfErr result (InterruptsWriting (S.faults output.old) (S.faults output.new)) }
    ensures later { S.faults output.old ≤ S.faults output.new }
{
    let text = load_text(
        alloc,
        summary.edges,
        summary.logs.as_slice(),
        summary.refused,
    )?;
    write_line(output, text)
}

/// Writes the line that tells that no good came of a load.
fn say_bad<S: Sink>(alloc: Global, output: &mut S) -> Result<(), Interrupt>
    ensures ok { OnOk result (Appends (S.taken output.old) (S.taken output.new) bad_line) }
    ensures err { OnErr result (AppendsPart (S.taken output.old) (S.taken output.new) bad_line) }
    ensures cause { IfErr result (InterruptsWriting (S.faults output.old) (S.faults output.new)) }
    ensures later { S.faults output.old ≤ S.faults output.new }
{
    let text = bad_load_text(alloc)?;
    write_line(output, text)
}

/// The end of a load that was settled.
pub(crate) fn end_summed<S: Sink>(
    alloc: Global,
    output: &mut S,
    summary: &LoadSummary,
    keepers: Vec<SteadyKeeper>,
) -> Result<Ended, Interrupt>
    ensures ok { OnOk result (Appends (S.taken output.old) (S.taken output.new) (summary_line summary.now)) }
    ensures came { IfOk result (λ ended. ended.came ≡ Came.Settled) }
    ensures back { IfOk result (λ ended. ended.keepers.items ≡ keepers.items) }
    ensures err { OnErr result (AppendsPart (S.taken output.old) (S.taken output.new) (summary_line summary.now)) }
    ensures cause { IfErr result (InterruptsWriting (S.faults output.old) (S.faults output.new)) }
    ensures later { S.faults output.old ≤ S.faults output.new }
{
    say_summary(alloc, output, summary)?;
    Ok(Ended {
        came: Came::Settled,
        keepers,
    })
}

/// The end of a load that came to no good.
pub(crate) fn end_bad<S: Sink>(
    alloc: Global,
    output: &mut S,
    came: Came,
    keepers: Vec<SteadyKeeper>,
) -> Result<Ended, Interrupt>
    ensures ok { OnOk result (Appends (S.taken output.old) (S.taken output.new) bad_line) }
    ensures came { IfOk result (λ ended. ended.came ≡ came) }
    ensures back { IfOk result (λ ended. ended.keepers.items ≡ keepers.items) }
    ensures err { OnErr result (AppendsPart (S.taken output.old) (S.taken output.new) bad_line) }
    ensures cause { IfErr result (InterruptsWriting (S.faults output.old) (S.faults output.new)) }
    ensures later { S.faults output.old ≤ S.faults output.new }
{
    say_bad(alloc, output)?;
    Ok(Ended { came, keepers })
}
