//! How a server begins.
ghost use Rattle.std.specs.Prelude.{◌≡◌, ◌≤◌, IfErr, IfOk, OnErr, OnOk, true, length};
ghost use Rattle.std.specs.Io.KnownBytes.{Appends, Keeps};
ghost use Rattle.cluster_server.specs.Lines.{serving_line};
ghost use Rattle.core_model.specs.Stores.{store_count};
ghost use Rattle.first_line.specs.Interrupts.{AppendsPart, InterruptsWriting};
ghost use Rattle.new_stores.specs.Empty.{tables_of};
ghost use Rattle.shared_tiers.specs.cluster_opening.Opening.{IsOpenedOver, logs_of, making_of};

use first_line::{Interrupt, write_line};
use keepers::SteadyKeeper;
use shared_stores::Sharing;
use shared_tiers::Cluster;
use shared_tiers::cluster_opening::Opened;
use std::alloc::Global;
use tao_base::Bytes;
use tao_io::Sink;

/// Writes the line that tells that a server can be reached.
fn write_serving<S: Sink>(alloc: Global, output: &mut S) -> Result<(), Interrupt>
    ensures ok { OnOk result (Appends (S.taken output.old) (S.taken output.new) serving_line) }
    ensures err { OnErr result (AppendsPart (S.taken output.old) (S.taken output.new) serving_line) }
    ensures cause { IfErr result (InterruptsWriting (S.faults output.old) (S.faults output.new)) }
    ensures later { S.faults output.old ≤ S.faults output.new }
{
    let mut text = Vec::new(alloc);
    text.extend_from_slice(b"{\"ok\":\"serving\"}")?;
    write_line(output, Bytes::of(text))
}

/// Shows what was written.
fn show<S: Sink>(output: &mut S) -> Result<(), Interrupt>
    ensures taken { Keeps (S.taken output.old) (S.taken output.new) }
    ensures cause { IfErr result (InterruptsWriting (S.faults output.old) (S.faults output.new)) }
    ensures later { S.faults output.old ≤ S.faults output.new }
{
    output.flush()?;
    Ok(())
}

/// Writes the line that tells that a server can be reached, and shows it.
#[tactic(auto, using(crate::proofs::LineLemmas::shown_ok, crate::proofs::LineLemmas::shown_err, crate::proofs::LineLemmas::fails_later))]
fn say_serving<S: Sink>(alloc: Global, output: &mut S) -> Result<(), Interrupt>
    ensures ok { OnOk result (Appends (S.taken output.old) (S.taken output.new) serving_line) }
    ensures err { OnErr result (AppendsPart (S.taken output.old) (S.taken output.new) serving_line) }
    ensures cause { IfErr result (InterruptsWriting (S.faults output.old) (S.faults output.new)) }
    ensures later { S.faults output.old ≤ S.faults output.new }
{
    write_serving(alloc, output)?;
    show(output)
}

/// Puts new stores that were opened behind locks, and writes the line that tells that they can be reached. Where it ends early, a front of that line was
/// written, for want of memory or since the sink failed.
pub fn begin_serve<'c, S: Sink, J: Sharing>(
    alloc: Global,
    opened: Opened<'c, SteadyKeeper>,
    output: &mut S,
) -> Result<Cluster<'c, SteadyKeeper, J>, Interrupt>
    requires many { length opened.keepers.items ≡ store_count opened.config.now }
    requires opened { IsOpenedOver true opened.config.now (tables_of opened.config.now opened.keepers.items) opened.fleet opened.cuts.items }
    requires log { J.log ≡ logs_of opened.fleet.stores }
    requires making { J.making ≡ making_of opened.config.now opened.fleet.stores opened.cuts.items }
    ensures config { IfOk result (λ cluster. cluster.settings ≡ opened.entry.config.now) }
    ensures ok { OnOk result (Appends (S.taken output.old) (S.taken output.new) serving_line) }
    ensures err { OnErr result (AppendsPart (S.taken output.old) (S.taken output.new) serving_line) }
    ensures cause { IfErr result (InterruptsWriting (S.faults output.old) (S.faults output.new)) }
    ensures later { S.faults output.old ≤ S.faults output.new }
{
    match Cluster::<'c, SteadyKeeper, J>::make(opened) {
        Ok(cluster) => {
            say_serving(alloc, output)?;
            Ok(cluster)
        }
        Err(fail) => {
            drop(fail);
            Err(Interrupt::Memory)
        }
    }
}
