//! The beginning of a run: its stores are opened with the configuration that its first line is.
ghost use Rattle.std.specs.Prelude.{◌≡◌, ◌≤◌, Ok, Err, IfErr, IfOk, OnErr, OnOk};
ghost use Rattle.std.specs.Io.KnownBytes.{Appends};
ghost use Rattle.config_json.specs.Config.{config_in};
ghost use Rattle.first_line.specs.Interrupts.{AppendsPart, InterruptsWriting};
ghost use Rattle.graph_model.specs.Told.{WhereTold};
ghost use Rattle.core_nodes.specs.Opening.{MayOpen};
ghost use Rattle.tao_top.specs.Begun.{ConfiguredInPart, RefusesLine, RepliesFirst, SaysDisagreement, StopsBeginning};
ghost use Rattle.tao_link.specs.Shown.{LinkShown};
ghost use Rattle.tao_top.specs.Kept.{LeavesTables, MayServe};
ghost use Rattle.core_nodes.specs.Outside.{outside};
ghost use Rattle.tao_top.specs.Served.{OpensInPart, serves, start, AtOpeningOrLater, said_configured};
ghost use Rattle.tao_top.specs.Stop.{stop_code};

use crate::lines::say_disagreement;
use crate::serving::Serving;
use crate::stop::Stop;
use command_words::Words;
use first_line::{FirstLine, Interrupt, refuse};
use std::alloc::Global;
use tao_io::Sink;
use tao_keeper::Keeper;
use tao_wire::{OpenRefusal, Reply};

/// Says that the configuration was taken, where the words ask for the reply to each line.
fn say_configured<S: Sink>(
    words: &Words,
    serving: &Serving<'_>,
    output: &mut S,
) -> Result<(), Interrupt>
    ensures ok { OnOk result (Appends (S.taken output.old) (S.taken output.new) (said_configured words.now serving.now)) }
    ensures err { OnErr result (AppendsPart (S.taken output.old) (S.taken output.new) (said_configured words.now serving.now)) }
    ensures cause { IfErr result (InterruptsWriting (S.faults output.old) (S.faults output.new)) }
    ensures later { S.faults output.old ≤ S.faults output.new }
{
    match words {
        Words::Run { .. } => {
            let reply = Reply::Configured;
            let said = serving.say(output, &reply);
            drop(reply);
            said
        }
        Words::Gen { .. } => Ok(()),
    }
}

/// Opens the stores with the configuration, and writes what the words ask for of the reply to its line. Whatever a link shows, it is left alone.
#[tactic(auto, using(crate::proofs::Keeping::leaves_same))]
pub(crate) fn begin<'c, S: Sink, K: Keeper>(
    alloc: Global,
    words: &Words,
    first: &'c FirstLine,
    output: &mut S,
    keepers: &mut K,
) -> Result<Serving<'c>, Stop>
    requires configured { config_in first.now.line.items ≡ Ok first.now.config }
    requires kept { WhereTold K.TELLS (MayOpen first.now.config first.now.line.items (K.state keepers.old).told) }
    ensures settings { IfOk result (λ serving. serving.settings ≡ first.now.config) }
    ensures ok { IfOk result (λ serving. (link : LinkShown) → RepliesFirst words.now K.TELLS
        (start (outside (K.state keepers.old) link)) first.now.line.items (serves serving (outside (K.state keepers.new) link))
        (Appends (S.taken output.old) (S.taken output.new))) }
    ensures serving { IfOk result (λ serving. MayServe K.TELLS serving (K.state keepers.new).told) }
    ensures err { IfErr result (λ stop. (link : LinkShown) → AtOpeningOrLater (stop_code stop)
        (OpensInPart K.TELLS (outside (K.state keepers.old) link) (outside (K.state keepers.new) link) first.now.line.items
        (S.taken output.old) (S.taken output.new))
        (ConfiguredInPart words.now K.TELLS (outside (K.state keepers.old) link) (outside (K.state keepers.new) link) first.now.line.items
        (AppendsPart (S.taken output.old) (S.taken output.new)))) }
    ensures keepers { result ≡ Err Stop.Keepers → (link : LinkShown) → OpensInPart K.TELLS
        (outside (K.state keepers.old) link) (outside (K.state keepers.new) link) first.now.line.items
        (S.taken output.old) (S.taken output.new) }
    ensures refused { result ≡ Err Stop.Configuration → (link : LinkShown) → RefusesLine K.TELLS
        (outside (K.state keepers.old) link) (outside (K.state keepers.new) link) first.now.line.items
        (S.taken output.old) (S.taken output.new) }
    ensures stores { result ≡ Err Stop.Stores → (link : LinkShown) → SaysDisagreement K.TELLS
        (outside (K.state keepers.old) link) (outside (K.state keepers.new) link) first.now.line.items
        (S.taken output.old) (S.taken output.new) }
    ensures tables { LeavesTables K.TELLS (K.state keepers.old) (K.state keepers.new) }
    ensures cause { IfErr result (StopsBeginning (S.faults output.old) (S.faults output.new) (K.state keepers.old).faults (K.state keepers.new).faults) }
    ensures later { S.faults output.old ≤ S.faults output.new }
{
    match Serving::open(alloc, &first.config, &first.line, keepers) {
        Ok(serving) => {
            match say_configured(words, &serving, output) {
                Ok(()) => Ok(serving),
                Err(interrupt) => {
                    drop(serving);
                    Err(Stop::Interrupted(interrupt))
                }
            }
        }
        Err(OpenRefusal::OtherLine) => Err(Stop::from(refuse(alloc, output, "file"))),
        Err(OpenRefusal::KeeperFault) => Err(Stop::Keepers),
        Err(OpenRefusal::OutOfMemory) => Err(Stop::Interrupted(Interrupt::Memory)),
        Err(OpenRefusal::Disagree { store, position }) => Err(say_disagreement(
            alloc,
            &first.config,
            output,
            store,
            position,
        )),
    }
}
