//! A load by a configuration, and its line.
ghost use Rattle.std.specs.Prelude.{◌≤◌, ◌<◌, IfErr, IfOk, OnErr};
ghost use Rattle.std.specs.Io.KnownBytes.{Appends};
ghost use Rattle.first_line.specs.Interrupts.{InterruptsWriting};
ghost use Rattle.load_top.specs.Ending.{EndsLoad, RefusesNew, WritesPart, requests_by};
ghost use Rattle.tao_busy.specs.Load.{requests_asked};

use crate::ended::{Came, Ended};
use crate::saying::{end_bad, end_summed};
use command_words::LoadWords;
use first_line::{FirstLine, Interrupt};
use keepers::SteadyKeeper;
use new_stores::keepers_for;
use replies::OpenRefusal;
use std::alloc::Global;
use std::sync::Wait;
use std::thread::Threads;
use tao_busy::{BusyRefusal, Gate, LoadAsked, load};
use tao_io::Sink;

/// The end of a load that came to no summary. Over new keepers, which never fail, it can be for want of memory, a full log and a stranger alone.
fn end_refused<S: Sink>(
    alloc: Global,
    asked: &LoadAsked<'_>,
    output: &mut S,
    why: BusyRefusal<SteadyKeeper>,
) -> Result<Ended, Interrupt>
    requires refused { RefusesNew asked.now why }
    ensures ok { IfOk result (λ ended. EndsLoad asked.now.config.now (requests_asked asked.now) ended.came ended.keepers.items
        (Appends (S.taken output.old) (S.taken output.new))) }
    ensures part { OnErr result (WritesPart (S.taken output.old) (S.taken output.new)) }
    ensures cause { IfErr result (InterruptsWriting (S.faults output.old) (S.faults output.new)) }
    ensures later { S.faults output.old ≤ S.faults output.new }
{
    match why {
        BusyRefusal::Stuck { keepers, .. } => end_bad(alloc, output, Came::Stuck, keepers),
        BusyRefusal::Stranger { keepers, .. } => end_bad(alloc, output, Came::Strange, keepers),
        BusyRefusal::OutOfMemory { keepers } => {
            drop(keepers);
            Err(Interrupt::Memory)
        }
        BusyRefusal::Open(fail) => {
            match fail.why {
                OpenRefusal::OutOfMemory => Err(Interrupt::Memory),
                OpenRefusal::OtherLine => unreachable!(),
                OpenRefusal::KeeperFault => unreachable!(),
                OpenRefusal::Disagree { .. } => unreachable!(),
            }
        }
        BusyRefusal::KeeperFault { .. } => unreachable!(),
    }
}

/// Makes a load over new keepers, and writes its line.
pub(crate) fn load_first<T: Threads + Wait + Sync, S: Sink, G: Gate + Sync>(
    rt: &T,
    alloc: Global,
    first: &FirstLine,
    output: &mut S,
    words: LoadWords,
    gate: &G,
) -> Result<Ended, Interrupt>
    requires threads { 0 < words.threads }
    ensures ok { IfOk result (λ ended. EndsLoad first.now.config (requests_by words first.now.config) ended.came ended.keepers.items
        (Appends (S.taken output.old) (S.taken output.new))) }
    ensures part { OnErr result (WritesPart (S.taken output.old) (S.taken output.new)) }
    ensures cause { IfErr result (InterruptsWriting (S.faults output.old) (S.faults output.new)) }
    ensures later { S.faults output.old ≤ S.faults output.new }
{
    let keepers = keepers_for(alloc, &first.config)?;
    let asked = LoadAsked {
        config: &first.config,
        line: &first.line,
        threads: words.threads,
        seed: words.seed,
        calls: words.calls,
    };
    match load(rt, alloc, &asked, keepers, gate) {
        Ok((summary, keepers)) => end_summed(alloc, output, &summary, keepers),
        Err(why) => end_refused(alloc, &asked, output, why),
    }
}
