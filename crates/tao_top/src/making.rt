//! The requests that a run makes itself: those of a workload, each with its reply.
ghost use Rattle.std.specs.Prelude.{◌≡◌, ◌<◌, ◌≤◌, Ok, true, false, [], length, IfErr, IfOk, OnErr, OnOk};
ghost use Rattle.std.specs.Io.KnownBytes.{Appends};
ghost use Rattle.first_line.specs.Interrupts.{AppendsPart, InterruptsWriting};
ghost use Rattle.load_gen.specs.Requests.{requests_of};
ghost use Rattle.core_nodes.specs.Outside.{outside};
ghost use Rattle.tao_top.specs.Kept.{LeavesTables, MayServe};
ghost use Rattle.tao_top.specs.Making.{CountsCalls, Made, MadeAll, MadeInPart, under_way, way_of};
ghost use Rattle.tao_top.specs.Served.{serves, summed_at};
ghost use Rattle.tao_top.specs.Step.{reply_line, serving};

use crate::serving::Serving;
use first_line::Interrupt;
use load_gen::{Workload, is_settle, refusals, summary};
use std::alloc::Global;
use tao_base::OutOfMemory;
use tao_io::Sink;
use tao_keeper::Keeper;
use tao_link::Link;
use tao_wire::{Reply, Request};
use topology::Config;

/// A workload under way, beside whence its requests take memory.
#[derive(Drop)]
pub(crate) struct Making {
    alloc: Global,
    workload: Workload,
    /// How many calls it has.
    calls: u64,
    /// How many of them were refused so far.
    refused: u64,
}

impl Making {
    /// The workload of a seed and a number of calls over a configuration, of which nothing is made yet.
    pub(crate) fn of(
        alloc: Global,
        config: &Config,
        seed: u64,
        calls: u64,
    ) -> Result<Making, OutOfMemory>
        ensures made { IfOk result (λ making. way_of making ≡ under_way (requests_of config.now seed calls) calls 0) }
        ensures counts { IfOk result (λ making. CountsCalls (way_of making)) }
    {
        Ok(Making {
            alloc,
            workload: Workload::make(alloc, config, seed, calls)?,
            calls,
            refused: 0,
        })
    }

    /// Writes what is said at a request whose reply this is: at the settling the sum of the replies and that reply, else nothing.
    fn say_at<S: Sink>(
        &self,
        served: &Serving<'_>,
        output: &mut S,
        request: &Request,
        reply: &Reply,
    ) -> Result<(), Interrupt>
        ensures ok { OnOk result (Appends (S.taken output.old) (S.taken output.new)
            (summed_at self.now.calls self.now.refused request.now (reply_line (serving served.now) reply.now))) }
        ensures err { OnErr result (AppendsPart (S.taken output.old) (S.taken output.new)
            (summed_at self.now.calls self.now.refused request.now (reply_line (serving served.now) reply.now))) }
        ensures cause { IfErr result (InterruptsWriting (S.faults output.old) (S.faults output.new)) }
        ensures later { S.faults output.old ≤ S.faults output.new }
    {
        if is_settle(request) {
            let sum = summary(self.alloc, self.calls, self.refused)?;
            served.say_after(output, sum, reply)
        } else {
            Ok(())
        }
    }

    /// Makes the next request, answers it, and writes what is said at it. Says whether there was one.
    fn make_next<S: Sink, K: Keeper, L: Link>(
        &mut self,
        serving: &mut Serving<'_>,
        output: &mut S,
        keepers: &mut K,
        link: &mut L,
    ) -> Result<bool, Interrupt>
        requires serving { MayServe K.TELLS serving.old (K.state keepers.old).told }
        requires counts { CountsCalls (way_of self.old) }
        ensures ok { OnOk result (Made K.TELLS (serves serving.old (outside (K.state keepers.old) (L.shown link.old)))
            (serves serving.new (outside (K.state keepers.new) (L.shown link.new))) (way_of self.old) (way_of self.new)
            (Appends (S.taken output.old) (S.taken output.new))) }
        ensures uses { result ≡ Ok true → length self.new.workload < length self.old.workload }
        ensures end { result ≡ Ok false → self.new.workload ≡ [] }
        ensures err { OnErr result (MadeInPart K.TELLS (serves serving.old (outside (K.state keepers.old) (L.shown link.old)))
            (outside (K.state keepers.new) (L.shown link.new)) (way_of self.old) (AppendsPart (S.taken output.old) (S.taken output.new))) }
        ensures counts { CountsCalls (way_of self.new) }
        ensures serving { MayServe K.TELLS serving.new (K.state keepers.new).told }
        ensures tables { LeavesTables K.TELLS (K.state keepers.old) (K.state keepers.new) }
        ensures cause { IfErr result (InterruptsWriting (S.faults output.old) (S.faults output.new)) }
        ensures later { S.faults output.old ≤ S.faults output.new }
    {
        match self.workload.next(self.alloc)? {
            None => Ok(false),
            Some(request) => {
                let reply = serving.call(keepers, link, &request);
                let said = self.say_at(serving, output, &request, &reply);
                self.refused += refusals(&request, &reply);
                output.progress(self.calls - self.workload.calls_left(), self.calls);
                drop(request);
                drop(reply);
                said?;
                Ok(true)
            }
        }
    }

    /// Makes all requests that are left.
    pub(crate) fn make_all<S: Sink, K: Keeper, L: Link>(
        &mut self,
        serving: &mut Serving<'_>,
        output: &mut S,
        keepers: &mut K,
        link: &mut L,
    ) -> Result<(), Interrupt>
        requires serving { MayServe K.TELLS serving.old (K.state keepers.old).told }
        requires counts { CountsCalls (way_of self.old) }
        ensures ok { OnOk result (Made K.TELLS (serves serving.old (outside (K.state keepers.old) (L.shown link.old)))
            (serves serving.new (outside (K.state keepers.new) (L.shown link.new))) (way_of self.old) (way_of self.new)
            (Appends (S.taken output.old) (S.taken output.new))) }
        ensures end { OnOk result (self.new.workload ≡ []) }
        ensures err { OnErr result (MadeInPart K.TELLS (serves serving.old (outside (K.state keepers.old) (L.shown link.old)))
            (outside (K.state keepers.new) (L.shown link.new)) (way_of self.old) (AppendsPart (S.taken output.old) (S.taken output.new))) }
        ensures serving { MayServe K.TELLS serving.new (K.state keepers.new).told }
        ensures tables { LeavesTables K.TELLS (K.state keepers.old) (K.state keepers.new) }
        ensures cause { IfErr result (InterruptsWriting (S.faults output.old) (S.faults output.new)) }
        ensures later { S.faults output.old ≤ S.faults output.new }
    {
        'requests: loop {
            if !self.make_next(serving, output, keepers, link)? {
                return Ok(());
            }
        }
    }
}

/// Makes the requests of a seed and a number of calls over the configuration that is served, and answers each.
pub(crate) fn make_requests<S: Sink, K: Keeper, L: Link>(
    serving: &mut Serving<'_>,
    seed: u64,
    calls: u64,
    output: &mut S,
    keepers: &mut K,
    link: &mut L,
) -> Result<(), Interrupt>
    requires serving { MayServe K.TELLS serving.old (K.state keepers.old).told }
    ensures ok { OnOk result (MadeAll K.TELLS (serves serving.old (outside (K.state keepers.old) (L.shown link.old)))
        (serves serving.new (outside (K.state keepers.new) (L.shown link.new)))
        (under_way (requests_of serving.old.settings seed calls) calls 0)
        (Appends (S.taken output.old) (S.taken output.new))) }
    ensures err { OnErr result (MadeInPart K.TELLS (serves serving.old (outside (K.state keepers.old) (L.shown link.old)))
        (outside (K.state keepers.new) (L.shown link.new))
        (under_way (requests_of serving.old.settings seed calls) calls 0)
        (AppendsPart (S.taken output.old) (S.taken output.new))) }
    ensures tables { LeavesTables K.TELLS (K.state keepers.old) (K.state keepers.new) }
    ensures cause { IfErr result (InterruptsWriting (S.faults output.old) (S.faults output.new)) }
    ensures later { S.faults output.old ≤ S.faults output.new }
{
    let mut making = serving.workload(seed, calls)?;
    let made = making.make_all(serving, output, keepers, link);
    drop(making);
    made
}
