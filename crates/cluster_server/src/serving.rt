//! A server of new stores.
ghost use Rattle.std.specs.Prelude.{◌≡◌, ◌≤◌, true, IfErr, IfOk, OnErr, OnOk, length};
ghost use Rattle.std.specs.Io.KnownBytes.{Appends};
ghost use Rattle.cluster_server.specs.Lines.{serving_line};
ghost use Rattle.core_model.specs.Stores.{store_count};
ghost use Rattle.first_line.specs.Interrupts.{AppendsPart, InterruptsWriting};
ghost use Rattle.new_stores.specs.Empty.{tables_of};
ghost use Rattle.shared_tiers.specs.cluster_opening.Opening.{IsOpenedOver, logs_of, making_of};
ghost use Rattle.work_server.specs.Serving.{EndsServer};

use crate::beginning::begin_serve;
use crate::clients::Clients;
use crate::pumping::serve_pumped;
use first_line::{FirstLine, Interrupt};
use keepers::SteadyKeeper;
use new_stores::open_new;
use read_herds::Herd;
use shared_stores::Sharing;
use shared_tiers::cluster_opening::Opened;
use std::alloc::{AllocGlobal, Global};
use std::marker::Brand;
use std::random::RandomSource;
use std::sync::Wait;
use std::thread::Threads;
use std::time::Clock;
use tao_base::OutOfMemory;
use tao_io::{Sink, Status};
use work_server::Acceptor;

/// How a server ended, and its acceptor.
pub(crate) struct ServerEnd<A> {
    pub status: Result<Status, Interrupt>,
    pub acceptor: A,
}

/// The server of stores that were opened, behind locks that are named.
fn serve_named<
    W: Threads + Wait + Clock + RandomSource + AllocGlobal + Sync,
    S: Sink,
    J: Sharing + Send + Sync,
    A: Acceptor + Drop,
>(
    rt: &W,
    alloc: Global,
    herd: &Herd,
    opened: Opened<'_, SteadyKeeper>,
    output: &mut S,
    acceptor: A,
) -> ServerEnd<A>
    requires many { length opened.keepers.items ≡ store_count opened.config.now }
    requires opened { IsOpenedOver true opened.config.now (tables_of opened.config.now opened.keepers.items) opened.fleet opened.cuts.items }
    requires log { J.log ≡ logs_of opened.fleet.stores }
    requires making { J.making ≡ making_of opened.config.now opened.fleet.stores opened.cuts.items }
    ensures ok { OnOk result.status (Appends (S.taken output.old) (S.taken output.new) serving_line) }
    ensures err { OnErr result.status (AppendsPart (S.taken output.old) (S.taken output.new) serving_line) }
    ensures ends { IfOk result.status (EndsServer (A.ends acceptor) (A.ends result.acceptor) (A.faults acceptor) (A.faults result.acceptor)) }
    ensures unasked { OnErr result.status (result.acceptor ≡ acceptor) }
    ensures cause { IfErr result.status (InterruptsWriting (S.faults output.old) (S.faults output.new)) }
    ensures later { S.faults output.old ≤ S.faults output.new }
{
    match begin_serve::<S, J>(alloc, opened, output) {
        Ok(cluster) => {
            let clients = Clients {
                rt,
                cluster: &cluster,
                herd,
            };
            let (status, acceptor) = serve_pumped(rt, alloc, &clients, acceptor);
            ServerEnd {
                status: Ok(status),
                acceptor,
            }
        }
        Err(interrupt) => ServerEnd {
            status: Err(interrupt),
            acceptor,
        },
    }
}

/// The server of stores that were opened.
fn serve_opened<
    W: Threads + Wait + Clock + RandomSource + AllocGlobal + Sync,
    S: Sink,
    A: Acceptor + Drop,
>(
    rt: &W,
    alloc: Global,
    herd: &Herd,
    opened: Opened<'_, SteadyKeeper>,
    output: &mut S,
    acceptor: A,
) -> ServerEnd<A>
    requires many { length opened.keepers.items ≡ store_count opened.config.now }
    requires opened { IsOpenedOver true opened.config.now (tables_of opened.config.now opened.keepers.items) opened.fleet opened.cuts.items }
    ensures ok { OnOk result.status (Appends (S.taken output.old) (S.taken output.new) serving_line) }
    ensures err { OnErr result.status (AppendsPart (S.taken output.old) (S.taken output.new) serving_line) }
    ensures ends { IfOk result.status (EndsServer (A.ends acceptor) (A.ends result.acceptor) (A.faults acceptor) (A.faults result.acceptor)) }
    ensures unasked { OnErr result.status (result.acceptor ≡ acceptor) }
    ensures cause { IfErr result.status (InterruptsWriting (S.faults output.old) (S.faults output.new)) }
    ensures later { S.faults output.old ≤ S.faults output.new }
{
    serve_named::<W, S, Brand, A>(rt, alloc, herd, opened, output, acceptor)
}

/// The server of a configuration, over new stores.
pub(crate) fn serve_first<
    W: Threads + Wait + Clock + RandomSource + AllocGlobal + Sync,
    S: Sink,
    A: Acceptor + Drop,
>(rt: &W, alloc: Global, first: &FirstLine, output: &mut S, acceptor: A) -> ServerEnd<A>
    ensures ok { OnOk result.status (Appends (S.taken output.old) (S.taken output.new) serving_line) }
    ensures err { OnErr result.status (AppendsPart (S.taken output.old) (S.taken output.new) serving_line) }
    ensures ends { IfOk result.status (EndsServer (A.ends acceptor) (A.ends result.acceptor) (A.faults acceptor) (A.faults result.acceptor)) }
    ensures unasked { OnErr result.status (result.acceptor ≡ acceptor) }
    ensures cause { IfErr result.status (InterruptsWriting (S.faults output.old) (S.faults output.new)) }
    ensures later { S.faults output.old ≤ S.faults output.new }
{
    let Ok(herd) = Herd::make(alloc) else {
        return ServerEnd {
            status: Err(Interrupt::Memory),
            acceptor,
        };
    };
    match open_new(alloc, &first.config, &first.line) {
        Ok(opened) => serve_opened(rt, alloc, &herd, opened, output, acceptor),
        Err(OutOfMemory) => ServerEnd {
            status: Err(Interrupt::Memory),
            acceptor,
        },
    }
}
