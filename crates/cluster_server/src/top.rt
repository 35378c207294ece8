//! The top call of a server.
ghost use Rattle.std.specs.Prelude.{◌≡◌, ◌⊎◌, ◌≤◌, ◌^◌, Err, IfErr, IfOk, IfSome, OnErr, length};
ghost use Rattle.counts.specs.Count.{Rose};
ghost use Rattle.cluster_server.specs.Statuses.{BeginsServer, IsServerStatus, IsUnserved, WasServed};
ghost use Rattle.cluster_server.specs.Lines.{serving_line};
ghost use Rattle.first_line.specs.First.{EndsAlone, FirstHasCause, RefusesAlone, Takes};
ghost use Rattle.first_line.specs.Interrupts.{AppendsPart, faults};
ghost use Rattle.first_line.specs.declared.Interrupt.TheVariants.{InputTooLong};
ghost use Rattle.new_stores.specs.Streams.{streams};
ghost use Rattle.work_server.specs.Serving.{EndsServer};

use crate::serving::{ServerEnd, serve_first};
use first_line::{FirstStop, read_first_alone};
use std::alloc::{AllocGlobal, Global};
use std::random::RandomSource;
use std::sync::Wait;
use std::thread::Threads;
use std::time::Clock;
use tao_io::{Sink, Source, Status};
use work_server::Acceptor;

/// How a server ended, or why it wasn't begun, and its acceptor.
struct TopEnd<A> {
    status: Result<Status, FirstStop>,
    acceptor: A,
}

/// Reads the first line, and serves the clients of the cluster that it is the configuration of.
fn go<
    W: Threads + Wait + Clock + RandomSource + AllocGlobal + Sync,
    R: Source,
    S: Sink,
    A: Acceptor + Drop,
>(rt: &W, alloc: Global, input: &mut R, output: &mut S, acceptor: A) -> TopEnd<A>
    ensures ok { IfOk result.status (λ _. BeginsServer (streams (R.left input.old) (S.taken output.old)) (streams (R.left input.new) (S.taken output.new))) }
    ensures ends { IfOk result.status (EndsServer (A.ends acceptor) (A.ends result.acceptor) (A.faults acceptor) (A.faults result.acceptor)) }
    ensures unasked { OnErr result.status (result.acceptor ≡ acceptor) }
    ensures part { OnErr result.status (EndsAlone (R.left input.old) (R.left input.new) (S.taken output.old) (S.taken output.new)
        ⊎ AppendsPart (S.taken output.old) (S.taken output.new) serving_line) }
    ensures refused { result.status ≡ Err FirstStop.Configuration → RefusesAlone (R.left input.old) (R.left input.new) (S.taken output.old) (S.taken output.new) }
    ensures cause { IfErr result.status (FirstHasCause (faults (R.faults input.old) (S.faults output.old)) (faults (R.faults input.new) (S.faults output.new))) }
    ensures long { result.status ≡ Err (FirstStop.Interrupted InputTooLong) → IfSome (R.left input.old) (λ bytes. 2 ^ 40 ≤ length bytes) }
    ensures taken { Takes (R.left input.old) (R.left input.new) }
{
    match read_first_alone(alloc, input, output) {
        Ok(first) => {
            let ServerEnd { status, acceptor } = serve_first(rt, alloc, &first, output, acceptor);
            match status {
                Ok(status) => TopEnd {
                    status: Ok(status),
                    acceptor,
                },
                Err(interrupt) => TopEnd {
                    status: Err(FirstStop::Interrupted(interrupt)),
                    acceptor,
                },
            }
        }
        Err(stop) => TopEnd {
            status: Err(stop),
            acceptor,
        },
    }
}

/// Reads the first line as a configuration, writes that its new stores are served, and then talks over each connection of the acceptor in a thread, until
/// there are no more. Where no thread can be made it talks here. Meanwhile one more thread has the nodes of the cluster take what waits for them. May wait. The
/// status is
///
/// - 0 exactly where the acceptor was at its end, and 11 where it failed, after the line `{"ok":"serving"}`;
/// - 3 where the first line is missing, or is no configuration, after the line that says so;
/// - 4, 5 where the source or the sink failed;
/// - 7 where there was no memory to begin;
/// - 9 where 2^40 bytes were taken and the first line had not come.
pub fn serve_top<
    W: Threads + Wait + Clock + RandomSource + AllocGlobal + Sync,
    R: Source,
    S: Sink,
    A: Acceptor + Drop,
>(rt: &W, alloc: Global, input: &mut R, output: &mut S, acceptor: A) -> (Status, A)
    ensures begun { WasServed result.0.code → BeginsServer (streams (R.left input.old) (S.taken output.old)) (streams (R.left input.new) (S.taken output.new)) }
    ensures ends { WasServed result.0.code → EndsServer (A.ends acceptor) (A.ends result.1) (A.faults acceptor) (A.faults result.1) result.0 }
    ensures unasked { IsUnserved result.0.code → result.1 ≡ acceptor }
    ensures in_part { IsUnserved result.0.code → EndsAlone (R.left input.old) (R.left input.new) (S.taken output.old) (S.taken output.new)
        ⊎ AppendsPart (S.taken output.old) (S.taken output.new) serving_line }
    ensures configuration { result.0.code ≡ 3 → RefusesAlone (R.left input.old) (R.left input.new) (S.taken output.old) (S.taken output.new) }
    ensures source { result.0.code ≡ 4 → Rose (R.faults input.old) (R.faults input.new) }
    ensures sink { result.0.code ≡ 5 → Rose (S.faults output.old) (S.faults output.new) }
    ensures long { result.0.code ≡ 9 → IfSome (R.left input.old) (λ bytes. 2 ^ 40 ≤ length bytes) }
    ensures known { IsServerStatus result.0.code }
    ensures taken { Takes (R.left input.old) (R.left input.new) }
{
    let TopEnd { status, acceptor } = go(rt, alloc, input, output, acceptor);
    match status {
        Ok(status) => (status, acceptor),
        Err(FirstStop::Configuration) => (Status { code: 3 }, acceptor),
        Err(FirstStop::Interrupted(interrupt)) => (
            Status {
                code: interrupt.code(),
            },
            acceptor,
        ),
    }
}
