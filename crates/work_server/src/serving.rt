//! The loop of a server.
ghost use Rattle.std.specs.Prelude.{◌≡◌, ◌≤◌, IfNone, IfSome};
ghost use Rattle.counts.specs.Count.{Counted};
ghost use Rattle.work_server.specs.Serving.{AddUp, EndsServer, IsStartedOrRun, TakesConnection, handed};

use crate::acceptor::Acceptor;
use crate::spawner::{Spawner, Work, WorkMaker};
use counts::Count;
use std::sync::Wait;
use tao_io::Status;

/// The jobs that were handed back and run by the server itself.
#[derive(Drop)]
struct OwnRuns {
    count: Count,
}

impl OwnRuns {
    /// Runs a job that was handed back. How it ended is its connection's matter.
    fn run<J: Work>(&mut self, job: J)
        ensures { Counted self.old.count self.new.count }
    {
        self.count.rise();
        let _ = job.run();
    }
}

/// Starts a job, or runs it where it is handed back.
fn hand_on<J: Work + Drop, S: Spawner<J>>(spawner: &mut S, own: &mut OwnRuns, job: J)
    ensures { IsStartedOrRun (handed (S.started spawner.old) (S.faults spawner.old) own.old.count)
        (handed (S.started spawner.new) (S.faults spawner.new) own.new.count) }
{
    if let Err(back) = spawner.start(job) {
        own.run(back);
    }
}

/// Takes the next connection and hands its job on. The status is that of a server that ends.
fn take_next<A: Acceptor, J: WorkMaker<A::In, A::Out>, S: Spawner<J::Job>>(
    acceptor: &mut A,
    spawner: &mut S,
    own: &mut OwnRuns,
    maker: &J,
) -> Option<Status>
    ensures next { TakesConnection (A.given acceptor.old) (A.given acceptor.new)
        (handed (S.started spawner.old) (S.faults spawner.old) own.old.count)
        (handed (S.started spawner.new) (S.faults spawner.new) own.new.count) result }
    ensures ends { IfSome result (EndsServer (A.ends acceptor.old) (A.ends acceptor.new) (A.faults acceptor.old) (A.faults acceptor.new)) }
    ensures on { IfNone result (A.ends acceptor.new ≡ A.ends acceptor.old) }
    ensures later { A.faults acceptor.old ≤ A.faults acceptor.new }
{
    match acceptor.next() {
        Ok(Some((input, output))) => {
            hand_on(spawner, own, maker.job(input, output));
            None
        }
        Ok(None) => Some(Status { code: 0 }),
        Err(_) => Some(Status { code: 11 }),
    }
}

/// Starts a job for each connection, and runs those that are handed back, each before the next connection is taken. May wait. The status is
///
/// - 0 exactly where the acceptor was at its end, as its count of ends rose;
/// - 11 where the acceptor failed, as its count of faults rose.
///
/// Unless a count stands at its last value, the connections that were given are as many as the jobs that were started and those that were handed back.
pub fn serve_work<R: Wait, A: Acceptor, J: WorkMaker<A::In, A::Out>, S: Spawner<J::Job>>(
    rt: &R,
    acceptor: &mut A,
    spawner: &mut S,
    maker: &J,
) -> Status
    ensures ends { EndsServer (A.ends acceptor.old) (A.ends acceptor.new) (A.faults acceptor.old) (A.faults acceptor.new) result }
    ensures sum { AddUp (A.given acceptor.old) (A.given acceptor.new) (S.started spawner.old) (S.started spawner.new)
        (S.faults spawner.old) (S.faults spawner.new) }
{
    let mut own = OwnRuns {
        count: Count::new(),
    };
    for _ in rt.forever() {
        if let Some(status) = take_next(acceptor, spawner, &mut own, maker) {
            return status;
        }
    }
    unreachable!()
}
